//! The parser of Core Standard ML.
//!
//! It stands on `sml_lexer`, `syntax_laws`, `sml_syntax`, `sml_tree` and `smlc_base`. Its main contract: `parse`
//! answers the tree of the tokens by the grammar, or exactly the first token with which they begin no program, with
//! its cause, or the first declaration that is too deep, or want of memory.
//!
//! `specs/Parse.antt` states it, over `Terminals`, `Starting`, `Nodes`, `Depth`, `Banned` and `Stops`. The other
//! definitions (`Turns`, `Scopes`, `Statuses`, `Citing`) belong to the code.
#![tactic(auto)]

mod banned;
mod depth;
mod nodes;
mod parser;
mod read;
mod scope;
mod starting;
mod status_table;
mod terminals;
mod turns;

pub use parser::parse;
