//! From the parse tree to the bare tree: expressions, matches, declarations and programs.
//!
//! It stands on `expand_patterns`, `expand_types`, `expansion_laws`, `sml_expansion`, `sml_prelude`, `sml_tree` and `smlc_base`. Its main contract: `bare` answers exactly the bare tree that a parse tree expands to, or the least rule of bindings that is broken, or that the program is too wide.
//!
//! `expressions` goes down expressions and matches, `declarations` down sequences of declarations, with `value_declarations`, `bindings` and `function_declarations` for the single ones, all in one cycle of calls. `top_trees` does the top level, `outline` finds its declarations among the finished nodes, and `program` makes the whole. `forms`, `pairs`, `functions` and `identifiers` write what phrases share, and `parts` calls the crates below.
#![tactic(auto)]

mod bindings;
mod declarations;
mod expressions;
mod forms;
mod function_declarations;
mod functions;
mod identifiers;
mod number;
mod outline;
mod pairs;
mod parts;
mod program;
mod top_trees;
mod value_declarations;

pub use program::bare;
