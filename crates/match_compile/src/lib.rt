//! The tests of a match.
//!
//! It stands on `match_laws` for what they are and that they choose the first rule that fits, on `lambda_ir`, `prim_meaning`, `sml_sound`, `sml_types`, `sml_def`, `sml_tree`, `simulation` and `smlc_base`. Its main contract: the tests of a match choose the first rule whose pattern fits, for each value of the match's type.
#![tactic(auto)]

pub mod compile;
pub mod constructors;
pub mod matches;

pub use compile::compile_pattern;
pub use matches::compile_match;
