//! From the typed tree to `Lambda`.
//!
//! It stands on `lambda_laws` for what the program is and that it keeps the tree's run, on `match_compile` for the tests of matches, on `match_laws`, `lambda_ir`, `prim_meaning`, `sml_sound`, `sml_types`, `sml_def`, `sml_tree`, `simulation` and `smlc_base`. Its main contract: the program of `Lambda` keeps the typed tree's run.
#![tactic(auto)]

pub mod make;
pub mod terms;

pub use make::lambda;
