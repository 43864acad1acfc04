//! Tests of the meaning of programs, in a crate of their own: a crate with tests is proved twice, and what is below isn't proved again here.
//!
//! It stands on `sml_def`, `sml_tree` and `smlc_base`, and has no contract.
#![tactic(auto)]

#[cfg(test)]
mod points;
