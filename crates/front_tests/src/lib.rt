//! Tests of the front end, in a crate of their own: a crate with tests is proved twice, and what is below isn't proved again here.
//!
//! It stands on `sml_fixity`, `sml_lexer`, `sml_expansion`, `sml_prelude`, `sml_tree` and `smlc_base`, and has no contract.
#![tactic(auto)]

#[cfg(test)]
mod expansion;
#[cfg(test)]
mod fixity;
#[cfg(test)]
mod lexer;
#[cfg(test)]
mod prelude;
