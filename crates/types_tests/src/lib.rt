//! Tests of types, of their text, of unification and of what inference stands on, in a crate of their own: a crate with tests is proved twice, and what is below isn't proved again here.
//!
//! It stands on `type_text`, `infer_parts`, `sml_unify`, `sml_types`, `sml_tree` and `smlc_base`, and has no contract.
#![tactic(auto)]

#[cfg(test)]
mod parts;
#[cfg(test)]
mod text;
#[cfg(test)]
mod types;
#[cfg(test)]
mod unification;
