//! The rule of a node is made to hold by unification.
//!
//! It stands on `infer_state`, `infer_parts`, `sml_unify`, `sml_types`, `sml_tree` and `smlc_base`. Its main contract: after Ok of `ask` the later solutions are the earlier ones that meet the rule of the node, and after `Untypable` there is no such solution.
#![tactic(auto)]

mod annotated;
mod constructor;
mod dispatch;
mod equal;
mod exception;
mod instance;
mod make;
mod matches;
mod open;
mod primitive;
mod records;
pub mod rule;
mod simple;
mod values;
mod vars;

pub use rule::ask;
