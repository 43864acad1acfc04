//! The tables of type names, type functions and constructors that the type declarations of a program make.
//!
//! It stands on `infer_state`, `infer_parts`, `sml_unify`, `sml_types`, `sml_tree` and `smlc_base`. Its main contract: `declare` answers tables that each typing of the same nodes has, and with which the rules of all type declarations are met; or it refuses, and there is no typing.
#![tactic(auto)]

mod bindings;
pub mod checks;
pub mod declare;
mod group;
pub mod known;
mod meaning;
mod nodes;
mod renew;
mod starts;

pub use checks::check_types;
pub use declare::Prepared;
