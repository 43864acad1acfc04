//! Patterns, heads of clauses, and names of functions and recursive bindings.
//!
//! It stands on `expand_types`, `sml_expansion`, `sml_prelude`, `sml_tree` and `smlc_base`. Its main contract: `whole` expands the pattern of a rule, with the variables that it binds.
#![tactic(auto)]

pub mod clauses;
mod closing;
pub mod force;
mod forms;
pub mod heads;
pub mod identifiers;
pub mod patterns;
pub mod recursive;

pub use clauses::binds_functions;
pub use force::put_in_force;
pub use heads::{arguments, arguments_in, first_clause, head, name_of, whole_arguments};
pub use patterns::whole;
pub use recursive::rec_names;
