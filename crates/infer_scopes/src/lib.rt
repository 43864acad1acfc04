//! The contexts that the nodes of a bare tree stand in, made from the root down.
//!
//! It stands on `infer_state`, `sml_types`, `sml_tree` and `smlc_base`. Its main contract: `Scopes::enter` gives each part of a node the context that it stands in, and changes no other.
#![tactic(auto)]

pub mod bound;
pub mod chains;
pub mod prefix;
pub mod scope;
pub mod scopes;

pub use bound::pattern_names;
pub use prefix::is_prefix;
pub use scopes::Scopes;
