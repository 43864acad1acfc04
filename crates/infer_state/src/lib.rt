//! What type inference knows while it goes, and what it asks of each node.
//!
//! It stands on `infer_parts`, `sml_unify`, `sml_types`, `sml_tree` and `smlc_base`. It has no main contract: its definitions say what a step of inference owes, and which rule of a node a substitution has to meet.
#![tactic(auto)]

pub mod declared;
pub mod failure;
pub mod settled;
pub mod unknowns;

pub use declared::{Declared, Starts};
pub use failure::Failure;
pub use settled::Settled;
pub use unknowns::Unknowns;
