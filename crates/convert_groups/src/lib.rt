//! What conversion to `Cps` writes of functions that see one another.
//!
//! It stands on `convert_steps` for functions and for what is left to be written, on `convert_unfold`, `convert_pieces`, `convert_decide`, `convert_scopes`, `convert_laws`, `cps_ir`, `lambda_ir`, `sml_tree` and `smlc_base`. Its main contract: `bind_group` writes exactly the group of the definition, with its names in scope in each function and behind it.
#![tactic(auto)]

pub mod functions;
pub mod group;
pub mod named;

pub use group::bind_group;
