//! The free variables of the bodies of a `Cps` program, for all bodies at once.
//!
//! It stands on `cps_ir`, `sml_tree` and `smlc_base`. Its main contract: `free_variables` answers for each body, by number, exactly its free variables in ascending order.
//!
//! Bodies are met from the last to the first, so that those that stand in a body are done before it. In a body what is bound goes out of an ordered set and what is used comes in, from its end up. So the time is that of one insertion for each use and for each free variable of a body.
#![tactic(auto)]

mod binds;
pub mod frees;
mod set;

pub use frees::{free_variables, row};
