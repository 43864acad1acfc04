//! What becomes of functions that are bound together, in a round of contraction.
//!
//! It stands on `contract_census`, `contract_round` and `cps_ir`, and on what these stand on. Its main contract: `roles` answers for each function exactly what the round's definition makes of it: whether it goes, stays, is replaced by what it calls, or is put where it is called.
#![tactic(auto)]

pub mod group;
pub mod target;

pub use group::{Role, roles};
pub use target::eta;
