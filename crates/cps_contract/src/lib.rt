//! Contraction of a `Cps` program: rounds, each a census and one walk over all bodies, as long as the program gets smaller.
//!
//! It stands on `contract_steps`, `contract_holds`, `contract_kept` and `contract_census`, and on what these stand on. Its main contract: the tree of what `contract` answers is what contraction makes of the tree of its argument (`contracted`).
#![tactic(auto)]

pub mod nodes;
pub mod pass;
pub mod walk;

pub use pass::{contract, round};
pub use walk::walk_all;
