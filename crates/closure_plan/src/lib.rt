//! The plan of a `Cps` program: what its closures have, against what the source has.
//!
//! It stands on the crates that find closed functions, values, classes, layouts, labels, rows and the factor, and on what these stand on. Its main contract: `make_plan` answers exactly the definition's plan of a slim program.
#![tactic(auto)]

pub mod known;
pub mod whole;

pub use known::{Known, found};
pub use whole::{make_plan, plan_of};
