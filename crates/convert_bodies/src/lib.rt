//! The bodies that conversion to `Cps` writes, by number.
//!
//! It stands on `convert_terms` for terms, on `convert_steps` for all other work, on `convert_decide`, `convert_laws`, `cps_ir`, `lambda_ir` and `smlc_base`, and on what these stand on. Its main contract: `write_bodies` writes, for each task from the first on, the body whose tree is what the definition makes of the task, and the bodies that stand in it have the next numbers.
//!
//! A body is written from its beginning to its end before the next is begun: bodies that come to stand in it wait as tasks, in the order of their numbers.
#![tactic(auto)]

pub mod bodies;
pub mod body;
pub mod turn;

pub use bodies::write_bodies;
