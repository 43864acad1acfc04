//! The pass `close`, from `Cps` to `Closed`, with the plan of what closures have.
//!
//! It stands on `closure_plan` for what is found of a program and for its plan, on `close_decisions`, `close_all` and `close_labels` for the closed program, on `close_kept` for what this keeps, and on what these stand on. Its main contract: `close` answers want of memory, or a program whose tree is exactly what the definition makes of its argument's, and exactly the definition's plan, where the argument is slim.
#![tactic(auto)]

pub mod copies;
pub mod nodes;
pub mod pass;
pub mod program;

pub use pass::{ClosedPlan, close};
