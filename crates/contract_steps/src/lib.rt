//! A round of contraction, body by body: what each binding and each end of a body leaves in the bodies of the answer, in the tables, and to be walked.
//!
//! It stands on `contract_binds`, `contract_rules`, `contract_ends`, `contract_group` and `cps_ir`, and on what these stand on. Its main contract: `walk_task` answers exactly what the steps of a body make of the state of a round (`TaskStep`).
#![tactic(auto)]

pub mod binds;
pub mod calls;
pub mod ends;
pub mod matches;
pub mod round;
pub mod task;

pub use round::Round;
pub use task::walk_task;
