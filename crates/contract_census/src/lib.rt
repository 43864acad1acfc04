//! The census of a `Cps` program: how often each variable is used, and how functions are called.
//!
//! It stands on `cps_ir`, on `contract_laws` and `contract_round` for what contraction asks of a program, on `cps_free`, `sml_tree`, `simulation` and `smlc_base`. Its main contract: `census` answers for each variable exactly whether its uses are none, one or more behind the place where it is bound, and for a function besides its uses outside its own body and its calls in the body that binds it (`IsCensus`).
//!
//! Bodies are met by a list of tasks, so that nothing recurses by the depth of a program, and each use once.
#![tactic(auto)]

pub mod counts;
pub mod program;
mod steps;
pub mod task;

pub use counts::{Count, Event, Home, Times};
pub use program::{census, count_of};
pub use task::Task;
