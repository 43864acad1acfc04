//! What a round of contraction does with functions that are bound together: names that are replaced, bodies that are put where they are called, and functions that stay, each with a new body.
//!
//! It stands on `contract_roles`, `contract_known`, `contract_rows` and `cps_ir`, and on what these stand on. Its main contract: `replace_all`, `place_all` and `stay_all` enter exactly what becomes of each function, in order (`group_places`, `group_placed`, `group_kept`).
#![tactic(auto)]

pub mod bodies;
pub mod group;
pub mod task;

pub use bodies::{number, put_bind, put_empty, put_end};
pub use group::{place_all, replace_all, stay_all};
pub use task::{Placed, Task};
