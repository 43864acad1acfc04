//! What stands in a `Cps` program: its functions with what is free in them, and its variables with the functions in whose bodies they are bound.
//!
//! It stands on `cps_free` and `lifetime_users`, and on what these stand on. Its main contract: `survey_of` answers exactly the functions and the bindings of a program, in the order in which they stand in its tree.
//!
//! The walk has a list of tasks in place of recursion, since bodies nest as deep as a program is long (`walk`). Each variable and each body is one task.
#![tactic(auto)]

pub mod entry;
pub mod tasks;
pub mod walk;

pub use entry::{Binding, Layout};
pub use walk::{Survey, survey_of};
