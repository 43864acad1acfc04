//! The labels of the functions of a `Cps` program, and the users of its variables: the labels of the functions in whose free variables they are.
//!
//! It stands on `lifetime_users` for the definitions, on `cps_survey` for the functions of a program, and on what these stand on. Its main contract: `users_of_variables` answers for each variable, by number, exactly its users in ascending order.
//!
//! Labels are places among the sorted ranks of points (`labels`). Each function puts its label into the sets of its free variables (`users`, over `sets`), so the time is that of one insertion for each free variable of a function.
#![tactic(auto)]

pub mod labels;
pub mod sets;
pub mod users;

pub use labels::{label, ranks};
pub use users::users_of_variables;
