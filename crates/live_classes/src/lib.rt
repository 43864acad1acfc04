//! The classes of variables of a `Cps` program that live together: those that are bound in one body and have the same users.
//!
//! It stands on `lifetime_users` for the definition, on `cps_survey` and `variable_users`, and on what these stand on. Its main contract: `classes` answers exactly the classes of a program.
//!
//! Where a variable is bound stands in a table by variable (`homes`). A variable's home and users are a key (`keys`), and variables come into the group of their key in ascending order (`groups`). A group that is large enough is a class where its first variable comes (`classing`). So the time is that of one look-up by key for each variable.
#![tactic(auto)]

pub mod classing;
pub mod groups;
pub mod homes;
pub mod keys;

pub use classing::classes;
