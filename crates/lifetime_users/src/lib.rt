//! Which variables of a `Cps` program live together: the classes of variables that are bound in one body and held by the same functions.
//!
//! It stands on `cps_ir`, `sml_tree` and `smlc_base`. It has no contract: `specs/Users.antt` defines users and classes, and here are the types of classes.
#![tactic(auto)]

pub mod class;

pub use class::{Class, ClassRows};
