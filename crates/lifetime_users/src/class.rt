//! Classes.

use smlc_base::{Label, Row};

/// Variables that are bound in one body and that the same functions hold, both in ascending order.
#[derive(Drop)]
pub struct Class {
    pub vars: Row<u32>,
    /// The labels of the functions in whose free variables they are.
    pub users: Row<Label>,
}

/// The classes of a program, in the order of their least variables.
#[derive(Drop)]
pub struct ClassRows {
    pub of: Row<Class>,
}
