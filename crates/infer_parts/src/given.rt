//! Types for variables.

use sml_types::Ty;

/// The type that stands for the variable of a number.
#[derive(Clone, Copy)]
pub struct Given {
    pub num: u32,
    pub ty: Ty,
}
