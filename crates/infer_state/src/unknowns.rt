//! Types with what their variables are bound to.

use sml_types::Types;
use sml_unify::Subst;

/// The types that were made so far, what their variables are bound to, and a number above those of all variables.
#[derive(Drop)]
pub struct Unknowns {
    pub types: Types,
    pub subst: Subst,
    pub next: u32,
}
