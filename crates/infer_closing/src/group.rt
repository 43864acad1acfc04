//! Names that are generalised together.

use sml_types::TyVar;
use smlc_base::Row;

/// The names of a binding, and its right side, if it has one.
#[derive(Drop)]
pub struct Together {
    pub right: Option<u32>,
    pub names: Row<u32>,
}

/// The names of a binding with the variables that they may generalise.
#[derive(Drop)]
pub struct Group {
    pub of: Together,
    pub vars: Row<TyVar>,
}
