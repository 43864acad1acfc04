//! Type schemes.

use crate::types::{Ty, TyVar};
use smlc_base::{Name, Row};

/// A type for all types of some variables.
#[derive(Drop)]
pub struct Scheme {
    pub vars: Row<TyVar>,
    pub body: Ty,
}

/// A name with its scheme.
#[derive(Drop)]
pub struct NameScheme {
    pub name: Name,
    pub scheme: Scheme,
}
