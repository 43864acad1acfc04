//! The tables of type names.

use crate::types::{Ty, TyVar};
use smlc_base::{Bytes, Row};

/// How a type name admits equality (The Definition of Standard ML (Revised), section 4.4): never, whatever its arguments are, or where all its arguments do.
#[derive(Clone, Copy, Drop)]
pub enum Equality {
    Never,
    Always,
    Parts,
}

/// A constructor of a datatype or of `ref`, with the type of its argument.
#[derive(Drop)]
pub struct ConRow {
    pub text: Bytes,
    pub arg: Option<Ty>,
}

/// A type name: its spelling, its parameters, how it admits equality, and its constructors in written order.
#[derive(Drop)]
pub struct TypeName {
    pub text: Bytes,
    pub params: Row<TyVar>,
    pub eq: Equality,
    pub cons: Row<ConRow>,
}

/// The type names of a program: item i is the type name of number i.
#[derive(Drop)]
pub struct Tables {
    pub names: Row<TypeName>,
}
