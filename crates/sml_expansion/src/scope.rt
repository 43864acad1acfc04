//! What is in scope.

ghost use Rattle.std.specs.Prelude.{◌≡◌, []};

use crate::meaning::{Meaning, TypeMeaning};
use crate::scoped::Scoped;
use smlc_base::Place;
use std::alloc::Global;

/// An identifier: the number of its text among the names of the program, whether it is a long one of the user's files, and the place of its token, behind an `op`.
#[derive(Clone, Copy, PartialEq, Eq, Debug)]
pub struct Ident {
    pub key: u32,
    pub long: bool,
    pub place: Place,
}

/// A variable that is bound: its identifier and the number of its binding.
#[derive(Clone, Copy, PartialEq, Eq, Debug)]
pub struct Bound {
    pub ident: Ident,
    pub name: u32,
}

/// What is bound, the latest first: values, types, and type variables with their numbers.
#[derive(Drop)]
pub struct Bindings {
    pub values: Scoped<Meaning>,
    pub types: Scoped<TypeMeaning>,
    pub tyvars: Scoped<u32>,
}

impl Bindings {
    /// Nothing is bound.
    pub fn new(alloc: Global) -> Bindings
        ensures { result ≡ record { values = []; types = []; tyvars = [] } }
    {
        Bindings {
            values: Scoped::new(alloc),
            types: Scoped::new(alloc),
            tyvars: Scoped::new(alloc),
        }
    }
}
