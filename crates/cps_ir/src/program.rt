//! Programs.

ghost use Rattle.std.specs.Prelude.{◌≡◌};
ghost use Rattle.cps_ir.specs.Kept.{IsProgram};

use crate::atom::Variable;
use crate::body::Body;
use smlc_base::{Bytes, Row, Site};
use std::marker::Model;

/// A program: its bodies, where body 0 is the whole, a bound above its variables, and what each pass hands on: the sites of its points, the string
/// constants by number, and the spellings of names. The bodies make one tree without free variables, in which each variable is bound once and below
/// the bound, and what they cite stands there and in its range.
#[derive(Drop)]
pub struct Cps {
    pub bodies: Row<Body>,
    pub variables: Variable,
    pub sites: Row<Site>,
    pub texts: Row<Bytes>,
    pub exns: Row<Bytes>,
}

impl Model for Cps {
    ghost use Rattle.cps_ir.specs.Program.{Cps as Program};
    ghost use Rattle.cps_ir.specs.Kept.{IsProgram};

    ghost Value = { Program };

    ghost view = { λ q. record { bodies = q.bodies; variables = q.variables; sites = q.sites; texts = q.texts; exns = q.exns } };

    ghost invariant = { λ q. IsProgram (record { bodies = q.bodies; variables = q.variables; sites = q.sites; texts = q.texts; exns = q.exns }) };
}

impl Cps {
    /// The bodies, by number.
    pub fn bodies(&self) -> &[Body]
        ensures bodies { result.now ≡ self.now.bodies }
        ensures kept { IsProgram self.now }
    {
        self.bodies.items()
    }

    /// The number that all variables are below.
    pub fn variables(&self) -> Variable
        ensures { result ≡ self.now.variables }
    {
        self.variables
    }

    /// The points with their places and source words, in ascending order.
    pub fn sites(&self) -> &[Site]
        ensures { result.now ≡ self.now.sites }
    {
        self.sites.items()
    }

    /// The string constants, by number.
    pub fn texts(&self) -> &[Bytes]
        ensures { result.now ≡ self.now.texts }
    {
        self.texts.items()
    }
}
