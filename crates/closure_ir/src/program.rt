//! Programs.

ghost use Rattle.std.specs.Prelude.{◌≡◌};
ghost use Rattle.closure_ir.specs.Kept.{IsProgram};

use crate::body::{Body, Function};
use crate::operand::Variable;
use smlc_base::{Bytes, Point, Row, Site};
use std::marker::Model;

/// A program: its bodies, where body 0 is what is run first, its functions by label, the points of its labels in ascending order, a bound above its
/// variables, and what each pass hands on: the sites of its points, the string constants by number, and the spellings of names. Behind the labels of
/// functions there is one more where a comparison stands in the program. Each body stands in one place, and what is cited stands there and in its range.
#[derive(Drop)]
pub struct Closed {
    pub bodies: Row<Body>,
    pub functions: Row<Function>,
    pub points: Row<Point>,
    pub variables: Variable,
    pub sites: Row<Site>,
    pub texts: Row<Bytes>,
    pub exns: Row<Bytes>,
}

impl Model for Closed {
    ghost use Rattle.closure_ir.specs.Program.{Closed as Program};
    ghost use Rattle.closure_ir.specs.Kept.{IsProgram};

    ghost Value = { Program };

    ghost view = { λ p. record { bodies = p.bodies; functions = p.functions; points = p.points; variables = p.variables; sites = p.sites; texts = p.texts; exns = p.exns } };

    ghost invariant = { λ p. IsProgram (record { bodies = p.bodies; functions = p.functions; points = p.points; variables = p.variables; sites = p.sites; texts = p.texts; exns = p.exns }) };
}

impl Closed {
    /// The bodies, by number.
    pub fn bodies(&self) -> &[Body]
        ensures bodies { result.now ≡ self.now.bodies }
        ensures kept { IsProgram self.now }
    {
        self.bodies.items()
    }

    /// The functions, by label.
    pub fn functions(&self) -> &[Function]
        ensures { result.now ≡ self.now.functions }
    {
        self.functions.items()
    }

    /// The points of the labels.
    pub fn points(&self) -> &[Point]
        ensures { result.now ≡ self.now.points }
    {
        self.points.items()
    }

    /// The number that all variables are below.
    pub fn variables(&self) -> Variable
        ensures { result ≡ self.now.variables }
    {
        self.variables
    }
}
