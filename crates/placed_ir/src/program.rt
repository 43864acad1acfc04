//! Programs.

ghost use Rattle.std.specs.Prelude.{◌≡◌};
ghost use Rattle.placed_ir.specs.Kept.{IsProgram};

use crate::body::{Body, Function};
use smlc_base::{Bytes, Point, Row, Site};
use std::marker::Model;

/// A program: its bodies, where body 0 is what is run first, the words of the spill record of what is run first, its functions by label, the points of
/// its labels in ascending order, what each pass hands on, as the sites of its points, the string constants by number and the spellings of names, and the
/// greatest number of words of spill records that one path through one body makes. Behind the labels of functions there is one more where a comparison
/// stands in the program. Each body stands in one place, registers are among the 20, and what is cited stands there and in its range.
#[derive(Drop)]
pub struct Placed {
    pub bodies: Row<Body>,
    pub frame: u32,
    pub functions: Row<Function>,
    pub points: Row<Point>,
    pub sites: Row<Site>,
    pub texts: Row<Bytes>,
    pub exns: Row<Bytes>,
    pub spill: u32,
}

impl Model for Placed {
    ghost use Rattle.placed_ir.specs.Program.{Placed as Program};
    ghost use Rattle.placed_ir.specs.Kept.{IsProgram};

    ghost Value = { Program };

    ghost view = { λ p. record { bodies = p.bodies; frame = p.frame; functions = p.functions; points = p.points; sites = p.sites; texts = p.texts; exns = p.exns; spill = p.spill } };

    ghost invariant = { λ p. IsProgram (record { bodies = p.bodies; frame = p.frame; functions = p.functions; points = p.points; sites = p.sites; texts = p.texts; exns = p.exns; spill = p.spill }) };
}

impl Placed {
    /// The bodies, by number.
    pub fn bodies(&self) -> &[Body]
        ensures bodies { result.now ≡ self.now.bodies }
        ensures kept { IsProgram self.now }
    {
        self.bodies.items()
    }

    /// The words of the spill record that body 0 makes first.
    pub fn frame(&self) -> u32
        ensures { result ≡ self.now.frame }
    {
        self.frame
    }

    /// The functions, by label.
    pub fn functions(&self) -> &[Function]
        ensures { result.now ≡ self.now.functions }
    {
        self.functions.items()
    }

    /// The points of the labels.
    pub fn points(&self) -> &[Point]
        ensures { result.now ≡ self.now.points }
    {
        self.points.items()
    }

    /// The points with their places and source words, in ascending order.
    pub fn sites(&self) -> &[Site]
        ensures { result.now ≡ self.now.sites }
    {
        self.sites.items()
    }

    /// The string constants, by number.
    pub fn texts(&self) -> &[Bytes]
        ensures { result.now ≡ self.now.texts }
    {
        self.texts.items()
    }

    /// The spellings of names.
    pub fn exns(&self) -> &[Bytes]
        ensures { result.now ≡ self.now.exns }
    {
        self.exns.items()
    }

    /// The greatest number of words of spill records, with their headers, that one path through one body makes.
    pub fn spill(&self) -> u32
        ensures { result ≡ self.now.spill }
    {
        self.spill
    }
}
