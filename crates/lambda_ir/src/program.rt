//! Programs.

ghost use Rattle.std.specs.Prelude.{◌≡◌};
ghost use Rattle.lambda_ir.specs.Kept.{IsProgram};

use crate::term::Term;
use smlc_base::{Bytes, Row, Site};
use std::marker::Model;

/// A program: its terms, where term 0 is the whole, and what each pass hands on: the sites of its points, the string constants by number, and the
/// spellings of names. It is numbered and closed, each name is bound once, and what its terms cite stands there and in its range.
#[derive(Drop)]
pub struct Lambda {
    pub terms: Row<Term>,
    pub sites: Row<Site>,
    pub texts: Row<Bytes>,
    pub exns: Row<Bytes>,
}

impl Model for Lambda {
    ghost use Rattle.lambda_ir.specs.Program.{Lambda as Program};
    ghost use Rattle.lambda_ir.specs.Kept.{IsProgram};

    ghost Value = { Program };

    ghost view = { λ l. record { terms = l.terms; sites = l.sites; texts = l.texts; exns = l.exns } };

    ghost invariant = { λ l. IsProgram (record { terms = l.terms; sites = l.sites; texts = l.texts; exns = l.exns }) };
}

impl Lambda {
    /// The terms, by number.
    pub fn terms(&self) -> &[Term]
        ensures terms { result.now ≡ self.now.terms }
        ensures kept { IsProgram self.now }
    {
        self.terms.items()
    }

    /// The points with their places and source words, in ascending order.
    pub fn sites(&self) -> &[Site]
        ensures { result.now ≡ self.now.sites }
    {
        self.sites.items()
    }
}
