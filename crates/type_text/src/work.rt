//! What is left to be shown of a line, as a stack.

ghost use Rattle.std.specs.Prelude.{◌≡◌, [], ◌∷◌, OnOk, IfSome, IfNone};
ghost use Rattle.type_text.specs.Stacks.{task_of};

use crate::level::Level;
use sml_tree::bare::Lab;
use sml_types::{Field, Ty};
use smlc_base::NoMemory;
use std::alloc::Global;
use std::marker::Model;

/// What is to be shown: a type at a level; the further parts of a tuple, the further fields of a record and the further arguments of a type name, each behind what separates it from those before; a label; bytes.
#[derive(Clone, Copy, Drop)]
pub(crate) enum Piece<'a> {
    Type(Ty, Level),
    Tuple(&'a [Field]),
    Record(&'a [Field]),
    Arguments(&'a [Ty]),
    Label(&'a Lab),
    Bytes(&'a [u8]),
}

/// Pieces, the first of which stands on top.
#[derive(Drop)]
pub(crate) struct Work<'a> {
    pieces: Vec<Piece<'a>>,
}

impl<'a> Model for Work<'a> {
    ghost use Rattle.std.specs.Prelude.{List, map, reverse};
    ghost use Rattle.type_text.specs.Tasks.{Task};
    ghost use Rattle.type_text.specs.Stacks.{task_of};

    ghost Value = { List Task };

    ghost view = { λ w. reverse (map task_of w.pieces.items) };
}

impl<'a> Work<'a> {
    /// Nothing is left.
    pub(crate) fn new(alloc: Global) -> Work<'a>
        ensures { result ≡ [] }
    {
        Work {
            pieces: Vec::new(alloc),
        }
    }

    /// Puts a piece on top.
    pub(crate) fn push(&mut self, piece: Piece<'a>) -> Result<(), NoMemory>
        ensures { OnOk result (self.new ≡ task_of piece.entry ∷ self.old) }
    {
        self.pieces.push(piece)?;
        Ok(())
    }

    /// Takes the piece on top.
    pub(crate) fn pop(&mut self) -> Option<Piece<'a>>
        ensures none { IfNone result (self.old ≡ []) }
        ensures some { IfSome result (λ piece. self.old ≡ task_of piece ∷ self.new) }
    {
        self.pieces.pop()
    }
}
