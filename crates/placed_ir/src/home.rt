//! Where values stand, where a body finds words, and what blocks it makes.

use closure_ir::{Shape, Static};
use smlc_base::{Label, Path, Row};

/// Where a value stands through its whole life.
#[derive(Clone, Copy)]
pub enum Home {
    /// A register of values, 0 to 19.
    Register(u32),
    /// A word of the body's spill record, counted from 0 behind the header.
    Spill(u32),
}

/// A word that is there or can be read.
#[derive(Drop)]
pub enum Source {
    /// What stands in a home, or what is found from there along fields, counted from 0 behind the header.
    Along { home: Home, steps: Path },
    /// The block at so many words behind the first of the group that is being made.
    Fresh(u32),
    Static(Static),
    /// The code of a label.
    Code(Label),
    /// An int, a character, a constructor without argument, the empty record or the standard input.
    Literal(i64),
}

/// A block that is made.
#[derive(Drop)]
pub struct Building {
    pub shape: Shape,
    pub fields: Row<Source>,
}
