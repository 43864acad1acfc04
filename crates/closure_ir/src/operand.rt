//! Where a body finds words, and what blocks it makes.

use smlc_base::{Label, LibraryExn, Path};

/// The number of a variable.
pub type Variable = u32;

/// A block that stands in the image, and not in the arena.
#[derive(Clone, Copy)]
pub enum Static {
    /// A closed function.
    Function(Label),
    /// A string constant, by its number.
    Text(u32),
    /// An exception name of the library.
    Library(LibraryExn),
}

/// A word that is there or can be read.
#[derive(Drop)]
pub enum Operand {
    /// What a variable holds, or what is found from there along fields, counted from 0 behind the header.
    Path { var: Variable, steps: Path },
    /// The block of this number in the group that is being made.
    New(u32),
    Static(Static),
    /// The code of a label.
    Code(Label),
    /// An int, a character, a constructor without argument, the empty record or the standard input.
    Literal(i64),
}

/// What kind of block is made of words.
#[derive(Clone, Copy)]
pub enum Shape {
    Tuple,
    /// A constructor with its argument, by its number.
    Applied(u32),
    /// What `ref` makes.
    Cell,
    /// A new exception name, by the number of the name at its declaration.
    ExnName(u32),
    /// An exception name and its argument.
    Packet,
    /// The variables of a class, by the number of the class.
    ClassRecord(u32),
    /// A closure of a label.
    Closure(Label),
}
