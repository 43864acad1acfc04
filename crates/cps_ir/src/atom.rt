//! Atoms, and what is made of them and asked of values.

use smlc_base::{LibraryExn, Path, Tag};

/// The number of a variable.
pub type Variable = u32;

/// A value that names no block. No function part stands here: primitives and constructors are forms of their own.
#[derive(Clone, Copy)]
pub enum Constant {
    Int(i64),
    Char(u8),
    /// The empty record.
    Nothing,
    /// A constructor without argument, by its number.
    Tag(u32),
    /// A string constant, by its number.
    Text(u32),
    /// An exception name of the library.
    Library(LibraryExn),
    /// The standard input.
    StdIn,
}

/// What needs no evaluation.
#[derive(Clone, Copy)]
pub enum Atom {
    Var(Variable),
    Constant(Constant),
}

/// What kind of block is made of atoms.
#[derive(Clone, Copy)]
pub enum Shape {
    Tuple,
    /// A constructor with its argument, by its number.
    Applied(u32),
    /// What `ref` makes.
    Cell,
    /// A new exception name, by the number of the name at its declaration.
    ExnName(u32),
    /// An exception name and its argument.
    Packet,
}

/// What a test wants of a value.
#[derive(Clone, Copy)]
pub enum Wanted {
    /// This int, or the character of this code.
    Num(i64),
    /// A value of this constructor.
    Tag(Tag),
    /// The string constant of this number.
    Text(u32),
    /// The exception name that the atom has: as that of a packet with an argument where the flag is set, and else as the value itself.
    Exn { name: Atom, applied: bool },
}

/// A test of what stands at the end of a way into a value.
#[derive(Drop)]
pub struct Test {
    pub path: Path,
    pub want: Wanted,
}
