//! Tests of a value, by which a rule of a match is chosen.

use crate::exception::LibraryExn;
use crate::names::Name;
use crate::path::Path;
use crate::row::Row;

/// A constructor of a datatype, with what tells it from the others of its type: a value of a constructor without argument is a scalar, and any
/// other a block that has the constructor's number in its header.
#[derive(Clone, Copy, PartialEq, Eq, Debug)]
pub struct Tag {
    /// Its number in written order.
    pub number: u32,
    /// Whether it takes an argument.
    pub takes: bool,
    /// Whether another constructor of the type takes an argument.
    pub other_takes: bool,
    /// Whether another constructor of the type takes none.
    pub other_bare: bool,
}

/// What a test wants of a value.
#[derive(Clone, Copy, PartialEq, Eq, Debug)]
pub enum Want {
    /// This int, or the character of this code.
    Num(i64),
    /// A value of this constructor.
    Tag(Tag),
    /// The string constant of this number.
    Text(u32),
    /// The exception name that a name has at the match: as that of a packet with an argument where the flag is set, and else as the value itself.
    Exn { name: Name, applied: bool },
    /// The same for an exception of the library.
    Library { exn: LibraryExn, applied: bool },
}

/// A test of what stands at the end of a way into a value.
#[derive(Debug, Drop)]
pub struct Test {
    pub path: Path,
    pub want: Want,
}

/// A name for what stands at the end of a way into a value.
#[derive(Debug, Drop)]
pub struct Named {
    pub name: Name,
    pub path: Path,
}

/// A rule of a match: it is chosen where all tests hold, and binds its names.
#[derive(Debug, Drop)]
pub struct RuleTests {
    pub tests: Row<Test>,
    pub names: Row<Named>,
}

/// The rules of a match in order. The first that can be is chosen.
pub type Tests = Row<RuleTests>;
