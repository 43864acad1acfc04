//! What every part of the compiler speaks of: lists, texts by number, places, points, primitives, the library's exceptions, tests of matches, refusals and want of memory.
//!
//! It stands on the standard library, `indexmap` and `smallvec` alone. Its main contract: `Names::add` answers the one place of a text in a list without doubles.
#![tactic(auto)]

pub mod exception;
pub mod match_tests;
pub mod memory;
pub mod names;
pub mod path;
pub mod place;
pub mod point;
pub mod primitive;
pub mod refusal;
pub mod row;

pub use exception::LibraryExn;
pub use match_tests::{Named, RuleTests, Tag, Test, Tests, Want};
pub use memory::NoMemory;
pub use names::{Name, Names};
pub use path::Path;
pub use place::Place;
pub use point::{Label, Point, PointKind, Site};
pub use primitive::Primitive;
pub use refusal::{Banned, CompileError, Refusal};
pub use row::Row;

/// Bytes, seen as a list.
pub type Bytes = Row<u8>;
