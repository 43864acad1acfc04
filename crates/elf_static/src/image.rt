//! An image of a program: where it begins, its memory, the table of its entries and its plan.

ghost use Rattle.std.specs.Prelude.{◌≡◌};
ghost use Rattle.elf_static.specs.Table.{no_entries};

use smlc_base::{Bytes, Label, Point, Row};
use std::alloc::Global;

/// A piece of memory of `size` bytes from `address` on. Behind its bytes it is 0.
/// The flags are those of ELF: 4 to read, 2 to write and 1 to execute.
#[derive(Debug, Drop)]
pub struct Segment {
    pub address: u64,
    pub flags: u32,
    pub bytes: Bytes,
    pub size: u64,
}

/// An entry of the emitted code: its address, its label, its point in the program, and which registers hold
/// values there: bit i of `roots` stands for register xi.
#[derive(Clone, Copy, PartialEq, Eq, Debug)]
pub struct EntryRow {
    pub address: u64,
    pub label: Label,
    pub point: Point,
    pub roots: u32,
}

/// The entries in the order of their labels, the space factor, the number of spills, and the heap:
/// `arena_words` words of eight bytes from the address `arena` on.
#[derive(Debug, Drop)]
pub struct Entries {
    pub rows: Row<EntryRow>,
    pub factor: u32,
    pub spill: u32,
    pub arena: u64,
    pub arena_words: u64,
}

/// A program: its first address, its memory, its entries, and its plan as a text.
#[derive(Debug, Drop)]
pub struct Image {
    pub entry: u64,
    pub segments: Row<Segment>,
    pub entries: Entries,
    pub plan: Bytes,
}

impl Entries {
    /// No entries and no heap.
    pub fn none(alloc: Global) -> Entries
        ensures { result ≡ no_entries }
    {
        Entries {
            rows: Row::new(alloc),
            factor: 1,
            spill: 0,
            arena: 0,
            arena_words: 0,
        }
    }
}
