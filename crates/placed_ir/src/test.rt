//! What a rule of a match asks of a value.

use crate::home::Source;
use smlc_base::{Path, Tag};

/// What a test wants of a value.
#[derive(Drop)]
pub enum Wanted {
    /// This int, or the character of this code.
    Num(i64),
    /// A value of this constructor.
    Tag(Tag),
    /// The string constant of this number.
    Text(u32),
    /// The exception name that the source has: as that of a packet with an argument where the flag is set, and else as the value itself.
    Exn { name: Source, applied: bool },
}

/// A test of what stands at the end of a way into a value.
#[derive(Drop)]
pub struct Test {
    pub path: Path,
    pub want: Wanted,
}
