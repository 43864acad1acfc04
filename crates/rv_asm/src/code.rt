//! The bytes of a program.

use smlc_base::{Bytes, Row};

/// A program laid out at an address.
#[derive(Debug, Drop)]
pub struct Code {
    /// The instructions in order, four bytes each, the lowest byte first.
    pub bytes: Bytes,
    /// The address of each label.
    pub at: Row<u64>,
}
