//! Static RV64 ELF files: written, and read with an exact reason for each file that can't be read.
//!
//! It stands on `smlc_base`, `byteorder` and `thiserror`. Its main contract: `read_elf` answers the image that a file's bytes mean, or the first check
//! that fails with its offset, and what `write_elf` wrote is read as the same image.
#![tactic(auto)]

mod checks;
mod error;
mod fields;
mod headers;
mod image;
mod numbers;
mod programs;
mod reading;
mod sections;
mod table;
mod writing;

pub use error::{ElfError, ElfKind};
pub use image::{Entries, EntryRow, Image, Segment};
pub use reading::read_elf;
pub use writing::write_elf;
