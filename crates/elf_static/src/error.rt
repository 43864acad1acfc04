//! Why bytes are no ELF file that can be loaded.

ghost use Rattle.std.specs.Prelude.{◌≡◌};
ghost use Rattle.elf_static.specs.Kinds.{word_of};

use smlc_base::NoMemory;
use std::alloc::{AllocError, AllocFailed};
use std::fmt;
use thiserror::Error;

/// The check that a file failed.
#[derive(Clone, Copy, PartialEq, Eq, Debug)]
pub enum ElfKind {
    /// Bytes that the file names pass its end.
    Short,
    /// The file doesn't begin as a little-endian ELF64 file.
    Ident,
    /// `e_type` isn't that of an executable file. It is printed as `Type`.
    FileType,
    /// `e_machine` isn't RISC-V.
    Machine,
    /// `e_version` isn't 1.
    Version,
    /// A header has another size than in ELF64.
    Sizes,
    /// There are no program headers, or more than 64.
    Programs,
    /// The file is linked dynamically.
    Dynamic,
    /// A segment has more bytes than its size, or passes 2^63.
    Segment,
    /// Two segments have an address in common.
    Overlap,
    /// The segments are together larger than 2^31 bytes.
    TooLarge,
    /// The entry isn't a multiple of 4 in an executable segment.
    Entry,
    /// There is no name table, or a section's name has no end in it.
    Section,
    /// The table of entries isn't right, or stands twice.
    Table,
}

impl ElfKind {
    /// The word that is printed for it.
    pub fn word(&self) -> &'static str
        ensures { result.now ≡ word_of self.now }
    {
        match self {
            ElfKind::Short => "Short",
            ElfKind::Ident => "Ident",
            ElfKind::FileType => "Type",
            ElfKind::Machine => "Machine",
            ElfKind::Version => "Version",
            ElfKind::Sizes => "Sizes",
            ElfKind::Programs => "Programs",
            ElfKind::Dynamic => "Dynamic",
            ElfKind::Segment => "Segment",
            ElfKind::Overlap => "Overlap",
            ElfKind::TooLarge => "TooLarge",
            ElfKind::Entry => "Entry",
            ElfKind::Section => "Section",
            ElfKind::Table => "Table",
        }
    }
}

impl fmt::Display for ElfKind {
    fn fmt<W: fmt::Write>(&self, f: &mut fmt::Formatter<W>) -> fmt::Result {
        write!(f, "{}", self.word())
    }
}

/// Why a file was not read: the first check that failed, with the offset in the file of what failed it.
#[derive(Clone, Copy, PartialEq, Eq, Debug, Drop, Error)]
pub enum ElfError {
    #[error("not elf {0} at {1}")]
    NotElf(ElfKind, u64),
    #[error("want of memory")]
    NoMemory,
}

impl From<NoMemory> for ElfError {
    ghost use Rattle.std.specs.Prelude.{◌≡◌};
    ghost use Rattle.elf_static.specs.declared.error.ElfError.TheVariants as variant;

    ghost from_gives = { λ _ e. e ≡ variant.NoMemory };

    fn from(_e: NoMemory) -> ElfError {
        ElfError::NoMemory
    }
}

impl From<AllocError> for ElfError {
    ghost use Rattle.std.specs.Prelude.{◌≡◌};
    ghost use Rattle.elf_static.specs.declared.error.ElfError.TheVariants as variant;

    ghost from_gives = { λ _ e. e ≡ variant.NoMemory };

    fn from(_e: AllocError) -> ElfError {
        ElfError::NoMemory
    }
}

impl<T: Drop> From<AllocFailed<T>> for ElfError {
    ghost use Rattle.std.specs.Prelude.{◌≡◌};
    ghost use Rattle.elf_static.specs.declared.error.ElfError.TheVariants as variant;

    ghost from_gives = { λ _ e. e ≡ variant.NoMemory };

    fn from(_e: AllocFailed<T>) -> ElfError {
        ElfError::NoMemory
    }
}
