//! The headers of an ELF64 file.

ghost use Rattle.std.specs.Prelude.{◌≡◌, ◌≤◌, ◌*◌, length, IfOk};
ghost use Rattle.elf_static.specs.Headers.{file_header, program_header, section_header};
ghost use Rattle.elf_static.specs.Numbers.{table};

use crate::numbers::{double_at, half_at, word_at};
use smlc_base::NoMemory;
use std::alloc::Global;

/// What a file header (`Elf64_Ehdr`) has behind its identification.
#[derive(Clone, Copy, PartialEq, Eq, Debug)]
pub struct FileHeader {
    /// `e_type`
    pub file_type: u16,
    /// `e_machine`
    pub machine: u16,
    /// `e_version`
    pub version: u32,
    /// `e_entry`
    pub entry: u64,
    /// `e_phoff`
    pub programs_at: u64,
    /// `e_shoff`
    pub sections_at: u64,
    /// `e_ehsize`
    pub header_size: u16,
    /// `e_phentsize`
    pub program_size: u16,
    /// `e_phnum`
    pub programs: u16,
    /// `e_shentsize`
    pub section_size: u16,
    /// `e_shnum`
    pub sections: u16,
    /// `e_shstrndx`
    pub names: u16,
}

/// A program header (`Elf64_Phdr`).
#[derive(Clone, Copy, PartialEq, Eq, Debug)]
pub struct ProgramHeader {
    /// `p_type`
    pub kind: u32,
    /// `p_flags`
    pub flags: u32,
    /// `p_offset`
    pub offset: u64,
    /// `p_vaddr`
    pub address: u64,
    /// `p_filesz`
    pub file_size: u64,
    /// `p_memsz`
    pub memory_size: u64,
}

/// A section header (`Elf64_Shdr`).
#[derive(Clone, Copy, PartialEq, Eq, Debug)]
pub struct SectionHeader {
    /// `sh_name`
    pub name: u32,
    /// `sh_type`
    pub kind: u32,
    /// `sh_offset`
    pub offset: u64,
    /// `sh_size`
    pub size: u64,
}

impl FileHeader {
    /// The header at the front of the bytes.
    #[tactic(auto, unfolding(crate::specs::Headers::file_header))]
    pub fn read(bytes: &[u8]) -> FileHeader
        requires { 64 ≤ length bytes.now }
        ensures { result ≡ file_header bytes.now }
    {
        FileHeader {
            file_type: half_at(bytes, 16),
            machine: half_at(bytes, 18),
            version: word_at(bytes, 20),
            entry: double_at(bytes, 24),
            programs_at: double_at(bytes, 32),
            sections_at: double_at(bytes, 40),
            header_size: half_at(bytes, 52),
            program_size: half_at(bytes, 54),
            programs: half_at(bytes, 56),
            section_size: half_at(bytes, 58),
            sections: half_at(bytes, 60),
            names: half_at(bytes, 62),
        }
    }
}

/// What stands in a table of the file, in so many bytes.
pub trait Record: Drop {
    ghost use Rattle.std.specs.Prelude.{◌≡◌, ◌≤◌, ◌<◌, List, ℕ, length};

    /// What bytes mean that begin with it.
    ghost meaning: { List ℕ → Self };

    /// How many bytes it takes.
    ghost width: { ℕ };

    /// How many bytes it takes.
    fn size() -> usize
        ensures { result ≡ width };

    /// What stands at the front of the bytes.
    fn read(bytes: &[u8]) -> Self
        requires { width ≤ length bytes.now }
        ensures { result ≡ meaning bytes.now };
}

impl Record for ProgramHeader {
    ghost use Rattle.elf_static.specs.Headers.{program_header};

    ghost meaning = { program_header };

    ghost width = { 56 };

    fn size() -> usize {
        56
    }

    #[tactic(auto, unfolding(crate::specs::Headers::program_header))]
    fn read(bytes: &[u8]) -> ProgramHeader {
        ProgramHeader {
            kind: word_at(bytes, 0),
            flags: word_at(bytes, 4),
            offset: double_at(bytes, 8),
            address: double_at(bytes, 16),
            file_size: double_at(bytes, 32),
            memory_size: double_at(bytes, 40),
        }
    }
}

impl Record for SectionHeader {
    ghost use Rattle.elf_static.specs.Headers.{section_header};

    ghost meaning = { section_header };

    ghost width = { 64 };

    fn size() -> usize {
        64
    }

    #[tactic(auto, unfolding(crate::specs::Headers::section_header))]
    fn read(bytes: &[u8]) -> SectionHeader {
        SectionHeader {
            name: word_at(bytes, 0),
            kind: word_at(bytes, 4),
            offset: double_at(bytes, 24),
            size: double_at(bytes, 32),
        }
    }
}

/// The table of `count` records at the front of the bytes.
pub fn read_table<R: Record>(alloc: Global, bytes: &[u8], count: usize) -> Result<Vec<R>, NoMemory>
    requires { R.width * count ≤ length bytes.now }
    ensures { IfOk result (λ v. v.items ≡ table R.meaning R.width count bytes.now) }
{
    let mut records = Vec::new(alloc);
    let mut rest = bytes;
    for _ in 0..count {
        records.push(R::read(rest))?;
        let (_, after) = rest.split_at(R::size());
        rest = after;
    }
    Ok(records)
}
