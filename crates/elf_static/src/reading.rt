//! Reading an ELF file.

ghost use Rattle.std.specs.Prelude.{◌≡◌, ◌≢◌, ◌+◌, ◌*◌, ◌≤◌, ◌<◌, ◌∷◌, length, IfOk, IfErr, Ok, Err};
ghost use Rattle.elf_static.specs.Checks.{Passes};
ghost use Rattle.elf_static.specs.Headers.{file_header};
ghost use Rattle.elf_static.specs.Load.{IsLoadable};
ghost use Rattle.elf_static.specs.Table.{IsRightTable};
ghost use Rattle.elf_static.specs.Reading.{ident_check, size_check, header_checks, later_checks, checks_under, image_under, meaning_of};

use crate::checks::{Check, exceeds, pass};
use crate::error::{ElfError, ElfKind};
use crate::headers::FileHeader;
use crate::image::Image;
use crate::programs::{check_entry, read_segments};
use crate::sections::{read_entries, read_plan, read_sections};
use smlc_base::Row;
use std::alloc::Global;

/// A check that a byte of the identification is what it is in a little-endian ELF64 file of version 1.
fn check_of_ident(bytes: &[u8], at: usize, byte: u8) -> Check
    requires { at < length bytes.now }
    ensures { result ≡ ident_check bytes.now at byte }
{
    Check {
        fails: bytes[at] != byte,
        kind: ElfKind::Ident,
        at: at as u64,
    }
}

/// The checks of the file header, and that the program headers lie in the file.
fn checks_of_header(bytes: &[u8], header: &FileHeader) -> [Check; 15]
    requires { 64 ≤ length bytes.now }
    ensures { result ≡ header_checks bytes.now header.now }
{
    let size = bytes.len() as u64;
    let check = |fails: bool, kind: ElfKind, at: u64| Check { fails, kind, at };
    [
        check_of_ident(bytes, 0, 0x7F),
        check_of_ident(bytes, 1, b'E'),
        check_of_ident(bytes, 2, b'L'),
        check_of_ident(bytes, 3, b'F'),
        check_of_ident(bytes, 4, 2),
        check_of_ident(bytes, 5, 1),
        check_of_ident(bytes, 6, 1),
        check(header.file_type != 2, ElfKind::FileType, 16),
        check(header.machine != 243, ElfKind::Machine, 18),
        check(header.version != 1, ElfKind::Version, 20),
        check(header.header_size != 64, ElfKind::Sizes, 52),
        check(header.program_size != 56, ElfKind::Sizes, 54),
        check(
            header.sections != 0 && header.section_size != 64,
            ElfKind::Sizes,
            58,
        ),
        check(
            header.programs == 0 || header.programs > 64,
            ElfKind::Programs,
            56,
        ),
        check(
            exceeds(header.programs_at, 56 * header.programs as u64, size),
            ElfKind::Short,
            size,
        ),
    ]
}

/// The file header, if it passes its checks. The program headers then lie in the file.
fn read_header(bytes: &[u8]) -> Result<FileHeader, ElfError>
    ensures passes { Passes result (size_check bytes.now ∷ header_checks bytes.now (file_header bytes.now)) }
    ensures header { IfOk result (λ h. h ≡ file_header bytes.now) }
    ensures room { IfOk result (λ h. h.programs_at + 56 * h.programs ≤ length bytes.now) }
{
    if bytes.len() < 64 {
        return Err(ElfError::NotElf(ElfKind::Short, bytes.len() as u64));
    }
    let header = FileHeader::read(bytes);
    pass(&checks_of_header(bytes, &header))?;
    Ok(header)
}

/// Reads what stands behind the file header, if each check there passes.
#[tactic(auto, unfolding(crate::specs::Reading::image_under))]
fn read_under(alloc: Global, bytes: &[u8], header: &FileHeader) -> Result<Image, ElfError>
    requires { header.now.programs_at + 56 * header.now.programs ≤ length bytes.now }
    ensures passes { Passes result (later_checks bytes.now header.now) }
    ensures image { IfOk result (λ image. image ≡ image_under bytes.now header.now) }
{
    let segments = read_segments(alloc, bytes, header)?;
    check_entry(header.entry, &segments)?;
    let sections = read_sections(alloc, bytes, header)?;
    let entries = read_entries(alloc, bytes, header, &sections, &segments)?;
    let plan = read_plan(alloc, bytes, header, &sections)?;
    Ok(Image {
        entry: header.entry,
        segments: Row::from_vec(segments),
        entries,
        plan,
    })
}

/// Reads a file, if each check passes.
fn read_image(alloc: Global, bytes: &[u8]) -> Result<Image, ElfError>
    ensures passes { Passes result (checks_under bytes.now (file_header bytes.now)) }
    ensures image { IfOk result (λ image. image ≡ image_under bytes.now (file_header bytes.now)) }
{
    let header = read_header(bytes)?;
    read_under(alloc, bytes, &header)
}

/// Reads a static RV64 ELF file.
///
/// # Errors
///
/// `NotElf` is the first check that fails, with the offset in the file of the field that it is about, or for `Short` the file's length.
#[tactic(auto, unfolding(crate::specs::Reading::meaning_of))]
pub fn read_elf(alloc: Global, bytes: &[u8]) -> Result<Image, ElfError>
    ensures ok { IfOk result (λ image. meaning_of bytes.now ≡ Ok image) }
    ensures loadable { IfOk result IsLoadable }
    ensures table { IfOk result (λ image. IsRightTable image.segments image.entries) }
    ensures not_elf { IfErr result (λ e. e ≢ ElfError.NoMemory → meaning_of bytes.now ≡ Err e) }
{
    read_image(alloc, bytes)
}
