//! The program headers, and the segments that they name.

ghost use Rattle.std.specs.Prelude.{◌≡◌, ◌+◌, ◌*◌, ◌≤◌, ◌<◌, ◌^◌, ◌∷◌, [], ◌++◌, length, sum_by, nat_lt, OnOk, IfOk, IfErr};
ghost use Rattle.std.specs.List.{flat_map, list_any};
ghost use Rattle.elf_static.specs.Checks.{Passes};
ghost use Rattle.elf_static.specs.Load.{size_of};
ghost use Rattle.elf_static.specs.Programs.{overlaps, load_checks, program_check, program_checks, program_headers, loaded, segments_of, segment_of, is_executable_at, entry_check};

use crate::checks::{Check, exceeds, pass};
use crate::error::{ElfError, ElfKind};
use crate::headers::{FileHeader, ProgramHeader, read_table};
use crate::image::Segment;
use smlc_base::Row;
use std::alloc::Global;

/// Whether the header's memory and the segment have an address in common.
fn is_overlap(p: &ProgramHeader, s: &Segment) -> bool
    ensures { result ≡ overlaps p.now s.now }
{
    0 < p.memory_size
        && 0 < s.size
        && exceeds(s.address, s.size, p.address)
        && exceeds(p.address, p.memory_size, s.address)
}

/// Whether the header's memory has an address in common with one of the segments.
fn overlaps_one(p: &ProgramHeader, segments: &[Segment]) -> bool
    ensures { result ≡ list_any (overlaps p.now) segments.now }
{
    segments.iter().any(|s| is_overlap(p, s))
}

/// How many bytes the segments take together.
fn total(segments: &[Segment]) -> u64
    requires { sum_by size_of segments.now ≤ 2 ^ 31 }
    ensures { result ≡ sum_by size_of segments.now }
{
    segments.iter().map(|s| s.size).sum()
}

/// The checks of a header of type 1 at an offset of the file.
fn checks_of_load(bytes: &[u8], at: u64, earlier: &[Segment], p: &ProgramHeader) -> [Check; 5]
    requires at { at + 40 < 2 ^ 64 }
    requires earlier { sum_by size_of earlier.now ≤ 2 ^ 31 }
    ensures { result ≡ load_checks bytes.now at earlier.now p.now }
{
    let size = bytes.len() as u64;
    [
        Check {
            fails: p.memory_size < p.file_size,
            kind: ElfKind::Segment,
            at: at + 40,
        },
        Check {
            fails: exceeds(p.address, p.memory_size, 1 << 63),
            kind: ElfKind::Segment,
            at: at + 16,
        },
        Check {
            fails: exceeds(p.offset, p.file_size, size),
            kind: ElfKind::Short,
            at: size,
        },
        Check {
            fails: overlaps_one(p, earlier),
            kind: ElfKind::Overlap,
            at: at + 16,
        },
        Check {
            fails: exceeds(total(earlier), p.memory_size, 1 << 31),
            kind: ElfKind::TooLarge,
            at: at + 40,
        },
    ]
}

/// The segment that a header of type 1 names.
fn segment(alloc: Global, bytes: &[u8], p: &ProgramHeader) -> Result<Segment, ElfError>
    requires { p.now.offset + p.now.file_size ≤ length bytes.now }
    ensures ok { IfOk result (λ s. s ≡ segment_of bytes.now p.now) }
    ensures err { IfErr result (λ e. e ≡ ElfError.NoMemory) }
{
    let start = p.offset as usize;
    let end = start + p.file_size as usize;
    Ok(Segment {
        address: p.address,
        flags: p.flags,
        bytes: Row::from_vec(Vec::from_slice(alloc, &bytes[start..end])?),
        size: p.memory_size,
    })
}

/// Checks the header at an offset of the file, and puts the segment last that it names.
fn add_segment(
    alloc: Global,
    bytes: &[u8],
    at: u64,
    p: &ProgramHeader,
    segments: &mut Vec<Segment>,
) -> Result<(), ElfError>
    requires at { at + 40 < 2 ^ 64 }
    requires room { sum_by size_of segments.old.items ≤ 2 ^ 31 }
    ensures passes { Passes result (program_check bytes.now at segments.old.items p.now) }
    ensures segments { OnOk result (segments.new.items ≡ segments.old.items ++ loaded bytes.now p.now) }
    ensures room { OnOk result (sum_by size_of segments.new.items ≤ 2 ^ 31) }
{
    if p.kind == 2 || p.kind == 3 {
        return Err(ElfError::NotElf(ElfKind::Dynamic, at));
    }
    if p.kind == 1 {
        pass(&checks_of_load(bytes, at, segments.as_slice(), p))?;
        segments.push(segment(alloc, bytes, p)?)?;
    }
    Ok(())
}

/// Checks the headers, of which the first stands at an offset of the file, and answers the segments that they name.
fn segments_from(
    alloc: Global,
    bytes: &[u8],
    at: u64,
    headers: &[ProgramHeader],
) -> Result<Vec<Segment>, ElfError>
    requires { at + 56 * length headers.now ≤ length bytes.now }
    ensures passes { Passes result (program_checks bytes.now at [] headers.now) }
    ensures segments { IfOk result (λ v. v.items ≡ flat_map (loaded bytes.now) headers.now) }
{
    let mut segments = Vec::new(alloc);
    let mut place = at;
    for p in headers {
        add_segment(alloc, bytes, place, p, &mut segments)?;
        place += 56;
    }
    Ok(segments)
}

/// The segments that the program headers name, if they pass their checks.
pub fn read_segments(
    alloc: Global,
    bytes: &[u8],
    header: &FileHeader,
) -> Result<Vec<Segment>, ElfError>
    requires { header.now.programs_at + 56 * header.now.programs ≤ length bytes.now }
    ensures passes { Passes result (program_checks bytes.now header.now.programs_at [] (program_headers bytes.now header.now)) }
    ensures segments { IfOk result (λ v. v.items ≡ segments_of bytes.now header.now) }
{
    let at = header.programs_at;
    let (_, table) = bytes.split_at(at as usize);
    let programs: Vec<ProgramHeader> = read_table(alloc, table, header.programs as usize)?;
    segments_from(alloc, bytes, at, &programs)
}

/// Whether the address is one of the segment, which may be executed.
fn can_execute(address: u64, s: &Segment) -> bool
    ensures { result ≡ is_executable_at address s.now }
{
    s.flags % 2 == 1 && s.address <= address && exceeds(s.address, s.size, address)
}

/// Whether the address is one of a segment that may be executed.
fn can_execute_in_one(address: u64, segments: &[Segment]) -> bool
    ensures { result ≡ list_any (is_executable_at address) segments.now }
{
    segments.iter().any(|s| can_execute(address, s))
}

/// Checks that the entry is a multiple of 4 in a segment that may be executed.
pub fn check_entry(entry: u64, segments: &[Segment]) -> Result<(), ElfError>
    ensures { Passes result (entry_check entry segments.now ∷ []) }
{
    pass(&[Check {
        fails: !(entry % 4 == 0 && can_execute_in_one(entry, segments)),
        kind: ElfKind::Entry,
        at: 24,
    }])
}
