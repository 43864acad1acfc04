//! A small file that is written and read, and hostile files that are made from it.

ghost use Rattle.std.specs.Prelude.{◌≡◌, [], ◌∷◌, length, IfOk};
ghost use Rattle.elf_static.specs.Layout.{IsLaidOut};

use elf_static::{ElfError, ElfKind, Entries, EntryRow, Image, Segment, read_elf, write_elf};
use smlc_base::{Label, NoMemory, Point, PointKind, Row};
use std::alloc::Global;
use std::test::Fail;

/// The entries of the small program, with four words of arena.
fn entries(alloc: Global) -> Result<Entries, NoMemory>
    ensures rows { IfOk result (λ e. e.rows
        ≡ record { address = 0x10000; label = record { 0 = 0 }; point = record { node = 3; kind = PointKind.Fn }; roots = 1024 }
        ∷ record { address = 0x10004; label = record { 0 = 1 }; point = record { node = 5; kind = PointKind.Eq }; roots = 7 }
        ∷ []) }
    ensures arena { IfOk result (λ e. (e.arena ≡ 0x14000) × (e.arena_words ≡ 4)) }
{
    let first = EntryRow {
        address: 0x10000,
        label: Label(0),
        point: Point {
            node: 3,
            kind: PointKind::Fn,
        },
        roots: 1 << 10,
    };
    let second = EntryRow {
        address: 0x10004,
        label: Label(1),
        point: Point {
            node: 5,
            kind: PointKind::Eq,
        },
        roots: 7,
    };
    Ok(Entries {
        rows: Row::from_vec(Vec::from_slice(alloc, &[first, second])?),
        factor: 2,
        spill: 1,
        arena: 0x14000,
        arena_words: 4,
    })
}

/// A segment of these bytes alone.
fn full(alloc: Global, address: u64, flags: u32, bytes: &[u8]) -> Result<Segment, NoMemory>
    ensures { IfOk result (λ s. s ≡ record { address = address; flags = flags; bytes = bytes.now; size = length bytes.now }) }
{
    Ok(Segment {
        address,
        flags,
        size: bytes.len() as u64,
        bytes: Row::from_vec(Vec::from_slice(alloc, bytes)?),
    })
}

/// A program of two instructions and six bytes of data.
fn small(alloc: Global) -> Result<Image, NoMemory>
    ensures { IfOk result IsLaidOut }
{
    let mut segments = Row::new(alloc);
    segments.push(full(alloc, 0x10000, 5, &[0x13, 0, 0, 0, 0x73, 0, 0, 0])?)?;
    segments.push(full(alloc, 0x11000, 4, b"hello\n")?)?;
    segments.push(Segment {
        address: 0x12000,
        flags: 6,
        bytes: Row::new(alloc),
        size: 8192 + 8 * 4,
    })?;
    Ok(Image {
        entry: 0x10000,
        segments,
        entries: entries(alloc)?,
        plan: Row::from_vec(Vec::from_slice(alloc, b"factor 2\nspill 1\n")?),
    })
}

/// A place in a file, the width and the value of a number that is written over it there, and the check that then fails, with its offset.
type Case = (u32, u32, u64, ElfKind, u64);

/// The file with a number written over it.
fn changed(
    alloc: Global,
    file: &[u8],
    at: u32,
    width: u32,
    value: u64,
) -> Result<Vec<u8>, NoMemory> {
    let mut bytes = file.to_vec(alloc)?;
    let number = value.to_le_bytes();
    for i in 0..8 {
        let place = at as usize + i;
        if i < width as usize && place < bytes.len() {
            bytes[place] = number[i];
        }
    }
    Ok(bytes)
}

/// The check that a file fails.
fn failed(alloc: Global, file: &[u8]) -> Option<(ElfKind, u64)> {
    match read_elf(alloc, file) {
        Err(ElfError::NotElf(kind, at)) => Some((kind, at)),
        _ => None,
    }
}

/// The length of the small file.
const END: u64 = 12_696;

#[test]
fn is_read_again(rt: HostRuntime) -> Result<(), Fail> {
    let image = small(rt.alloc())?;
    let file = write_elf(rt.alloc(), &image)?;
    assert_eq!(rt; file.len() as u64, END);
    let again = read_elf(rt.alloc(), &file)?;
    assert_eq!(rt; again.entry, 0x10000);
    assert_eq!(rt; again.segments.len(), 3);
    assert_eq!(rt; again.entries.rows.items(), image.entries.rows.items());
    assert_eq!(rt; again.entries.arena, 0x14000);
    assert_eq!(rt; again.plan.items(), b"factor 2\nspill 1\n".as_slice());
    Ok(())
}

#[test]
fn a_file_that_is_cut_is_short(rt: HostRuntime) -> Result<(), Fail> {
    let file = write_elf(rt.alloc(), &small(rt.alloc())?)?;
    for len in [0, 63, 64, 100, 231, 4_103, 8_197, 12_300, 12_695] {
        let cut = file
            .iter()
            .take(len)
            .copied()
            .collect::<Vec<u8>>(rt.alloc())?;
        assert_eq!(rt;
            failed(rt.alloc(), &cut),
            Some((ElfKind::Short, len as u64))
        );
    }
    Ok(())
}

const CASES: [Case; 44] = [
    // the file header
    (0, 1, 0, ElfKind::Ident, 0),
    (6, 1, 2, ElfKind::Ident, 6),
    (16, 2, 3, ElfKind::FileType, 16),
    (16, 4, 3, ElfKind::FileType, 16),
    (18, 2, 62, ElfKind::Machine, 18),
    (20, 4, 2, ElfKind::Version, 20),
    (52, 2, 63, ElfKind::Sizes, 52),
    (54, 2, 57, ElfKind::Sizes, 54),
    (58, 2, 0, ElfKind::Sizes, 58),
    (56, 2, 0, ElfKind::Programs, 56),
    (56, 2, 65, ElfKind::Programs, 56),
    (32, 8, u64::MAX, ElfKind::Short, END),
    (32, 8, END - 167, ElfKind::Short, END),
    // the program headers, of which the second stands at 120 and the third at 176
    (64, 4, 2, ElfKind::Dynamic, 64),
    (120, 4, 3, ElfKind::Dynamic, 120),
    (104, 8, 7, ElfKind::Segment, 104),
    (192, 8, u64::MAX, ElfKind::Segment, 192),
    (192, 8, 1 << 63, ElfKind::Segment, 192),
    (72, 8, u64::MAX, ElfKind::Short, END),
    (136, 8, 0x10000, ElfKind::Overlap, 136),
    (192, 8, 0x10007, ElfKind::Overlap, 192),
    (216, 8, (1 << 31) - 13, ElfKind::TooLarge, 216),
    // the entry
    (24, 8, 0x10002, ElfKind::Entry, 24),
    (24, 8, 0x10008, ElfKind::Entry, 24),
    (24, 8, 0x11000, ElfKind::Entry, 24),
    (68, 4, 6, ElfKind::Entry, 24),
    (64, 4, 4, ElfKind::Entry, 24),
    // the sections, whose headers stand from 12,440 on
    (40, 8, u64::MAX, ElfKind::Short, END),
    (12_528, 8, u64::MAX, ElfKind::Short, END),
    (62, 2, 4, ElfKind::Section, 62),
    (62, 2, 0, ElfKind::Section, 62),
    (12_504, 4, 34, ElfKind::Section, 62),
    // the table of entries, from 12,288 on
    (12_508, 4, 8, ElfKind::Table, 12_288),
    (12_288, 1, 0, ElfKind::Table, 12_288),
    (12_292, 4, 2, ElfKind::Table, 12_288),
    (12_296, 4, 3, ElfKind::Table, 12_288),
    (12_308, 4, 1, ElfKind::Table, 12_288),
    (12_312, 8, 0x14004, ElfKind::Table, 12_288),
    (12_312, 8, 0x11000, ElfKind::Table, 12_288),
    (12_320, 8, 5, ElfKind::Table, 12_288),
    (12_340, 4, 5, ElfKind::Table, 12_288),
    (12_352, 8, 0x10000, ElfKind::Table, 12_288),
    (12_360, 4, 0, ElfKind::Table, 12_288),
    // the plan's section by the name of the table, at 12,376
    (12_568, 4, 1, ElfKind::Table, 12_376),
];

/// Where the first case writes that isn't answered as it should be.
fn first_wrong(alloc: Global, file: &[u8], cases: &[Case]) -> Result<Option<u32>, NoMemory> {
    for &(at, width, value, kind, offset) in cases {
        let hostile = changed(alloc, file, at, width, value)?;
        if failed(alloc, &hostile) != Some((kind, offset)) {
            return Ok(Some(at));
        }
    }
    Ok(None)
}

#[test]
fn the_first_failed_check_is_the_answer(rt: HostRuntime) -> Result<(), Fail> {
    let file = write_elf(rt.alloc(), &small(rt.alloc())?)?;
    assert_eq!(rt; first_wrong(rt.alloc(), &file, &CASES)?, None);
    Ok(())
}

#[test]
fn a_second_table_is_refused(rt: HostRuntime) -> Result<(), Fail> {
    let file = write_elf(rt.alloc(), &small(rt.alloc())?)?;
    // the plan's section gets the name, the offset and the size of the table
    let named = changed(rt.alloc(), &file, 12_568, 4, 1)?;
    let placed = changed(rt.alloc(), &named, 12_592, 8, 12_288)?;
    let twice = changed(rt.alloc(), &placed, 12_600, 8, 88)?;
    assert_eq!(rt; failed(rt.alloc(), &twice), Some((ElfKind::Table, 12_288)));
    Ok(())
}

#[test]
fn a_file_without_sections_is_read(rt: HostRuntime) -> Result<(), Fail> {
    let file = write_elf(rt.alloc(), &small(rt.alloc())?)?;
    let bare = changed(rt.alloc(), &file, 58, 4, 0)?;
    let image = read_elf(rt.alloc(), &bare)?;
    assert!(rt; image.entries.rows.is_empty());
    assert_eq!(rt; image.entries.factor, 1);
    assert!(rt; image.plan.is_empty());
    Ok(())
}

#[test]
fn an_error_is_printed(rt: HostRuntime) -> Result<(), Fail> {
    let text = format!(in rt.alloc(); "{}", ElfError::NotElf(ElfKind::FileType, 16))?;
    assert_eq!(rt; text.as_str(), "not elf Type at 16");
    Ok(())
}
