//! The table of entries in a file.

ghost use Rattle.std.specs.Prelude.{◌≡◌, ◌+◌, ◌*◌, ◌≤◌, length, drop, map, nat_lt, IfOk, IsTrue, ◌↔◌, Some, None, if◌then◌else◌};
ghost use Rattle.std.specs.List.{list_all, list_any};
ghost use Rattle.std.specs.List.Sorted.{IsStrictlyIncreasing};
ghost use Rattle.elf_static.specs.Numbers.{number, table};
ghost use Rattle.elf_static.specs.Table.{kind_of, has_form, has_kinds, kind_number, are_numbered, are_distinct, address_of, has_words, has_arena, is_right, entries_in};

use crate::checks::exceeds;
use crate::headers::{Record, read_table};
use crate::image::{Entries, EntryRow, Segment};
use crate::numbers::{double_at, word_at};
use smlc_base::{Label, NoMemory, Point, PointKind, Row};
use std::alloc::Global;

/// The kind of a point by its number, which is below 5.
fn point_kind(number: u32) -> PointKind
    ensures { result ≡ kind_of number }
{
    match number {
        0 => PointKind::Fn,
        1 => PointKind::Ret,
        2 => PointKind::Caught,
        3 => PointKind::Popped,
        _ => PointKind::Eq,
    }
}

impl Record for EntryRow {
    ghost use Rattle.elf_static.specs.Table.{entry_row};

    ghost meaning = { entry_row };

    ghost width = { 24 };

    fn size() -> usize {
        24
    }

    #[tactic(auto, unfolding(crate::specs::Table::entry_row))]
    fn read(bytes: &[u8]) -> EntryRow {
        EntryRow {
            address: double_at(bytes, 0),
            label: Label(word_at(bytes, 8)),
            point: Point {
                kind: point_kind(word_at(bytes, 12)),
                node: word_at(bytes, 16),
            },
            roots: word_at(bytes, 20),
        }
    }
}

/// Whether the bytes have the form of a table: its name, its version, and as many rows as it says.
fn is_formed(bytes: &[u8]) -> bool
    ensures { result ≡ has_form bytes.now }
{
    bytes.len() >= 40
        && bytes.starts_with(b"SMLE")
        && word_at(bytes, 4) == 1
        && word_at(bytes, 20) == 0
        && bytes.len() == 40 + 24 * word_at(bytes, 8) as usize
}

/// Whether each row's kind of point is below 5.
fn kinds_fit(rows: &[u8], count: usize) -> bool
    requires { 24 * count ≤ length rows.now }
    ensures { result ≡ list_all (λ n. nat_lt n 5) (table kind_number 24 count rows.now) }
{
    let mut rest = rows;
    for _ in 0..count {
        if word_at(rest, 12) >= 5 {
            return false;
        }
        let (_, after) = rest.split_at(24);
        rest = after;
    }
    true
}

/// Whether the labels are 0, 1, 2 and so on.
fn is_numbered(rows: &[EntryRow]) -> bool
    ensures { result ≡ are_numbered 0 rows.now }
{
    for (i, row) in rows.iter().enumerate() {
        if row.label.0 as usize != i {
            return false;
        }
    }
    true
}

/// Whether each number is above the one before.
fn is_increasing(numbers: &[u64]) -> bool
    ensures { IsTrue result ↔ IsStrictlyIncreasing numbers.now }
{
    for i in 1..numbers.len() {
        if numbers[i] <= numbers[i - 1] {
            return false;
        }
    }
    true
}

/// Whether no two rows have one address.
fn is_distinct(alloc: Global, rows: &[EntryRow]) -> Result<bool, NoMemory>
    ensures { IfOk result (λ b. b ≡ are_distinct (map address_of rows.now)) }
{
    let mut addresses: Vec<u64> = rows.iter().map(|r| r.address).collect(alloc)?;
    addresses.sort()?;
    Ok(is_increasing(&addresses))
}

/// Whether so many words from an address on lie in the segment, which may be written.
fn can_hold(at: u64, words: u64, s: &Segment) -> bool
    ensures { result ≡ has_words at words s.now }
{
    s.flags / 2 % 2 == 1
        && s.address <= at
        && words <= s.size / 8
        && at - s.address <= s.size - 8 * words
}

/// Whether so many words from an address on lie in a segment that may be written.
fn can_hold_in_one(at: u64, words: u64, segments: &[Segment]) -> bool
    ensures { result ≡ list_any (has_words at words) segments.now }
{
    segments.iter().any(|s| can_hold(at, words, s))
}

/// Whether the arena is empty, or begins at a multiple of 8 and lies in a segment that may be written.
fn is_arena(segments: &[Segment], entries: &Entries) -> bool
    ensures { result ≡ has_arena segments.now entries.now }
{
    entries.arena_words == 0
        || entries.arena % 8 == 0 && can_hold_in_one(entries.arena, entries.arena_words, segments)
}

/// What a table of the right form means.
#[tactic(auto, unfolding(crate::specs::Table::entries_in))]
fn entries(alloc: Global, bytes: &[u8]) -> Result<Entries, NoMemory>
    requires { 40 + 24 * number 4 8 bytes.now ≤ length bytes.now }
    ensures { IfOk result (λ e. e ≡ entries_in bytes.now) }
{
    let (_, body) = bytes.split_at(40);
    let rows = read_table(alloc, body, word_at(bytes, 8) as usize)?;
    Ok(Entries {
        rows: Row::from_vec(rows),
        factor: word_at(bytes, 12),
        spill: word_at(bytes, 16),
        arena: double_at(bytes, 24),
        arena_words: double_at(bytes, 32),
    })
}

/// What the bytes mean if they are a table that is right.
pub fn right_table(
    alloc: Global,
    segments: &[Segment],
    bytes: &[u8],
) -> Result<Option<Entries>, NoMemory>
    ensures { IfOk result (λ found. found ≡ (if is_right segments.now bytes.now then Some (entries_in bytes.now) else None)) }
{
    if !is_formed(bytes) {
        return Ok(None);
    }
    let (_, body) = bytes.split_at(40);
    if !kinds_fit(body, word_at(bytes, 8) as usize) {
        return Ok(None);
    }
    let entries = entries(alloc, bytes)?;
    let rows = entries.rows.items();
    if is_numbered(rows) && is_distinct(alloc, rows)? && is_arena(segments, &entries) {
        return Ok(Some(entries));
    }
    Ok(None)
}
