//! The section headers, and the sections that have a meaning here.

ghost use Rattle.std.specs.Prelude.{◌≡◌, ◌==◌, ◌∷◌, [], false, length, drop, filter, nat_lt, nat_eq, ℕ, IfOk};
ghost use Rattle.std.specs.List.{list_all, list_any, starts_with};
ghost use Rattle.elf_static.specs.Checks.{Passes};
ghost use Rattle.elf_static.specs.Sections.{section_headers, section_bytes, passes_end, names_of, has_name, is_named, section_checks, table_check, right_checks, table_checks, entries_of, first_bytes, tables_of, plan_of};
ghost use Rattle.elf_static.specs.Table.{entries_in};

use crate::checks::{Check, exceeds, pass};
use crate::error::{ElfError, ElfKind};
use crate::headers::{FileHeader, SectionHeader, read_table};
use crate::image::{Entries, Segment};
use crate::table::right_table;
use smlc_base::{NoMemory, Row};
use std::alloc::Global;

/// Whether the section has bytes that pass the file's end.
fn is_past_end(bytes: &[u8], s: &SectionHeader) -> bool
    ensures { result ≡ passes_end bytes.now s.now }
{
    s.kind != 0 && s.kind != 8 && exceeds(s.offset, s.size, bytes.len() as u64)
}

/// Whether one of the sections has bytes that pass the file's end.
fn one_is_past_end(bytes: &[u8], sections: &[SectionHeader]) -> bool
    ensures { result ≡ list_any (passes_end bytes.now) sections.now }
{
    sections.iter().any(|s| is_past_end(bytes, s))
}

/// The bytes of a section.
fn bytes_of<'a>(bytes: &'a [u8], s: &SectionHeader) -> &'a [u8]
    requires { passes_end bytes.now s.now ≡ false }
    ensures { result.now ≡ section_bytes bytes.now s.now }
{
    if s.kind == 0 || s.kind == 8 {
        return &[];
    }
    let (_, rest) = bytes.split_at(s.offset as usize);
    let (front, _) = rest.split_at(s.size as usize);
    front
}

/// The bytes of the name table.
fn name_table<'a>(bytes: &'a [u8], header: &FileHeader, sections: &[SectionHeader]) -> &'a [u8]
    requires { list_any (passes_end bytes.now) sections.now ≡ false }
    ensures { result.now ≡ names_of bytes.now header.now sections.now }
{
    match sections.get(header.names as usize) {
        Some(s) => bytes_of(bytes, s),
        None => &[],
    }
}

/// Where the last name ends: behind the last 0.
fn names_end(names: &[u8]) -> usize
    ensures { (k : ℕ) → list_any (λ b. b == 0) (drop k names.now) ≡ nat_lt k result }
{
    let mut end = names.len();
    while end > 0 && names[end - 1] != 0 {
        end -= 1;
    }
    end
}

/// Whether each section's name has an end in the name table.
fn all_have_names(names: &[u8], sections: &[SectionHeader]) -> bool
    ensures { result ≡ list_all (has_name names.now) sections.now }
{
    let end = names_end(names);
    sections.iter().all(|s| (s.name as usize) < end)
}

/// Whether the section has this name, which is given with its 0.
fn has_this_name(names: &[u8], name: &[u8], s: &SectionHeader) -> bool
    ensures { result ≡ starts_with nat_eq (drop s.now.name names.now) name.now }
{
    let at = names.len().min(s.name as usize);
    names[at..].starts_with(name)
}

/// The sections of this name, which is given with its 0.
fn named(
    alloc: Global,
    names: &[u8],
    name: &[u8],
    sections: &[SectionHeader],
) -> Result<Vec<SectionHeader>, NoMemory>
    ensures { IfOk result (λ v. v.items ≡ filter (λ s. starts_with nat_eq (drop s.name names.now) name.now) sections.now) }
{
    let mut found = Vec::new(alloc);
    for s in sections {
        if has_this_name(names, name, s) {
            found.push(*s)?;
        }
    }
    Ok(found)
}

/// The section headers, if they, the sections' bytes and the sections' names pass their checks.
pub fn read_sections(
    alloc: Global,
    bytes: &[u8],
    header: &FileHeader,
) -> Result<Vec<SectionHeader>, ElfError>
    ensures passes { Passes result (section_checks bytes.now header.now (section_headers bytes.now header.now)) }
    ensures sections { IfOk result (λ v. v.items ≡ section_headers bytes.now header.now) }
    ensures in_file { IfOk result (λ v. list_any (passes_end bytes.now) v.items ≡ false) }
{
    let size = bytes.len() as u64;
    if header.sections == 0 {
        return Ok(Vec::new(alloc));
    }
    if exceeds(header.sections_at, 64 * header.sections as u64, size) {
        return Err(ElfError::NotElf(ElfKind::Short, size));
    }
    let (_, table) = bytes.split_at(header.sections_at as usize);
    let sections = read_table(alloc, table, header.sections as usize)?;
    if one_is_past_end(bytes, &sections) {
        return Err(ElfError::NotElf(ElfKind::Short, size));
    }
    let names = name_table(bytes, header, &sections);
    if header.names >= header.sections || !all_have_names(names, &sections) {
        return Err(ElfError::NotElf(ElfKind::Section, 62));
    }
    Ok(sections)
}

/// What a section means that is a table of entries.
fn table_of(
    alloc: Global,
    bytes: &[u8],
    segments: &[Segment],
    s: &SectionHeader,
) -> Result<Entries, ElfError>
    requires { passes_end bytes.now s.now ≡ false }
    ensures passes { Passes result (table_check bytes.now segments.now s.now ∷ []) }
    ensures entries { IfOk result (λ e. e ≡ entries_in (section_bytes bytes.now s.now)) }
{
    match right_table(alloc, segments, bytes_of(bytes, s))? {
        Some(entries) => Ok(entries),
        None => Err(ElfError::NotElf(ElfKind::Table, s.offset)),
    }
}

/// Checks that each of these sections is a table of entries that is right.
fn check_tables(
    alloc: Global,
    bytes: &[u8],
    segments: &[Segment],
    tables: &[SectionHeader],
) -> Result<(), ElfError>
    requires { list_any (passes_end bytes.now) tables.now ≡ false }
    ensures { Passes result (right_checks bytes.now segments.now tables.now) }
{
    for s in tables {
        let _ = table_of(alloc, bytes, segments, s)?;
    }
    Ok(())
}

/// What the first table means, if it and the others are right, and there are no others.
fn read_tables(
    alloc: Global,
    bytes: &[u8],
    segments: &[Segment],
    first: &SectionHeader,
    others: &[SectionHeader],
) -> Result<Entries, ElfError>
    requires first { passes_end bytes.now first.now ≡ false }
    requires others { list_any (passes_end bytes.now) others.now ≡ false }
    ensures passes { Passes result (table_checks bytes.now segments.now (first.now ∷ others.now)) }
    ensures entries { IfOk result (λ e. e ≡ entries_in (section_bytes bytes.now first.now)) }
{
    let entries = table_of(alloc, bytes, segments, first)?;
    check_tables(alloc, bytes, segments, others)?;
    match others {
        [] => Ok(entries),
        [second, ..] => Err(ElfError::NotElf(ElfKind::Table, second.offset)),
    }
}

/// The entries, if each of these sections is a table of entries that is right, and there is no second.
fn entries_from(
    alloc: Global,
    bytes: &[u8],
    segments: &[Segment],
    tables: &[SectionHeader],
) -> Result<Entries, ElfError>
    requires { list_any (passes_end bytes.now) tables.now ≡ false }
    ensures passes { Passes result (table_checks bytes.now segments.now tables.now) }
    ensures entries { IfOk result (λ e. e ≡ entries_of bytes.now tables.now) }
{
    match tables {
        [] => Ok(Entries::none(alloc)),
        [first, others @ ..] => read_tables(alloc, bytes, segments, first, others),
    }
}

/// The entries of the file, if its tables of entries pass their checks.
pub fn read_entries(
    alloc: Global,
    bytes: &[u8],
    header: &FileHeader,
    sections: &[SectionHeader],
    segments: &[Segment],
) -> Result<Entries, ElfError>
    requires sections { sections.now ≡ section_headers bytes.now header.now }
    requires in_file { list_any (passes_end bytes.now) sections.now ≡ false }
    ensures passes { Passes result (table_checks bytes.now segments.now (tables_of bytes.now header.now)) }
    ensures entries { IfOk result (λ e. e ≡ entries_of bytes.now (tables_of bytes.now header.now)) }
{
    let names = name_table(bytes, header, sections);
    let tables = named(alloc, names, b".sml.entries\0", sections)?;
    entries_from(alloc, bytes, segments, &tables)
}

/// The bytes of the first of the sections, or none.
fn first_of(alloc: Global, bytes: &[u8], sections: &[SectionHeader]) -> Result<Row<u8>, NoMemory>
    requires { list_any (passes_end bytes.now) sections.now ≡ false }
    ensures { IfOk result (λ b. b ≡ first_bytes bytes.now sections.now) }
{
    match sections {
        [] => Ok(Row::new(alloc)),
        [first, ..] => Ok(Row::from_vec(Vec::from_slice(alloc, bytes_of(bytes, first))?)),
    }
}

/// The plan of the file.
pub fn read_plan(
    alloc: Global,
    bytes: &[u8],
    header: &FileHeader,
    sections: &[SectionHeader],
) -> Result<Row<u8>, NoMemory>
    requires sections { sections.now ≡ section_headers bytes.now header.now }
    requires in_file { list_any (passes_end bytes.now) sections.now ≡ false }
    ensures { IfOk result (λ plan. plan ≡ plan_of bytes.now header.now) }
{
    let names = name_table(bytes, header, sections);
    let plans = named(alloc, names, b".sml.plan\0", sections)?;
    first_of(alloc, bytes, &plans)
}
