//! Writing an ELF file.

ghost use Rattle.std.specs.Prelude.{◌≡◌, ◌+◌, ◌<◌, ◌^◌, ◌++◌, All, length, OnOk, IfOk, Ok};
ghost use Rattle.std.specs.List.{flat_map};
ghost use Rattle.elf_static.specs.Layout.{IsLaidOut};
ghost use Rattle.elf_static.specs.Reading.{meaning_of};
ghost use Rattle.elf_static.specs.Writing.{file_fields, program_fields, program_bytes, program_table, section_fields, section_bytes, number_of_kind, row_fields, row_bytes, table_fields, table_bytes, segment_bytes, names, entries_at, plan_at, names_at, sections_at, section_table, headers, written, FieldsFit, RowFits, EntriesFit, ProgramsFit, SectionFits, SectionsFit, HeadersFit, NumbersFit};

use crate::fields::{Field, padded_len, put_fields, put_padded};
use crate::image::{Entries, EntryRow, Image, Segment};
use smlc_base::{NoMemory, PointKind};
use std::alloc::Global;

/// The bytes of the name table.
const NAMES: &[u8; 34] = b"\0.sml.entries\0.sml.plan\0.shstrtab\0";

/// The fields of the file header behind its identification.
fn fields_of_file(sections_at: u64) -> [Field; 13]
    ensures { result ≡ file_fields sections_at }
{
    [
        Field::Half(2),
        Field::Half(243),
        Field::Word(1),
        Field::Double(0x10000),
        Field::Double(64),
        Field::Double(sections_at),
        Field::Word(0),
        Field::Half(64),
        Field::Half(56),
        Field::Half(3),
        Field::Half(64),
        Field::Half(4),
        Field::Half(3),
    ]
}

/// The fields of the program header of a segment whose bytes begin at an offset.
fn fields_of_program(offset: u64, s: &Segment) -> [Field; 8]
    ensures { result ≡ program_fields offset s.now }
{
    [
        Field::Word(1),
        Field::Word(s.flags),
        Field::Double(offset),
        Field::Double(s.address),
        Field::Double(s.address),
        Field::Double(s.bytes.len() as u64),
        Field::Double(s.size),
        Field::Double(4096),
    ]
}

/// The fields of a section header.
fn fields_of_section(name: u32, kind: u32, offset: u64, size: u64) -> [Field; 10]
    ensures { result ≡ section_fields name kind offset size }
{
    [
        Field::Word(name),
        Field::Word(kind),
        Field::Double(0),
        Field::Double(0),
        Field::Double(offset),
        Field::Double(size),
        Field::Word(0),
        Field::Word(0),
        Field::Double(0),
        Field::Double(0),
    ]
}

/// The number of a kind of point.
fn kind_number(kind: PointKind) -> u32
    ensures { result ≡ number_of_kind kind }
{
    match kind {
        PointKind::Fn => 0,
        PointKind::Ret => 1,
        PointKind::Caught => 2,
        PointKind::Popped => 3,
        PointKind::Eq => 4,
    }
}

/// The fields of a row.
fn fields_of_row(r: &EntryRow) -> [Field; 5]
    ensures { result ≡ row_fields r.now }
{
    [
        Field::Double(r.address),
        Field::Word(r.label.0),
        Field::Word(kind_number(r.point.kind)),
        Field::Word(r.point.node),
        Field::Word(r.roots),
    ]
}

/// Puts the row last.
#[tactic(auto, unfolding(crate::specs::Writing::row_bytes))]
fn put_row(out: &mut Vec<u8>, r: &EntryRow) -> Result<(), NoMemory>
    ensures bytes { OnOk result (out.new.items ≡ out.old.items ++ row_bytes r.now) }
    ensures fits { OnOk result (RowFits r.now) }
{
    put_fields(out, &fields_of_row(r))
}

/// Puts the rows last.
fn put_rows(out: &mut Vec<u8>, rows: &[EntryRow]) -> Result<(), NoMemory>
    ensures bytes { OnOk result (out.new.items ≡ out.old.items ++ flat_map row_bytes rows.now) }
    ensures fit { OnOk result (All RowFits rows.now) }
{
    for row in rows {
        put_row(out, row)?;
    }
    Ok(())
}

/// The fields of a table of entries between its name and its rows.
fn fields_of_table(e: &Entries) -> [Field; 7]
    requires { length e.now.rows < 2 ^ 32 }
    ensures { result ≡ table_fields e.now }
{
    [
        Field::Word(1),
        Field::Word(e.rows.len() as u32),
        Field::Word(e.factor),
        Field::Word(e.spill),
        Field::Word(0),
        Field::Double(e.arena),
        Field::Double(e.arena_words),
    ]
}

/// Puts the table of entries last.
#[tactic(auto, unfolding(crate::specs::Writing::table_bytes))]
fn put_table(out: &mut Vec<u8>, e: &Entries) -> Result<(), NoMemory>
    requires { length e.now.rows < 2 ^ 32 }
    ensures bytes { OnOk result (out.new.items ≡ out.old.items ++ table_bytes e.now) }
    ensures fit { OnOk result (EntriesFit e.now) }
{
    out.extend_from_slice(b"SMLE")?;
    put_fields(out, &fields_of_table(e))?;
    put_rows(out, e.rows.items())?;
    Ok(())
}

/// How many bytes the segments take in the file.
fn segments_len(segments: &[Segment]) -> u64
    requires { length (segment_bytes segments.now) < 2 ^ 40 }
    ensures { result ≡ length (segment_bytes segments.now) }
{
    let mut len = 0;
    for s in segments {
        len += padded_len(s.bytes.items(), 4096) as u64;
    }
    len
}

/// Puts the program header of a segment last whose bytes begin at an offset.
#[tactic(auto, unfolding(crate::specs::Writing::program_bytes))]
fn put_program(out: &mut Vec<u8>, offset: u64, s: &Segment) -> Result<(), NoMemory>
    ensures bytes { OnOk result (out.new.items ≡ out.old.items ++ program_bytes offset s.now) }
    ensures fits { OnOk result (FieldsFit (program_fields offset s.now)) }
{
    put_fields(out, &fields_of_program(offset, s))
}

/// Puts the program headers last.
fn put_programs(out: &mut Vec<u8>, segments: &[Segment]) -> Result<(), NoMemory>
    requires { length (segment_bytes segments.now) < 2 ^ 40 }
    ensures bytes { OnOk result (out.new.items ≡ out.old.items ++ program_table 4096 segments.now) }
    ensures fit { OnOk result (ProgramsFit 4096 segments.now) }
{
    let mut offset = 4096;
    for s in segments {
        put_program(out, offset, s)?;
        offset += padded_len(s.bytes.items(), 4096) as u64;
    }
    Ok(())
}

/// Puts the segments' bytes last.
fn put_segments(out: &mut Vec<u8>, segments: &[Segment]) -> Result<(), NoMemory>
    ensures { OnOk result (out.new.items ≡ out.old.items ++ segment_bytes segments.now) }
{
    for s in segments {
        put_padded(out, s.bytes.items(), 4096)?;
    }
    Ok(())
}

/// Where the sections and their headers begin.
#[derive(Clone, Copy)]
struct Places {
    entries: u64,
    plan: u64,
    names: u64,
    sections: u64,
}

/// Where the sections and their headers begin.
fn section_places(image: &Image) -> Places
    requires segments { length (segment_bytes image.now.segments) < 2 ^ 40 }
    requires rows { length image.now.entries.rows < 2 ^ 32 }
    ensures entries { result.entries ≡ entries_at image.now }
    ensures plan { result.plan ≡ plan_at image.now }
    ensures names { result.names ≡ names_at image.now }
    ensures sections { result.sections ≡ sections_at image.now }
{
    let entries = 4096 + segments_len(image.segments.items());
    let plan = entries + table_len(&image.entries);
    let names = plan + padded_len(image.plan.items(), 8) as u64;
    let sections = names + padded_len(NAMES, 8) as u64;
    Places {
        entries,
        plan,
        names,
        sections,
    }
}

/// How many bytes the table of entries takes.
fn table_len(e: &Entries) -> u64
    requires { length e.now.rows < 2 ^ 32 }
    ensures { result ≡ length (table_bytes e.now) }
{
    40 + 24 * e.rows.len() as u64
}

/// The file header and the program headers.
#[tactic(auto, unfolding(crate::specs::Writing::headers))]
fn headers(alloc: Global, image: &Image, sections: u64) -> Result<Vec<u8>, NoMemory>
    requires segments { length (segment_bytes image.now.segments) < 2 ^ 40 }
    requires sections { sections ≡ sections_at image.now }
    ensures bytes { IfOk result (λ v. v.items ≡ headers image.now) }
    ensures fit { OnOk result (HeadersFit image.now) }
{
    let mut out = Vec::new(alloc);
    out.extend_from_slice(&[0x7F, b'E', b'L', b'F', 2, 1, 1, 0, 0, 0, 0, 0, 0, 0, 0, 0])?;
    put_fields(&mut out, &fields_of_file(sections))?;
    put_programs(&mut out, image.segments.items())?;
    Ok(out)
}

/// Puts a section header last.
#[tactic(auto, unfolding(crate::specs::Writing::section_bytes))]
fn put_section(
    out: &mut Vec<u8>,
    name: u32,
    kind: u32,
    offset: u64,
    size: u64,
) -> Result<(), NoMemory>
    ensures bytes { OnOk result (out.new.items ≡ out.old.items ++ section_bytes name kind offset size) }
    ensures fits { OnOk result (SectionFits name kind offset size) }
{
    put_fields(out, &fields_of_section(name, kind, offset, size))
}

/// Puts the section headers last.
fn put_sections(out: &mut Vec<u8>, image: &Image, places: &Places) -> Result<(), NoMemory>
    requires rows { length image.now.entries.rows < 2 ^ 32 }
    requires entries { places.now.entries ≡ entries_at image.now }
    requires plan { places.now.plan ≡ plan_at image.now }
    requires names { places.now.names ≡ names_at image.now }
    ensures bytes { OnOk result (out.new.items ≡ out.old.items ++ section_table image.now) }
    ensures fit { OnOk result (SectionsFit image.now) }
{
    let entries = table_len(&image.entries);
    put_section(out, 0, 0, 0, 0)?;
    put_section(out, 1, 1, places.entries, entries)?;
    put_section(out, 14, 1, places.plan, image.plan.len() as u64)?;
    put_section(out, 24, 3, places.names, NAMES.len() as u64)?;
    Ok(())
}

/// The file of the image.
#[tactic(auto, unfolding(crate::specs::Writing::written))]
fn file_of(alloc: Global, image: &Image) -> Result<Vec<u8>, NoMemory>
    requires segments { length (segment_bytes image.now.segments) < 2 ^ 40 }
    requires rows { length image.now.entries.rows < 2 ^ 32 }
    ensures file { IfOk result (λ file. file.items ≡ written image.now) }
    ensures fit { OnOk result (NumbersFit image.now) }
{
    let places = section_places(image);
    let headers = headers(alloc, image, places.sections)?;
    let mut file = Vec::new(alloc);
    put_padded(&mut file, &headers, 4096)?;
    put_segments(&mut file, image.segments.items())?;
    put_table(&mut file, &image.entries)?;
    put_padded(&mut file, image.plan.items(), 8)?;
    put_padded(&mut file, NAMES, 8)?;
    put_sections(&mut file, image, &places)?;
    Ok(file)
}

/// Writes the image as a static RV64 ELF file, which `read_elf` reads as the same image.
pub fn write_elf(alloc: Global, image: &Image) -> Result<Vec<u8>, NoMemory>
    requires { IsLaidOut image.now }
    ensures written { IfOk result (λ file. file.items ≡ written image.now) }
    ensures read { IfOk result (λ file. meaning_of file.items ≡ Ok image.now) }
{
    file_of(alloc, image)
}
