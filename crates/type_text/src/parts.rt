//! The pieces that a form comes to.

ghost use Rattle.std.specs.Prelude.{◌≡◌, ◌++◌, ◌+◌, length, map, pos, OnOk};
ghost use Rattle.type_text.specs.Text.{is_tuple, are_from, is_number};
ghost use Rattle.type_text.specs.Steps.{bytes_if, arrow_tasks, tuple_tasks, field_tasks, record_tasks, named_tasks, further_parts, further_fields, further_arguments};

use crate::level::Level;
use crate::work::{Piece, Work};
use sml_tree::bare::Lab;
use sml_types::{Field, Ty};
use smlc_base::NoMemory;

/// Whether the label is this number.
fn is_number(lab: &Lab, number: usize) -> bool
    ensures { result ≡ is_number number lab.now }
{
    match lab {
        Lab::Num(n) => *n >= 0 && *n as u64 == number as u64,
        Lab::Text(_) => false,
    }
}

/// Whether the labels are 1 to n, with n at least 2.
fn is_tuple(fields: &[Field]) -> bool
    ensures { result ≡ is_tuple (map (λ f. f.lab) fields.now) }
{
    let mut left = fields;
    let mut number = 1;
    'fields: while let [field, rest @ ..] = left {
        if !is_number(&field.lab, number) {
            return false;
        }
        left = rest;
        number += 1;
    }
    fields.len() > 1
}

fn push_if<'a>(work: &mut Work<'a>, needed: bool, bytes: &'a [u8]) -> Result<(), NoMemory>
    ensures { OnOk result (work.new ≡ bytes_if needed bytes.now ++ work.old) }
{
    if needed {
        work.push(Piece::Bytes(bytes))?;
    }
    Ok(())
}

/// The pieces of a function type.
pub(crate) fn push_arrow<'a>(
    work: &mut Work<'a>,
    from: Ty,
    to: Ty,
    level: Level,
) -> Result<(), NoMemory>
    ensures { OnOk result (work.new ≡ arrow_tasks from to level ++ work.old) }
{
    let needed = !matches!(level, Level::Function);
    push_if(work, needed, b")")?;
    work.push(Piece::Type(to, Level::Function))?;
    work.push(Piece::Bytes(b" -> "))?;
    work.push(Piece::Type(from, Level::Product))?;
    push_if(work, needed, b"(")
}

fn push_tuple<'a>(
    work: &mut Work<'a>,
    first: &'a Field,
    fields: &'a [Field],
    level: Level,
) -> Result<(), NoMemory>
    ensures { OnOk result (work.new ≡ tuple_tasks first.now fields.now level ++ work.old) }
{
    let needed = matches!(level, Level::Atom);
    push_if(work, needed, b")")?;
    work.push(Piece::Tuple(fields))?;
    work.push(Piece::Type(first.ty, Level::Atom))?;
    push_if(work, needed, b"(")
}

fn push_fields<'a>(
    work: &mut Work<'a>,
    first: &'a Field,
    fields: &'a [Field],
) -> Result<(), NoMemory>
    ensures { OnOk result (work.new ≡ field_tasks first.now fields.now ++ work.old) }
{
    work.push(Piece::Record(fields))?;
    work.push(Piece::Type(first.ty, Level::Function))?;
    work.push(Piece::Bytes(b" : "))?;
    work.push(Piece::Label(&first.lab))
}

/// The pieces of a record type.
pub(crate) fn push_record<'a>(
    work: &mut Work<'a>,
    fields: &'a [Field],
    level: Level,
) -> Result<(), NoMemory>
    ensures { OnOk result (work.new ≡ record_tasks fields.now level ++ work.old) }
{
    match fields {
        [] => work.push(Piece::Bytes(b"unit")),
        [first, rest @ ..] => {
            if is_tuple(fields) {
                push_tuple(work, first, rest, level)
            } else {
                work.push(Piece::Bytes(b"}"))?;
                push_fields(work, first, rest)?;
                work.push(Piece::Bytes(b"{"))
            }
        }
    }
}

/// The pieces of a type name at its arguments.
pub(crate) fn push_named<'a>(
    work: &mut Work<'a>,
    name: &'a [u8],
    args: &'a [Ty],
) -> Result<(), NoMemory>
    ensures { OnOk result (work.new ≡ named_tasks name.now args.now ++ work.old) }
{
    work.push(Piece::Bytes(name))?;
    match args {
        [] => Ok(()),
        [arg] => {
            work.push(Piece::Bytes(b" "))?;
            work.push(Piece::Type(*arg, Level::Atom))
        }
        [first, rest @ ..] => {
            work.push(Piece::Bytes(b") "))?;
            work.push(Piece::Arguments(rest))?;
            work.push(Piece::Type(*first, Level::Function))?;
            work.push(Piece::Bytes(b"("))
        }
    }
}

/// The pieces of a tuple's further parts.
pub(crate) fn push_parts<'a>(work: &mut Work<'a>, fields: &'a [Field]) -> Result<(), NoMemory>
    ensures { OnOk result (work.new ≡ further_parts fields.now ++ work.old) }
{
    if let [first, rest @ ..] = fields {
        work.push(Piece::Tuple(rest))?;
        work.push(Piece::Type(first.ty, Level::Atom))?;
        work.push(Piece::Bytes(b" * "))?;
    }
    Ok(())
}

/// The pieces of a record's further fields.
pub(crate) fn push_further<'a>(work: &mut Work<'a>, fields: &'a [Field]) -> Result<(), NoMemory>
    ensures { OnOk result (work.new ≡ further_fields fields.now ++ work.old) }
{
    if let [first, rest @ ..] = fields {
        push_fields(work, first, rest)?;
        work.push(Piece::Bytes(b", "))?;
    }
    Ok(())
}

/// The pieces of a type name's further arguments.
pub(crate) fn push_arguments<'a>(work: &mut Work<'a>, args: &'a [Ty]) -> Result<(), NoMemory>
    ensures { OnOk result (work.new ≡ further_arguments args.now ++ work.old) }
{
    if let [first, rest @ ..] = args {
        work.push(Piece::Arguments(rest))?;
        work.push(Piece::Type(*first, Level::Function))?;
        work.push(Piece::Bytes(b", "))?;
    }
    Ok(())
}
