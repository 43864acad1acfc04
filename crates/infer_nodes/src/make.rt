//! Types are made from forms, without new variables.

ghost use Rattle.std.specs.Prelude.{◌≡◌, ◌<◌, [], ◌∷◌, length, map, IfOk};
ghost use Rattle.sml_types.specs.Forms.{tree};
ghost use Rattle.sml_types.specs.Library.{name_ty, arrow, tuple, library_exn};
ghost use Rattle.infer_parts.specs.Written.{AreThere};
ghost use Rattle.infer_nodes.specs.Made.{IsFixed};

use infer_parts::written::pushed;
use sml_tree::bare::Lab;
use sml_types::{Field, Ty, TyForm, Types};
use smlc_base::{LibraryExn, NoMemory, Row};
use std::alloc::Global;

/// The numbers of type names of the library.
pub(crate) const INT: u32 = 0;

pub(crate) const CHAR: u32 = 1;

pub(crate) const STRING: u32 = 2;

pub(crate) const EXN: u32 = 3;

pub(crate) const BOOL: u32 = 4;

pub(crate) const LIST: u32 = 5;

pub(crate) const OPTION: u32 = 6;

pub(crate) const ORDER: u32 = 7;

pub(crate) const REF: u32 = 8;

pub(crate) const INSTREAM: u32 = 9;

/// A type name at its arguments.
pub(crate) fn applied(types: &mut Types, name: u32, args: Row<Ty>) -> Result<Ty, NoMemory>
    requires args { AreThere types.old args }
    ensures { IfOk result (λ t. IsFixed (name_ty name (map (λ a. tree types.old a.0) args)) types.old types.new t) }
{
    pushed(types, TyForm::Named(name, args))
}

/// A type name without arguments.
pub(crate) fn constant(alloc: Global, types: &mut Types, name: u32) -> Result<Ty, NoMemory>
    ensures { IfOk result (λ t. IsFixed (name_ty name []) types.old types.new t) }
{
    applied(types, name, Row::new(alloc))
}

/// A type name at one argument.
pub(crate) fn at_one(alloc: Global, types: &mut Types, name: u32, arg: Ty) -> Result<Ty, NoMemory>
    requires arg { arg.0 < length types.old }
    ensures { IfOk result (λ t. IsFixed (name_ty name (tree types.old arg.0 ∷ [])) types.old types.new t) }
{
    let mut args = Row::new(alloc);
    args.push(arg)?;
    applied(types, name, args)
}

/// A function type.
pub(crate) fn function(types: &mut Types, from: Ty, to: Ty) -> Result<Ty, NoMemory>
    requires from { from.0 < length types.old }
    requires to { to.0 < length types.old }
    ensures { IfOk result (λ t. IsFixed (arrow (tree types.old from.0) (tree types.old to.0)) types.old types.new t) }
{
    pushed(types, TyForm::Arrow(from, to))
}

/// The record type without fields.
pub(crate) fn unit(alloc: Global, types: &mut Types) -> Result<Ty, NoMemory>
    ensures { IfOk result (λ t. IsFixed (tuple []) types.old types.new t) }
{
    pushed(types, TyForm::Fields(Row::new(alloc)))
}

/// The type of pairs.
pub(crate) fn two(alloc: Global, types: &mut Types, first: Ty, second: Ty) -> Result<Ty, NoMemory>
    requires first { first.0 < length types.old }
    requires second { second.0 < length types.old }
    ensures { IfOk result (λ t. IsFixed (tuple (tree types.old first.0 ∷ tree types.old second.0 ∷ [])) types.old types.new t) }
{
    let mut fields = Row::new(alloc);
    fields.push(Field {
        lab: Lab::Num(1),
        ty: first,
    })?;
    fields.push(Field {
        lab: Lab::Num(2),
        ty: second,
    })?;
    pushed(types, TyForm::Fields(fields))
}

/// The type of triples.
pub(crate) fn three(
    alloc: Global,
    types: &mut Types,
    first: Ty,
    second: Ty,
    third: Ty,
) -> Result<Ty, NoMemory>
    requires first { first.0 < length types.old }
    requires second { second.0 < length types.old }
    requires third { third.0 < length types.old }
    ensures { IfOk result (λ t. IsFixed (tuple (tree types.old first.0 ∷ tree types.old second.0 ∷ tree types.old third.0 ∷ [])) types.old types.new t) }
{
    let mut fields = Row::new(alloc);
    fields.push(Field {
        lab: Lab::Num(1),
        ty: first,
    })?;
    fields.push(Field {
        lab: Lab::Num(2),
        ty: second,
    })?;
    fields.push(Field {
        lab: Lab::Num(3),
        ty: third,
    })?;
    pushed(types, TyForm::Fields(fields))
}

/// The type of a library exception.
pub(crate) fn library_type(
    alloc: Global,
    types: &mut Types,
    exn: LibraryExn,
) -> Result<Ty, NoMemory>
    ensures { IfOk result (λ t. IsFixed (library_exn exn) types.old types.new t) }
{
    match exn {
        LibraryExn::FailExn => {
            let text = constant(alloc, types, STRING)?;
            let exn = constant(alloc, types, EXN)?;
            function(types, text, exn)
        }
        _ => constant(alloc, types, EXN),
    }
}
