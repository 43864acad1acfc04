//! The types of the primitives.

ghost use Rattle.std.specs.Prelude.{◌≡◌, [], ◌∷◌, List, IfOk, true, false};
ghost use Rattle.sml_types.specs.declared.tables.TypeName.{TypeName};
ghost use Rattle.sml_types.specs.Poly.{IsInstance};
ghost use Rattle.sml_types.specs.Library.{name_ty, arrow, tuple, primitive_poly};
ghost use Rattle.sml_unify.specs.Steps.{AreBelow};
ghost use Rattle.infer_nodes.specs.Posed.{AreAdded, IsMade};
ghost use Rattle.smlc_base.specs.declared.primitive.Primitive.TheVariants.{Equal, Deref, Assign};
ghost use Rattle.infer_nodes.specs.Made.{IsFixed, IsMono, AreNew};

use crate::make::{
    BOOL, CHAR, INSTREAM, INT, LIST, OPTION, ORDER, REF, STRING, at_one, constant, function, three,
    two, unit,
};
use crate::vars::new_vars;
use sml_types::{Ty, TyVar, Types};
use smlc_base::{NoMemory, Primitive};
use std::alloc::Global;

// A function of one type name.
fn of_one(alloc: Global, types: &mut Types, from: u32, to: u32) -> Result<Ty, NoMemory>
    ensures { IfOk result (λ t. IsFixed (arrow (name_ty from []) (name_ty to [])) types.old types.new t) }
{
    let from = constant(alloc, types, from)?;
    let to = constant(alloc, types, to)?;
    function(types, from, to)
}

// A function of a pair.
fn of_two(
    alloc: Global,
    types: &mut Types,
    first: u32,
    second: u32,
    to: u32,
) -> Result<Ty, NoMemory>
    ensures { IfOk result (λ t. IsFixed (arrow (tuple (name_ty first [] ∷ name_ty second [] ∷ [])) (name_ty to [])) types.old types.new t) }
{
    let first = constant(alloc, types, first)?;
    let second = constant(alloc, types, second)?;
    let from = two(alloc, types, first, second)?;
    let to = constant(alloc, types, to)?;
    function(types, from, to)
}

// `substring`
fn substring(alloc: Global, types: &mut Types) -> Result<Ty, NoMemory>
    ensures { IfOk result (λ t. IsFixed (arrow (tuple (name_ty 2 [] ∷ name_ty 0 [] ∷ name_ty 0 [] ∷ [])) (name_ty 2 [])) types.old types.new t) }
{
    let text = constant(alloc, types, STRING)?;
    let number = constant(alloc, types, INT)?;
    let from = three(alloc, types, text, number, number)?;
    function(types, from, text)
}

// `implode`
fn implode(alloc: Global, types: &mut Types) -> Result<Ty, NoMemory>
    ensures { IfOk result (λ t. IsFixed (arrow (name_ty 5 (name_ty 1 [] ∷ [])) (name_ty 2 [])) types.old types.new t) }
{
    let letter = constant(alloc, types, CHAR)?;
    let from = at_one(alloc, types, LIST, letter)?;
    let to = constant(alloc, types, STRING)?;
    function(types, from, to)
}

// `TextIO.inputLine`
fn input_line(alloc: Global, types: &mut Types) -> Result<Ty, NoMemory>
    ensures { IfOk result (λ t. IsFixed (arrow (name_ty 9 []) (name_ty 6 (name_ty 2 [] ∷ []))) types.old types.new t) }
{
    let from = constant(alloc, types, INSTREAM)?;
    let line = constant(alloc, types, STRING)?;
    let to = at_one(alloc, types, OPTION, line)?;
    function(types, from, to)
}

// `print`
fn print(alloc: Global, types: &mut Types) -> Result<Ty, NoMemory>
    ensures { IfOk result (λ t. IsFixed (arrow (name_ty 2 []) (tuple [])) types.old types.new t) }
{
    let from = constant(alloc, types, STRING)?;
    let to = unit(alloc, types)?;
    function(types, from, to)
}

// The type of a primitive without type variables.
fn mono_type(alloc: Global, types: &mut Types, primitive: Primitive) -> Result<Ty, NoMemory>
    ensures { IfOk result (λ t. IsMono (primitive_poly primitive) types.old types.new t) }
{
    match primitive {
        Primitive::Plus => of_two(alloc, types, INT, INT, INT),
        Primitive::Minus => of_two(alloc, types, INT, INT, INT),
        Primitive::Times => of_two(alloc, types, INT, INT, INT),
        Primitive::Quotient => of_two(alloc, types, INT, INT, INT),
        Primitive::Modulo => of_two(alloc, types, INT, INT, INT),
        Primitive::Less => of_two(alloc, types, INT, INT, BOOL),
        Primitive::Greater => of_two(alloc, types, INT, INT, BOOL),
        Primitive::AtMost => of_two(alloc, types, INT, INT, BOOL),
        Primitive::AtLeast => of_two(alloc, types, INT, INT, BOOL),
        Primitive::Concat => of_two(alloc, types, STRING, STRING, STRING),
        Primitive::Sub => of_two(alloc, types, STRING, INT, CHAR),
        Primitive::Compare => of_two(alloc, types, STRING, STRING, ORDER),
        Primitive::Negate => of_one(alloc, types, INT, INT),
        Primitive::Abs => of_one(alloc, types, INT, INT),
        Primitive::Ord => of_one(alloc, types, CHAR, INT),
        Primitive::Chr => of_one(alloc, types, INT, CHAR),
        Primitive::Size => of_one(alloc, types, STRING, INT),
        Primitive::Str => of_one(alloc, types, CHAR, STRING),
        Primitive::Implode => implode(alloc, types),
        Primitive::Substring => substring(alloc, types),
        Primitive::Print => print(alloc, types),
        Primitive::InputLine => input_line(alloc, types),
        Primitive::StdIn => constant(alloc, types, INSTREAM),
        Primitive::Equal | Primitive::Unequal | Primitive::Deref | Primitive::Assign => {
            Err(NoMemory)
        }
    }
}

/// A new variable.
pub(crate) fn new_one(
    alloc: Global,
    types: &mut Types,
    next: &mut u32,
    eq: bool,
) -> Result<Ty, NoMemory>
    requires below { AreBelow types.old next.old }
    ensures is { IfOk result (λ t. AreNew next.old (record { num = 0; eq = eq } ∷ []) types.new (t ∷ [])) }
    ensures added { IfOk result (λ _. AreAdded next.old types.old next.new types.new) }
{
    let args = new_vars(alloc, types, next, &[TyVar { num: 0, eq }])?;
    Ok(args[0])
}

// `=` and `<>`
fn equality(alloc: Global, types: &mut Types, next: &mut u32) -> Result<Ty, NoMemory>
    requires below { AreBelow types.old next.old }
    ensures { IfOk result (λ t. (names : List TypeName) → IsMade names (λ f u. IsInstance names (primitive_poly Equal) u) next.old types.old next.new types.new t) }
{
    let var = new_one(alloc, types, next, true)?;
    let from = two(alloc, types, var, var)?;
    let to = constant(alloc, types, BOOL)?;
    function(types, from, to)
}

// `!`
fn deref(alloc: Global, types: &mut Types, next: &mut u32) -> Result<Ty, NoMemory>
    requires below { AreBelow types.old next.old }
    ensures { IfOk result (λ t. (names : List TypeName) → IsMade names (λ f u. IsInstance names (primitive_poly Deref) u) next.old types.old next.new types.new t) }
{
    let var = new_one(alloc, types, next, false)?;
    let from = at_one(alloc, types, REF, var)?;
    function(types, from, var)
}

// `:=`
fn assign(alloc: Global, types: &mut Types, next: &mut u32) -> Result<Ty, NoMemory>
    requires below { AreBelow types.old next.old }
    ensures { IfOk result (λ t. (names : List TypeName) → IsMade names (λ f u. IsInstance names (primitive_poly Assign) u) next.old types.old next.new types.new t) }
{
    let var = new_one(alloc, types, next, false)?;
    let cell = at_one(alloc, types, REF, var)?;
    let from = two(alloc, types, cell, var)?;
    let to = unit(alloc, types)?;
    function(types, from, to)
}

/// A primitive, with new variables for those of its scheme.
pub(crate) fn primitive_type(
    alloc: Global,
    types: &mut Types,
    next: &mut u32,
    primitive: Primitive,
) -> Result<Ty, NoMemory>
    requires below { AreBelow types.old next.old }
    ensures { IfOk result (λ t. (names : List TypeName) → IsMade names (λ f u. IsInstance names (primitive_poly primitive) u) next.old types.old next.new types.new t) }
{
    match primitive {
        Primitive::Equal => equality(alloc, types, next),
        Primitive::Unequal => equality(alloc, types, next),
        Primitive::Deref => deref(alloc, types, next),
        Primitive::Assign => assign(alloc, types, next),
        _ => mono_type(alloc, types, primitive),
    }
}
