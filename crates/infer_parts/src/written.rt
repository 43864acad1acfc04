//! The types that written types mean.

ghost use Rattle.std.specs.Prelude.{◌≡◌, ◌<◌, ◌≤◌, ℕ, Bool, None, Some, List, length, slice_get, IfOk};
ghost use Rattle.std.specs.List.{AllByRecursion};
ghost use Rattle.sml_types.specs.declared.types.TyVar.{TyVar};
ghost use Rattle.sml_tree.specs.declared.bare.TypeExp.{TypeExp};
ghost use Rattle.sml_tree.specs.IsBare.{TypeStands};
ghost use Rattle.sml_types.specs.Poly.{Poly};
ghost use Rattle.sml_types.specs.Tree.{Tree, inst};
ghost use Rattle.sml_types.specs.Forms.{tree, form_tree, parts_of, var_of};
ghost use Rattle.sml_types.specs.TypeExps.{IsRecord, labelled};
ghost use Rattle.sml_unify.specs.Steps.{IsLonger};
ghost use Rattle.infer_parts.specs.Copies.{given_types, AreOldVars};
ghost use Rattle.infer_parts.specs.Segments.{exp_parts};
ghost use Rattle.infer_parts.specs.Written.{standing, AreThere, IsClosedScheme, IsTypeRow, has_params, IsFitting, entry_at, all_taken, paired, in_order, put_in, AreTrees, IsMadeOf, IsThere, AreMadeThere, IsNext, is_cited, AreAbbreviations, AreTypeRows, AreCited, IsWritten};

use crate::copy::{copy, label};
use crate::given::Given;
use crate::segment::{exp_parts, first_exp, first_form};
use sml_tree::Bare;
use sml_tree::bare::{TypeExp, TypeField};
use sml_types::{Field, Scheme, Ty, TyForm, TyVar, TypeName, Types};
use smlc_base::{NoMemory, Row};
use std::alloc::Global;

// What was made of a part.
fn entry_at(first: u32, made: &[Option<Ty>], part: u32) -> Option<Ty>
    requires { first ≤ part }
    ensures { result ≡ entry_at first made.now part }
{
    match made.get((part - first) as usize) {
        Some(found) => *found,
        None => None,
    }
}

// The types of the parts, if each has one.
fn all_taken(
    alloc: Global,
    first: u32,
    made: &[Option<Ty>],
    parts: &[u32],
) -> Result<Option<Row<Ty>>, NoMemory>
    requires { AllByRecursion (λ c. first ≤ c) parts.now }
    ensures { IfOk result (λ tys. tys ≡ all_taken first made.now parts.now) }
{
    let mut tys = Row::new(alloc);
    'parts: for part in parts {
        match entry_at(first, made, *part) {
            Some(ty) => tys.push(ty)?,
            None => return Ok(None),
        }
    }
    Ok(Some(tys))
}

fn in_order(alloc: Global, fields: &[TypeField], tys: &[Ty]) -> Result<Row<Field>, NoMemory>
    requires { length tys.now ≡ length fields.now }
    ensures { IfOk result (λ made. made ≡ in_order fields.now tys.now) }
{
    let mut made = Row::new(alloc);
    'fields: for at in 0..fields.len() {
        made.push(Field {
            lab: label(alloc, &fields[at].lab)?,
            ty: tys[at],
        })?;
    }
    Ok(made)
}

// Each field stands at its place in the order of labels.
fn placed(alloc: Global, fields: &[TypeField], tys: &[Ty]) -> Result<Row<Field>, NoMemory>
    requires count { length tys.now ≡ length fields.now }
    requires slots { AllByRecursion (λ f. f.slot < length fields.now) fields.now }
    ensures { IfOk result (λ made. made ≡ put_in fields.now tys.now (in_order fields.now tys.now)) }
{
    let mut made = in_order(alloc, fields, tys)?;
    'fields: for at in 0..fields.len() {
        made.set(
            fields[at].slot as usize,
            Field {
                lab: label(alloc, &fields[at].lab)?,
                ty: tys[at],
            },
        );
    }
    Ok(made)
}

/// Adds a form that is no variable.
pub fn pushed(types: &mut Types, form: TyForm) -> Result<Ty, NoMemory>
    requires parts { AllByRecursion (λ c. c < length types.old) (parts_of form) }
    requires plain { var_of form ≡ None }
    ensures ok { IfOk result (λ t. (t.0 < length types.new) × (tree types.new t.0 ≡ form_tree (tree types.old) form)) }
    ensures longer { IsLonger types.old types.new }
    ensures vars { AreOldVars types.old types.new }
{
    types.push(form)
}

/// The record type with these fields.
pub fn record(
    alloc: Global,
    types: &mut Types,
    fields: &[TypeField],
    tys: &[Ty],
) -> Result<Ty, NoMemory>
    requires count { length tys.now ≡ length fields.now }
    requires there { AreThere types.old tys.now }
    requires row { IsTypeRow fields.now }
    ensures there { IfOk result (λ t. t.0 < length types.new) }
    ensures ok { IfOk result (λ t. (f : TyVar → Tree) (ts : List Tree) → AreTrees types.old f tys.now ts → (t.0 < length types.new) × (r : Tree) × IsRecord (labelled fields.now ts) r × (tree types.new t.0 ≡ inst f r)) }
    ensures longer { IsLonger types.old types.new }
    ensures vars { AreOldVars types.old types.new }
{
    let made = placed(alloc, fields, tys)?;
    pushed(types, TyForm::Fields(made))
}

// The arguments, each with its parameter.
fn paired(alloc: Global, vars: &[TyVar], args: &[Ty]) -> Result<Vec<Given>, NoMemory>
    requires { length args.now ≡ length vars.now }
    ensures { IfOk result (λ given. given.items ≡ paired vars.now args.now) }
{
    let mut given = Vec::new(alloc);
    'vars: for at in 0..vars.len() {
        given.push(Given {
            num: vars[at].num,
            ty: args[at],
        })?;
    }
    Ok(given)
}

/// A type with types in the place of these variables.
pub fn unfolded(
    alloc: Global,
    types: &mut Types,
    vars: &[TyVar],
    body: Ty,
    args: &[Ty],
) -> Result<Ty, NoMemory>
    requires body { body.0 < length types.old }
    requires there { AreThere types.old args.now }
    requires count { length args.now ≡ length vars.now }
    ensures ok { IfOk result (λ t. (t.0 < length types.new) × (tree types.new t.0 ≡ inst (given_types types.old (paired vars.now args.now)) (tree types.old body.0))) }
    ensures longer { IsLonger types.old types.new }
    ensures vars { AreOldVars types.old types.new }
{
    // Opens the invariant of the types.
    let _ = &types.forms;
    if body.0 == u32::MAX {
        return Err(NoMemory);
    }
    let given = paired(alloc, vars, args)?;
    let first = first_form(alloc, types.forms(), body.0, body.0)?;
    let copies = copy(alloc, types, first, body.0 + 1, &given)?;
    Ok(copies[(body.0 - first) as usize])
}

// Whether the type name of a number has this many parameters.
fn has_params(names: &[TypeName], number: u32, count: usize) -> bool
    ensures { result ≡ has_params names.now number count }
{
    match names.get(number as usize) {
        Some(name) => name.params.len() == count,
        None => false,
    }
}

// A written type, of the types of its parts.
fn of_parts(
    alloc: Global,
    types: &mut Types,
    exp: &TypeExp,
    tys: Row<Ty>,
    names: &[TypeName],
    stands: &[Ty],
    abbreviations: &[Scheme],
) -> Result<Option<Ty>, NoMemory>
    requires count { length tys ≡ length (exp_parts exp.now) }
    requires there { AreThere types.old tys }
    requires stands { AreThere types.old stands.now }
    requires bodies { AllByRecursion (IsClosedScheme types.old) abbreviations.now }
    requires fits { IsFitting (length stands.now) (length abbreviations.now) exp.now }
    ensures there { IfOk result (λ made. IsThere types.new made) }
    ensures ok { IfOk result (λ made. (marks : List Bool) → IsMadeOf marks names.now abbreviations.now stands.now types.old exp.now tys types.new made) }
    ensures longer { IsLonger types.old types.new }
    ensures vars { AreOldVars types.old types.new }
{
    match exp {
        TypeExp::Var(var) => Ok(Some(stands[*var as usize])),
        TypeExp::Record(fields) => {
            let made = record(alloc, types, fields.items(), tys.items())?;
            Ok(Some(made))
        }
        TypeExp::Arrow(_, _) => {
            let made = pushed(types, TyForm::Arrow(tys.items()[0], tys.items()[1]))?;
            Ok(Some(made))
        }
        TypeExp::Named(number, args) => {
            if !has_params(names, *number, args.len()) {
                return Ok(None);
            }
            let made = pushed(types, TyForm::Named(*number, tys))?;
            Ok(Some(made))
        }
        TypeExp::Abbreviation(number, args) => {
            let scheme = &abbreviations[*number as usize];
            if scheme.vars.len() != args.len() {
                return Ok(None);
            }
            let made = unfolded(alloc, types, scheme.vars.items(), scheme.body, tys.items())?;
            Ok(Some(made))
        }
        TypeExp::UnitOf(_) => Ok(None),
    }
}

// Whether the type binding that a written type cites is there.
fn is_cited(exp: &TypeExp, count: usize) -> bool
    ensures { result ≡ is_cited count exp.now }
{
    match exp {
        TypeExp::Abbreviation(number, _) => (*number as usize) < count,
        _ => true,
    }
}

// The next written type, of what was made of those before it.
fn next_written(
    alloc: Global,
    types: &mut Types,
    exp: &TypeExp,
    first: u32,
    made: &[Option<Ty>],
    names: &[TypeName],
    stands: &[Ty],
    abbreviations: &[Scheme],
) -> Result<Option<Ty>, NoMemory>
    requires parts { AllByRecursion (λ c. first ≤ c) (exp_parts exp.now) }
    requires made { AreMadeThere types.old made.now }
    requires stands { AreThere types.old stands.now }
    requires bodies { AllByRecursion (IsClosedScheme types.old) abbreviations.now }
    requires fits { IsFitting (length stands.now) (length abbreviations.now) exp.now }
    ensures there { IfOk result (λ o. IsThere types.new o) }
    ensures ok { IfOk result (λ o. IsNext names.now abbreviations.now stands.now types.old exp.now (all_taken first made.now (exp_parts exp.now)) types.new o) }
    ensures longer { IsLonger types.old types.new }
    ensures vars { AreOldVars types.old types.new }
{
    let parts = exp_parts(alloc, exp)?;
    match all_taken(alloc, first, made, &parts)? {
        Some(tys) => of_parts(alloc, types, exp, tys, names, stands, abbreviations),
        None => Ok(None),
    }
}

/// The type that a written type of a bare tree means, with a type in the place of each explicit type variable: None exactly where it means none, as a type constructor with another number of arguments than it has parameters. `abbreviations` has the parameters and the right sides of the `type` bindings by number; where one is cited that isn't there, which no bare tree does, it is want of memory.
pub fn written(
    alloc: Global,
    types: &mut Types,
    bare: &Bare,
    names: &[TypeName],
    stands: &[Ty],
    abbreviations: &[Scheme],
    exp: u32,
) -> Result<Option<Ty>, NoMemory>
    requires here { exp < length bare.now.types }
    requires types { (i : ℕ) (e : TypeExp) → slice_get bare.now.types i ≡ Some e → TypeStands bare.now i e }
    requires rows { AreTypeRows bare.now.types }
    requires count { length stands.now ≡ length bare.now.tyvars }
    requires stands { AreThere types.old stands.now }
    requires bodies { AllByRecursion (IsClosedScheme types.old) abbreviations.now }
    ensures ok { IfOk result (λ ty. (meanings : ℕ → Poly) → AreAbbreviations types.old abbreviations.now meanings → IsWritten bare.now.types bare.now.tyvars names.now meanings (standing types.old stands.now) types.new exp ty) }
    ensures there { IfOk result (λ ty. IsThere types.new ty) }
    ensures cited { IfOk result (λ _. AreCited bare.now.types (length abbreviations.now) exp) }
    ensures longer { IsLonger types.old types.new }
    ensures vars { AreOldVars types.old types.new }
{
    let exps = bare.types.items();
    let first = first_exp(alloc, exps, exp)?;
    let mut made = Vec::new(alloc);
    'exps: for at in first as usize..exp as usize + 1 {
        let part = &exps[at];
        if !is_cited(part, abbreviations.len()) {
            return Err(NoMemory);
        }
        let next = next_written(
            alloc,
            types,
            part,
            first,
            &made,
            names,
            stands,
            abbreviations,
        )?;
        made.push(next)?;
    }
    Ok(made[(exp - first) as usize])
}
