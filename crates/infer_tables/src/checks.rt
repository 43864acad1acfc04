//! What is checked of written types, since any tree may come.

ghost use Rattle.std.specs.Prelude.{◌≡◌, ◌<◌, ◌≤◌, IsTrue, IfOk, OnOk, map, length};
ghost use Rattle.std.specs.List.{AllByRecursion};
ghost use Rattle.sml_tree.specs.Sets.{has};
ghost use Rattle.sml_tree.specs.IsBare.{IsDistinct, TypeStands};
ghost use Rattle.infer_parts.specs.Written.{IsTypeRow};
ghost use Rattle.infer_tables.specs.Checks.{AreBareTypes, HasPlaces, CitesBelow, AllCiteBelow};

use sml_tree::Bare;
use sml_tree::bare::{TypeExp, TypeField};
use smlc_base::NoMemory;
use std::alloc::Global;

fn has(numbers: &[u32], number: u32) -> bool
    ensures { result ≡ has numbers.now number }
{
    numbers.iter().any(|other| number == *other)
}

/// Whether no number stands twice.
pub(crate) fn is_distinct(numbers: &[u32]) -> bool
    ensures { IsTrue result → IsDistinct numbers.now }
{
    let mut rest = numbers;
    'numbers: while let [first, others @ ..] = rest {
        if has(others, *first) {
            return false;
        }
        rest = others;
    }
    true
}

fn slots(alloc: Global, fields: &[TypeField]) -> Result<Vec<u32>, NoMemory>
    ensures { IfOk result (λ v. v.items ≡ map (λ f. f.slot) fields.now) }
{
    let found = fields.iter().map(|field| field.slot).collect(alloc)?;
    Ok(found)
}

fn are_slots_below(fields: &[TypeField], count: usize) -> bool
    ensures { IsTrue result → AllByRecursion (λ f. f.slot < count) fields.now }
{
    fields.iter().all(|field| (field.slot as usize) < count)
}

// Whether the fields have the places from 0 on, each once.
fn is_type_row(alloc: Global, fields: &[TypeField]) -> Result<bool, NoMemory>
    ensures { IfOk result (λ is. IsTrue is → IsTypeRow fields.now) }
{
    let slots = slots(alloc, fields)?;
    Ok(is_distinct(&slots) && are_slots_below(fields, fields.len()))
}

fn are_below(numbers: &[u32], count: usize) -> bool
    ensures { IsTrue result → AllByRecursion (λ n. n < count) numbers.now }
{
    numbers.iter().all(|number| (*number as usize) < count)
}

fn stands(bare: &Bare, at: usize, exp: &TypeExp) -> bool
    ensures { IsTrue result → TypeStands bare.now at exp.now }
{
    match exp {
        TypeExp::Var(var) => (*var as usize) < bare.tyvars.len(),
        TypeExp::Record(fields) => fields.items().iter().all(|field| (field.ty as usize) < at),
        TypeExp::Arrow(arg, result) => (*arg as usize) < at && (*result as usize) < at,
        TypeExp::Named(_, args) => are_below(args.items(), at),
        TypeExp::Abbreviation(_, args) => are_below(args.items(), at),
        TypeExp::UnitOf(args) => are_below(args.items(), at),
    }
}

fn has_places(alloc: Global, exp: &TypeExp) -> Result<bool, NoMemory>
    ensures { IfOk result (λ is. IsTrue is → HasPlaces exp.now) }
{
    match exp {
        TypeExp::Record(fields) => is_type_row(alloc, fields.items()),
        _ => Ok(true),
    }
}

fn is_bare_type(alloc: Global, bare: &Bare, at: usize, exp: &TypeExp) -> Result<bool, NoMemory>
    ensures { IfOk result (λ is. IsTrue is → TypeStands bare.now at exp.now × HasPlaces exp.now) }
{
    let placed = has_places(alloc, exp)?;
    Ok(placed && stands(bare, at, exp))
}

/// Checks the written types by themselves.
pub fn check_types(alloc: Global, bare: &Bare) -> Result<(), NoMemory>
    ensures { OnOk result (AreBareTypes bare.now) }
{
    let exps = bare.types.items();
    'exps: for at in 0..exps.len() {
        let is = is_bare_type(alloc, bare, at, &exps[at])?;
        if !is {
            return Err(NoMemory);
        }
    }
    Ok(())
}

fn cites_below(names: usize, bindings: usize, exp: &TypeExp) -> bool
    ensures { IsTrue result → CitesBelow names bindings exp.now }
{
    match exp {
        TypeExp::Named(number, _) => (*number as usize) < names,
        TypeExp::Abbreviation(number, _) => (*number as usize) < bindings,
        _ => true,
    }
}

/// Whether the written types up to number `last` cite type names and type bindings below these numbers.
pub(crate) fn all_cite_below(names: usize, bindings: usize, exps: &[TypeExp], last: u32) -> bool
    requires { last < length exps.now }
    ensures { IsTrue result → AllCiteBelow names bindings exps.now last }
{
    'exps: for at in 0..last as usize + 1 {
        if !cites_below(names, bindings, &exps[at]) {
            return false;
        }
    }
    true
}
