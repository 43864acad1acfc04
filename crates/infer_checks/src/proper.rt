//! Whether settled schemes keep their variables at the end.

ghost use Rattle.std.specs.Prelude.{◌≡◌, ◌<◌, ℕ, false, Option, Some, None, length, slice_get, IfOk, IfSome, IsTrue};
ghost use Rattle.std.specs.List.{AllByRecursion};
ghost use Rattle.sml_types.specs.Poly.{Poly, is_in};
ghost use Rattle.sml_types.specs.Schemes.{scheme_poly};
ghost use Rattle.sml_unify.specs.Solved.{AreBindings};
ghost use Rattle.infer_state.specs.Fits.{AreThere, settled_at, joined_settled};
ghost use Rattle.infer_state.specs.Typings.{AreApart, IsProper};
ghost use Rattle.infer_checks.specs.Checked.{ending};
ghost use Rattle.infer_checks.specs.Ending.{IsKept, IsProperAt};

use crate::explicit::look;
use crate::numbers::{numbers_of, renamed};
use crate::open::open_numbers;
use infer_state::{Settled, Unknowns};
use sml_types::TyVar;
use sml_unify::resolve::Rename;
use smlc_base::NoMemory;
use std::alloc::Global;

/// Whether a number is in a list.
pub(crate) fn is_in(numbers: &[u32], number: u32) -> bool
    ensures { result ≡ is_in numbers.now number }
{
    numbers.iter().any(|other| number == *other)
}

// Whether two marks are the same.
fn are_alike(mark: bool, other: bool) -> bool
    ensures { IsTrue result → mark ≡ other }
{
    if mark { other } else { !other }
}

// Whether what stands for a variable is a variable with its mark, whose number is none of these.
fn is_kept(unknowns: &Unknowns, renames: &[Rename], numbers: &[u32], var: TyVar) -> bool
    ensures { IsTrue result → IsKept (ending unknowns.now renames.now) renames.now numbers.now var }
{
    let to = renamed(renames, var);
    if look(unknowns.subst.bound.items(), var.num).is_some() || !are_alike(to.eq, var.eq) {
        return false;
    }
    !is_in(numbers, to.num)
}

/// Whether what stands for each of these variables is a variable with its mark, whose number is none of these.
pub(crate) fn are_kept(
    unknowns: &Unknowns,
    renames: &[Rename],
    numbers: &[u32],
    vars: &[TyVar],
) -> bool
    ensures { IsTrue result → AllByRecursion (IsKept (ending unknowns.now renames.now) renames.now numbers.now) vars.now }
{
    'vars: for var in vars {
        if !is_kept(unknowns, renames, numbers, *var) {
            return false;
        }
    }
    true
}

// Whether no number comes twice.
fn are_apart(numbers: &[u32]) -> bool
    ensures { IsTrue result → AreApart numbers.now }
{
    let mut at = numbers.len();
    'numbers: while at > 0 {
        at -= 1;
        if is_in(&numbers[at + 1..], numbers[at]) {
            return false;
        }
    }
    true
}

// Whether a settled scheme keeps its variables.
fn is_proper(
    alloc: Global,
    unknowns: &Unknowns,
    renames: &[Rename],
    settled: &Settled,
) -> Result<bool, NoMemory>
    requires bindings { AreBindings unknowns.now.types unknowns.now.subst.bound }
    requires there { settled.now.scheme.body.0 < length unknowns.now.types }
    ensures { IfOk result (λ proper. IsTrue proper → IsProper (ending unknowns.now renames.now) (scheme_poly unknowns.now.types settled.now.scheme)) }
{
    if settled.scheme.vars.is_empty() {
        return Ok(true);
    }
    let vars = settled.scheme.vars.items();
    let left = open_numbers(alloc, unknowns, renames, settled)?;
    let numbers = numbers_of(alloc, renames, vars)?;
    if !are_kept(unknowns, renames, &left, vars) {
        return Ok(false);
    }
    Ok(are_apart(&numbers))
}

/// What a name is settled at.
pub(crate) fn settled_name(settled: &[Option<Settled>], name: usize) -> Option<&Settled>
    ensures some { IfSome result (λ found. joined_settled (slice_get settled.now name) ≡ Some found.now) }
    ensures none { result ≡ None → joined_settled (slice_get settled.now name) ≡ None }
{
    match settled.get(name) {
        Some(Some(found)) => Some(found),
        _ => None,
    }
}

// Whether the scheme of a name keeps its variables, if it is settled.
fn is_proper_at(
    alloc: Global,
    unknowns: &Unknowns,
    renames: &[Rename],
    settled: &[Option<Settled>],
    name: usize,
) -> Result<bool, NoMemory>
    requires bindings { AreBindings unknowns.now.types unknowns.now.subst.bound }
    requires there { AreThere unknowns.now.types settled.now }
    ensures { IfOk result (λ proper. IsTrue proper → IsProperAt (ending unknowns.now renames.now) (settled_at unknowns.now.types settled.now name)) }
{
    match settled_name(settled, name) {
        Some(found) => {
            let proper = is_proper(alloc, unknowns, renames, found)?;
            Ok(proper)
        }
        None => Ok(true),
    }
}

/// Checks that all settled schemes keep their variables.
pub(crate) fn are_proper(
    alloc: Global,
    unknowns: &Unknowns,
    renames: &[Rename],
    settled: &[Option<Settled>],
) -> Result<(), NoMemory>
    requires bindings { AreBindings unknowns.now.types unknowns.now.subst.bound }
    requires there { AreThere unknowns.now.types settled.now }
    ensures { IfOk result (λ _. (x : ℕ) → x < length settled.now → IsProperAt (ending unknowns.now renames.now) (settled_at unknowns.now.types settled.now x)) }
{
    'settled: for name in 0..settled.len() {
        if !is_proper_at(alloc, unknowns, renames, settled, name)? {
            return Err(NoMemory);
        }
    }
    Ok(())
}
