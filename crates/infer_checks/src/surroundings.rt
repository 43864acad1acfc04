//! What stands open in the context of a node at the end.

ghost use Rattle.std.specs.Prelude.{◌≡◌, ◌<◌, ◌++◌, true, false, List, ℕ, Some, length, IfOk, IsTrue};
ghost use Rattle.std.specs.List.{AllByRecursion};
ghost use Rattle.sml_types.specs.Poly.{Context, Poly, is_in};
ghost use Rattle.sml_types.specs.Tree.{occurs};
ghost use Rattle.sml_unify.specs.Solved.{AreBindings};
ghost use Rattle.infer_state.specs.Fits.{AreThere, settled_at};
ghost use Rattle.infer_state.specs.Variables.{AreLaidOut, name_var};
ghost use Rattle.infer_scopes.specs.Scopes.{contexts_of, AllOpen};
ghost use Rattle.infer_closing.specs.Open.{closed_at};
ghost use Rattle.infer_checks.specs.Checked.{ending};
ghost use Rattle.infer_checks.specs.Ending.{Lists, IsOpenType, IsOpenTypeAmong, IsOpenName, IsOpenNameAmong, IsSettledOrOwn, AreOpenAround};

use crate::known::name_ty;
use crate::numbers::type_numbers;
use crate::open::open_numbers;
use crate::proper::settled_name;
use infer_scopes::Scopes;
use infer_state::{Settled, Starts, Unknowns};
use sml_tree::Bare;
use sml_unify::resolve::Rename;
use smlc_base::{Name, NoMemory};
use std::alloc::Global;

// Adds the numbers of the variables that stand in the type of a name.
fn add_type(
    alloc: Global,
    bare: &Bare,
    starts: &Starts,
    unknowns: &Unknowns,
    renames: &[Rename],
    name: u32,
    numbers: &mut Vec<u32>,
) -> Result<(), NoMemory>
    requires bindings { AreBindings unknowns.now.types unknowns.now.subst.bound }
    requires laid { AreLaidOut bare.now unknowns.now.types starts.now }
    ensures lists { IfOk result (λ _. (more : List ℕ) × (numbers.new.items ≡ numbers.old.items ++ more) × Lists (IsOpenType bare.now (ending unknowns.now renames.now) name) more) }
    ensures few { IfOk result (λ _. name < length bare.now.names) }
{
    // What holds of all forms.
    let _ = unknowns.types.forms();
    let ty = name_ty(bare, starts, name)?;
    let mut more = type_numbers(alloc, unknowns, renames, ty)?;
    numbers.append(&mut more)?;
    Ok(())
}

// The numbers of the variables that stand in the types of names.
fn types_numbers(
    alloc: Global,
    bare: &Bare,
    starts: &Starts,
    unknowns: &Unknowns,
    renames: &[Rename],
    names: &[u32],
) -> Result<Vec<u32>, NoMemory>
    requires bindings { AreBindings unknowns.now.types unknowns.now.subst.bound }
    requires laid { AreLaidOut bare.now unknowns.now.types starts.now }
    ensures lists { IfOk result (λ numbers. Lists (IsOpenTypeAmong bare.now (ending unknowns.now renames.now) names.now) numbers.items) }
    ensures few { IfOk result (λ _. AllByRecursion (λ x. x < length bare.now.names) names.now) }
{
    let mut numbers = Vec::new(alloc);
    'names: for name in names {
        add_type(alloc, bare, starts, unknowns, renames, *name, &mut numbers)?;
    }
    Ok(numbers)
}

// Adds the numbers of what a name leaves open, if it is settled; if not, its recursive declaration is around.
fn add_left(
    alloc: Global,
    scopes: &Scopes,
    settled: &[Option<Settled>],
    unknowns: &Unknowns,
    renames: &[Rename],
    node: u32,
    name: u32,
    numbers: &mut Vec<u32>,
) -> Result<(), NoMemory>
    requires bindings { AreBindings unknowns.now.types unknowns.now.subst.bound }
    requires there { AreThere unknowns.now.types settled.now }
    ensures lists { IfOk result (λ _. (more : List ℕ) × (numbers.new.items ≡ numbers.old.items ++ more) × Lists (IsOpenName (settled_at unknowns.now.types settled.now) (ending unknowns.now renames.now) name) more) }
    ensures settled { IfOk result (λ _. (c : Context) → contexts_of scopes.now node ≡ Some c → IsSettledOrOwn (settled_at unknowns.now.types settled.now) c name) }
{
    match settled_name(settled, name as usize) {
        Some(found) => {
            let mut more = open_numbers(alloc, unknowns, renames, found)?;
            numbers.append(&mut more)?;
            Ok(())
        }
        None => {
            if scopes.is_own(node, Name(name)) {
                Ok(())
            } else {
                Err(NoMemory)
            }
        }
    }
}

// The numbers of what names leave open.
fn left_numbers(
    alloc: Global,
    scopes: &Scopes,
    settled: &[Option<Settled>],
    unknowns: &Unknowns,
    renames: &[Rename],
    node: u32,
    names: &[u32],
) -> Result<Vec<u32>, NoMemory>
    requires bindings { AreBindings unknowns.now.types unknowns.now.subst.bound }
    requires there { AreThere unknowns.now.types settled.now }
    ensures lists { IfOk result (λ numbers. Lists (IsOpenNameAmong (settled_at unknowns.now.types settled.now) (ending unknowns.now renames.now) names.now) numbers.items) }
    ensures settled { IfOk result (λ _. (c : Context) → contexts_of scopes.now node ≡ Some c → AllByRecursion (IsSettledOrOwn (settled_at unknowns.now.types settled.now) c) names.now) }
{
    let mut numbers = Vec::new(alloc);
    'names: for name in names {
        add_left(
            alloc,
            scopes,
            settled,
            unknowns,
            renames,
            node,
            *name,
            &mut numbers,
        )?;
    }
    Ok(numbers)
}

// Whether all these names are bound around a node.
fn are_bound(scopes: &Scopes, node: u32, names: &[u32]) -> bool
    ensures { IsTrue result → (c : Context) → contexts_of scopes.now node ≡ Some c → AllByRecursion (λ x. is_in c.names x ≡ true) names.now }
{
    'names: for name in names {
        if !scopes.is_bound(node, Name(*name)) {
            return false;
        }
    }
    true
}

/// The numbers of the variables that stand open in the context of a node.
pub(crate) fn around(
    alloc: Global,
    bare: &Bare,
    starts: &Starts,
    scopes: &Scopes,
    settled: &[Option<Settled>],
    unknowns: &Unknowns,
    renames: &[Rename],
    node: u32,
) -> Result<Vec<u32>, NoMemory>
    requires bindings { AreBindings unknowns.now.types unknowns.now.subst.bound }
    requires laid { AreLaidOut bare.now unknowns.now.types starts.now }
    requires there { AreThere unknowns.now.types settled.now }
    requires closed { AllOpen (closed_at (settled_at unknowns.now.types settled.now)) scopes.now }
    ensures { IfOk result (λ numbers. (c : Context) → contexts_of scopes.now node ≡ Some c → AreOpenAround bare.now (settled_at unknowns.now.types settled.now) (ending unknowns.now renames.now) c numbers.items) }
{
    let own = scopes.own_names(alloc, node)?;
    if !are_bound(scopes, node, &own) {
        return Err(NoMemory);
    }
    let mut numbers = types_numbers(alloc, bare, starts, unknowns, renames, &own)?;
    let names = scopes.open_names(alloc, node)?;
    let mut left = left_numbers(alloc, scopes, settled, unknowns, renames, node, &names)?;
    numbers.append(&mut left)?;
    Ok(numbers)
}
