//! Whether type variables are new around a node.

ghost use Rattle.std.specs.Prelude.{◌≡◌, ◌<◌, Some, length, IfOk, IsTrue};
ghost use Rattle.std.specs.List.{AllByRecursion};
ghost use Rattle.sml_types.specs.Poly.{Context};
ghost use Rattle.sml_unify.specs.Solved.{AreBindings};
ghost use Rattle.infer_state.specs.Fits.{AreThere, settled_at};
ghost use Rattle.infer_state.specs.Typings.{var_at};
ghost use Rattle.infer_state.specs.Variables.{AreLaidOut};
ghost use Rattle.infer_scopes.specs.Scopes.{contexts_of, AllOpen};
ghost use Rattle.infer_closing.specs.Open.{closed_at};
ghost use Rattle.infer_checks.specs.Checked.{ending};
ghost use Rattle.infer_checks.specs.Ending.{Decides, IsOutside, IsNewAround, MayBeNew};

use crate::proper::{are_kept, is_in};
use crate::surroundings::around;
use infer_scopes::Scopes;
use infer_state::{Settled, Starts, Unknowns};
use sml_tree::Bare;
use sml_types::TyVar;
use sml_unify::resolve::Rename;
use smlc_base::NoMemory;
use std::alloc::Global;

/// Whether what is generalised is new around a node.
pub(crate) fn are_new(
    alloc: Global,
    bare: &Bare,
    starts: &Starts,
    scopes: &Scopes,
    settled: &[Option<Settled>],
    unknowns: &Unknowns,
    renames: &[Rename],
    node: u32,
    vars: &[TyVar],
) -> Result<bool, NoMemory>
    requires bindings { AreBindings unknowns.now.types unknowns.now.subst.bound }
    requires laid { AreLaidOut bare.now unknowns.now.types starts.now }
    requires there { AreThere unknowns.now.types settled.now }
    requires closed { AllOpen (closed_at (settled_at unknowns.now.types settled.now)) scopes.now }
    ensures { IfOk result (λ new. IsTrue new → (c : Context) → contexts_of scopes.now node ≡ Some c → AllByRecursion (λ v. IsNewAround bare.now (settled_at unknowns.now.types settled.now) (ending unknowns.now renames.now) c (var_at v (ending unknowns.now renames.now v)).num) vars.now) }
{
    if vars.is_empty() {
        return Ok(true);
    }
    let numbers = around(
        alloc, bare, starts, scopes, settled, unknowns, renames, node,
    )?;
    let tyvars = scopes.tyvars(alloc, node)?;
    if !are_kept(unknowns, renames, &numbers, vars) {
        return Ok(false);
    }
    Ok(are_kept(unknowns, renames, &tyvars, vars))
}

/// Whether explicit type variables stand in neither of these lists.
pub(crate) fn are_outside(
    bare: &Bare,
    numbers: &[u32],
    others: &[u32],
    tyvars: &[u32],
) -> Result<bool, NoMemory>
    ensures { IfOk result (λ outside. Decides (AllByRecursion (IsOutside numbers.now others.now) tyvars.now) (AllByRecursion (λ u. u < length bare.now.tyvars → IsOutside numbers.now others.now u) tyvars.now) outside) }
{
    'tyvars: for tyvar in tyvars {
        if *tyvar as usize >= bare.tyvars.len() {
            return Err(NoMemory);
        }
        if is_in(numbers, *tyvar) || is_in(others, *tyvar) {
            return Ok(false);
        }
    }
    Ok(true)
}

/// Whether explicit type variables are new around a node.
pub(crate) fn are_explicit_new(
    alloc: Global,
    bare: &Bare,
    starts: &Starts,
    scopes: &Scopes,
    settled: &[Option<Settled>],
    unknowns: &Unknowns,
    renames: &[Rename],
    node: u32,
    tyvars: &[u32],
) -> Result<bool, NoMemory>
    requires bindings { AreBindings unknowns.now.types unknowns.now.subst.bound }
    requires laid { AreLaidOut bare.now unknowns.now.types starts.now }
    requires there { AreThere unknowns.now.types settled.now }
    requires closed { AllOpen (closed_at (settled_at unknowns.now.types settled.now)) scopes.now }
    ensures { IfOk result (λ new. (c : Context) → contexts_of scopes.now node ≡ Some c → Decides (AllByRecursion (IsNewAround bare.now (settled_at unknowns.now.types settled.now) (ending unknowns.now renames.now) c) tyvars.now) (AllByRecursion (MayBeNew bare.now (settled_at unknowns.now.types settled.now) (ending unknowns.now renames.now) c) tyvars.now) new) }
{
    if tyvars.is_empty() {
        return Ok(true);
    }
    let numbers = around(
        alloc, bare, starts, scopes, settled, unknowns, renames, node,
    )?;
    let others = scopes.tyvars(alloc, node)?;
    let outside = are_outside(bare, &numbers, &others, tyvars)?;
    Ok(outside)
}
