//! The names of matches.

ghost use Rattle.std.specs.Prelude.{◌≡◌, Some, List, ℕ, IfOk, IsTrue, [], get_or};
ghost use Rattle.std.specs.List.{AllByRecursion};
ghost use Rattle.sml_tree.specs.BareParts.{IsNumbered};
ghost use Rattle.sml_types.specs.Poly.{Context};
ghost use Rattle.sml_types.specs.declared.types.TyForm.{TyForm};
ghost use Rattle.sml_unify.specs.Solved.{AreBindings};
ghost use Rattle.infer_state.specs.Fits.{settled_at};
ghost use Rattle.infer_state.specs.Names.{names_bound};
ghost use Rattle.infer_state.specs.Variables.{AreLaidOut};
ghost use Rattle.infer_scopes.specs.Scopes.{contexts_of};
ghost use Rattle.infer_closing.specs.Closing.{meaning};
ghost use Rattle.infer_checks.specs.Ending.{Decides, HasVars, AreMatchedNames, IsKnownIfNamed};

use crate::known::are_known;
use infer_scopes::{Scopes, pattern_names};
use infer_state::{Settled, Starts, Unknowns};
use sml_tree::Bare;
use sml_tree::bare::Rule;
use smlc_base::NoMemory;
use std::alloc::Global;

// Whether a name is settled, and generalises nothing.
fn is_plain(settled: &[Option<Settled>], name: u32) -> bool
    ensures { (forms : List TyForm) → IsTrue result → HasVars [] (settled_at forms settled.now name) }
{
    match settled.get(name as usize) {
        Some(Some(found)) => found.scheme.vars.is_empty(),
        _ => false,
    }
}

/// Whether names are settled, and generalise nothing.
pub(crate) fn are_plain(settled: &[Option<Settled>], names: &[u32]) -> bool
    ensures { IsTrue result → (forms : List TyForm) → AllByRecursion (λ x. HasVars [] (settled_at forms settled.now x)) names.now }
{
    'names: for name in names {
        if !is_plain(settled, *name) {
            return false;
        }
    }
    true
}

// Whether the types of a pattern's names mention only type names that are there around a node. They are settled, and generalise nothing.
fn is_matched(
    alloc: Global,
    bare: &Bare,
    starts: &Starts,
    scopes: &Scopes,
    settled: &[Option<Settled>],
    unknowns: &Unknowns,
    node: u32,
    pat: u32,
) -> Result<bool, NoMemory>
    requires numbered { IsNumbered bare.now.nodes }
    requires bindings { AreBindings unknowns.now.types unknowns.now.subst.bound }
    requires laid { AreLaidOut bare.now unknowns.now.types starts.now }
    ensures { IfOk result (λ matched. (c : Context) → contexts_of scopes.now node ≡ Some c → Decides (AreMatchedNames bare.now (settled_at unknowns.now.types settled.now) (meaning unknowns.now) c (names_bound bare.now.nodes pat)) (AllByRecursion (IsKnownIfNamed bare.now (meaning unknowns.now) c) (names_bound bare.now.nodes pat)) matched) }
{
    let names = pattern_names(alloc, bare, pat)?;
    if !are_plain(settled, &names) {
        return Err(NoMemory);
    }
    let known = are_known(alloc, bare, starts, scopes, unknowns, node, &names)?;
    Ok(known)
}

/// Whether the types of a match's names mention only type names that are there around a node. They are settled, and generalise nothing.
pub(crate) fn are_matched(
    alloc: Global,
    bare: &Bare,
    starts: &Starts,
    scopes: &Scopes,
    settled: &[Option<Settled>],
    unknowns: &Unknowns,
    node: u32,
    rules: &[Rule],
) -> Result<bool, NoMemory>
    requires numbered { IsNumbered bare.now.nodes }
    requires bindings { AreBindings unknowns.now.types unknowns.now.subst.bound }
    requires laid { AreLaidOut bare.now unknowns.now.types starts.now }
    ensures { IfOk result (λ matched. (c : Context) → contexts_of scopes.now node ≡ Some c → Decides (AllByRecursion (λ r. AreMatchedNames bare.now (settled_at unknowns.now.types settled.now) (meaning unknowns.now) c (names_bound bare.now.nodes r.pat)) rules.now) (AllByRecursion (λ r. AllByRecursion (IsKnownIfNamed bare.now (meaning unknowns.now) c) (names_bound bare.now.nodes r.pat)) rules.now) matched) }
{
    'rules: for rule in rules {
        if !is_matched(
            alloc, bare, starts, scopes, settled, unknowns, node, rule.pat,
        )? {
            return Ok(false);
        }
    }
    Ok(true)
}
