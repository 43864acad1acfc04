//! The schemes of all names, from what inference ended with.

ghost use Rattle.std.specs.Prelude.{◌≡◌, ◌+◌, ◌^◌, ◌<◌, [], is_none, nat_eq, map, length, slice_get, IfOk};
ghost use Rattle.std.specs.List.{find};
ghost use Rattle.sml_unify.specs.Solved.{bound_at};
ghost use Rattle.sml_unify.specs.Resolve.{led_to, AreRenames};
ghost use Rattle.sml_unify.specs.Steps.{IsLonger};
ghost use Rattle.infer_state.specs.Fits.{joined_settled};
ghost use Rattle.sml_infer.specs.Schemes.{AreReady, are_free, var_renamed, IsRenamed, IsOpened, IsNamed, AreNamed};

use infer_state::{Settled, Starts};
use sml_tree::Bare;
use sml_types::{NameScheme, Scheme, Ty, TyVar, Types};
use sml_unify::resolve::resolve;
use sml_unify::{Rename, Subst};
use smlc_base::{Name, NoMemory, Row};
use std::alloc::Global;

// What a number is bound to.
fn bound_at(bound: &[Option<Ty>], num: u32) -> Option<Ty>
    ensures { result ≡ bound_at bound.now num }
{
    match bound.get(num as usize) {
        Some(found) => *found,
        None => None,
    }
}

// What the first rename of a number leads to.
fn rename_of(renames: &[Rename], num: u32) -> Option<TyVar>
    ensures { result ≡ led_to (find (λ r. nat_eq r.from num) renames.now) }
{
    renames
        .iter()
        .find(|rename| rename.from == num)
        .map(|rename| rename.to)
}

// What stands for a variable that is not bound.
fn renamed(renames: &[Rename], var: TyVar) -> TyVar
    ensures { result ≡ var_renamed renames.now var }
{
    match rename_of(renames, var.num) {
        Some(to) => to,
        None => var,
    }
}

fn is_free(subst: &Subst, var: TyVar) -> bool
    ensures { result ≡ is_none (bound_at subst.now.bound var.num) }
{
    bound_at(subst.bound.items(), var.num).is_none()
}

// Whether none of these variables is bound.
fn are_free(subst: &Subst, vars: &[TyVar]) -> bool
    ensures { result ≡ are_free subst.now.bound vars.now }
{
    vars.iter().all(|var| is_free(subst, *var))
}

fn renamed_vars(alloc: Global, renames: &[Rename], vars: &[TyVar]) -> Result<Row<TyVar>, NoMemory>
    ensures { IfOk result (λ made. made ≡ map (λ v. var_renamed renames.now v) vars.now) }
{
    let mut made = Row::new(alloc);
    'each: for var in vars {
        made.push(renamed(renames, *var))?;
    }
    Ok(made)
}

// A scheme with its variables renamed. What a scheme generalises is not bound in the end.
#[tactic(auto, using(crate::proofs::Naming::renamed_by))]
fn renamed_scheme(
    alloc: Global,
    subst: &Subst,
    renames: &[Rename],
    scheme: &Scheme,
) -> Result<Scheme, NoMemory>
    ensures { IfOk result (IsRenamed subst.now.bound renames.now scheme.now) }
{
    let vars = scheme.vars.items();
    if !are_free(subst, vars) {
        return Err(NoMemory);
    }
    let vars = renamed_vars(alloc, renames, vars)?;
    let body = scheme.body;
    Ok(Scheme { vars, body })
}

// The type of a name's variable alone.
fn alone(alloc: Global, starts: &Starts, name: u32) -> Scheme
    requires fits { starts.now.names + name < 2 ^ 32 }
    ensures vars { result.vars ≡ [] }
    ensures body { result.body.0 ≡ starts.now.names + name }
{
    Scheme {
        vars: Row::new(alloc),
        body: Ty(starts.names + name),
    }
}

// The scheme that a name was settled with, or the type of its variable alone.
#[tactic(auto, using(crate::proofs::Naming::opened_some, crate::proofs::Naming::opened_none))]
fn opened(
    alloc: Global,
    subst: &Subst,
    renames: &[Rename],
    starts: &Starts,
    settled: &[Option<Settled>],
    name: u32,
) -> Result<Scheme, NoMemory>
    requires fits { starts.now.names + name < 2 ^ 32 }
    ensures { IfOk result (IsOpened subst.now.bound renames.now starts.now (joined_settled (slice_get settled.now name)) name) }
{
    match settled.get(name as usize) {
        Some(Some(found)) => {
            let scheme = renamed_scheme(alloc, subst, renames, &found.scheme)?;
            Ok(scheme)
        }
        Some(None) => Ok(alone(alloc, starts, name)),
        None => Ok(alone(alloc, starts, name)),
    }
}

// Writes the scheme of a name as it is in the end.
#[tactic(auto, using(crate::proofs::Naming::opened_there, crate::proofs::Naming::name_fits))]
fn name_scheme(
    alloc: Global,
    bare: &Bare,
    types: &mut Types,
    subst: &Subst,
    starts: &Starts,
    settled: &[Option<Settled>],
    renames: &[Rename],
    name: u32,
) -> Result<NameScheme, NoMemory>
    requires ready { AreReady bare.now types.old subst.now.bound renames.now starts.now settled.now }
    requires name { name < length bare.now.names }
    ensures longer { IfOk result (λ _. IsLonger types.old types.new) }
    ensures renames { IfOk result (λ _. AreRenames types.new renames.now) }
    ensures named { IfOk result (IsNamed bare.now types.old types.new subst.now.bound renames.now settled.now name) }
{
    // Opens the invariant of the types.
    let _ = types.forms();
    let opened = opened(alloc, subst, renames, starts, settled, name)?;
    let resolved = resolve(alloc, types, subst, renames, opened.body)?;
    let vars = opened.vars;
    let body = resolved.ty;
    Ok(NameScheme {
        name: Name(name),
        scheme: Scheme { vars, body },
    })
}

/// The schemes of all names, in order.
#[tactic(auto, using(crate::proofs::Naming::number_fits))]
pub(crate) fn name_schemes(
    alloc: Global,
    bare: &Bare,
    types: &mut Types,
    subst: &Subst,
    starts: &Starts,
    settled: &[Option<Settled>],
    renames: &[Rename],
) -> Result<Vec<NameScheme>, NoMemory>
    requires ready { AreReady bare.now types.old subst.now.bound renames.now starts.now settled.now }
    ensures longer { IfOk result (λ _. IsLonger types.old types.new) }
    ensures count { IfOk result (λ schemes. length schemes.items ≡ length bare.now.names) }
    ensures named { IfOk result (λ schemes. AreNamed bare.now types.old types.new subst.now.bound renames.now settled.now schemes.items) }
{
    let mut schemes = Vec::new(alloc);
    'names: for at in 0..bare.names.len() {
        let name = at as u32;
        let scheme = name_scheme(alloc, bare, types, subst, starts, settled, renames, name)?;
        schemes.push(scheme)?;
    }
    Ok(schemes)
}
