//! What a context leaves open.

ghost use Rattle.std.specs.Prelude.{◌≡◌, ◌<◌, ℕ, [], Some, None, false, IfOk, IfSome, length, slice_get};
ghost use Rattle.std.specs.List.{AllByRecursion};
ghost use Rattle.sml_types.specs.Forms.{tree};
ghost use Rattle.sml_types.specs.Poly.{Context};
ghost use Rattle.sml_types.specs.TypeExps.{explicit, all_explicit};
ghost use Rattle.sml_unify.specs.Solved.{AreBindings, bound_at};
ghost use Rattle.sml_unify.specs.Variables.{Stands};
ghost use Rattle.infer_state.specs.Fits.{AreThere, joined_settled, settled_at};
ghost use Rattle.infer_state.specs.Variables.{AreLaidOut, name_var};
ghost use Rattle.infer_scopes.specs.Scopes.{contexts_of, AllOpen};
ghost use Rattle.infer_closing.specs.Closing.{meaning};
ghost use Rattle.infer_closing.specs.Open.{IsLeftBy, closed_at};
ghost use Rattle.infer_closing.specs.Left.{Gets, IsLeftIn, IsLeftByOne, AreLeftOpen, StandsInOne, AreOpen, AreWaiting};

use crate::found::name_ty;
use crate::group::Group;
use crate::vars::{add_all, add_others};
use infer_scopes::Scopes;
use infer_state::{Settled, Starts, Unknowns};
use sml_tree::Bare;
use sml_types::{Scheme, Ty, TyForm, TyVar, Types};
use sml_unify::Subst;
use sml_unify::variables::variables;
use smlc_base::{Name, NoMemory, Row};
use std::alloc::Global;

fn explicit_var(bare: &Bare, number: u32) -> Result<TyVar, NoMemory>
    ensures { IfOk result (λ v. (number < length bare.now.tyvars) × (v ≡ explicit bare.now.tyvars number)) }
{
    let marks = bare.tyvars.items();
    if number as usize >= marks.len() {
        return Err(NoMemory);
    }
    Ok(TyVar {
        num: number,
        eq: marks[number as usize],
    })
}

fn explicit_vars(alloc: Global, bare: &Bare, tyvars: &[u32]) -> Result<Row<TyVar>, NoMemory>
    ensures is { IfOk result (λ vars. vars ≡ all_explicit bare.now.tyvars tyvars.now) }
    ensures there { IfOk result (λ _. AllByRecursion (λ u. u < length bare.now.tyvars) tyvars.now) }
{
    let mut vars = Row::new(alloc);
    'tyvars: for number in tyvars {
        let var = explicit_var(bare, *number)?;
        vars.push(var)?;
    }
    Ok(vars)
}

// Puts the variables last that a scheme does not generalise.
fn add_scheme(
    alloc: Global,
    types: &Types,
    scheme: &Scheme,
    left: &mut Row<TyVar>,
) -> Result<(), NoMemory>
    requires { scheme.now.body.0 < length types.now }
    ensures { IfOk result (λ _. Gets (IsLeftIn scheme.now.vars (tree types.now scheme.now.body.0)) left.old left.new) }
{
    let none = Subst::new(alloc);
    let vars = variables(alloc, types, &none, scheme.body)?;
    add_others(left, scheme.vars.items(), &vars)?;
    Ok(())
}

// Puts the variable of a name last, inside its own recursive declaration.
fn add_own(
    bare: &Bare,
    scopes: &Scopes,
    starts: &Starts,
    types: &Types,
    node: u32,
    name: u32,
    left: &mut Row<TyVar>,
) -> Result<(), NoMemory>
    requires { AreLaidOut bare.now types.now starts.now }
    ensures { IfOk result (λ _. (c : Context) → contexts_of scopes.now node ≡ Some c → Gets (λ w. IsLeftBy bare.now c w name None) left.old left.new) }
{
    if !scopes.is_own(node, Name(name)) {
        return Err(NoMemory);
    }
    let ty = name_ty(bare, starts, name)?;
    match types.form(ty) {
        TyForm::Var(var) => {
            left.push(*var)?;
            Ok(())
        }
        _ => Err(NoMemory),
    }
}

// What a name is settled as.
fn settled_as(settled: &[Option<Settled>], name: u32) -> Option<&Settled>
    ensures some { IfSome result (λ s. joined_settled (slice_get settled.now name) ≡ Some s.now) }
    ensures none { result ≡ None → joined_settled (slice_get settled.now name) ≡ None }
{
    match settled.get(name as usize) {
        Some(Some(found)) => Some(found),
        _ => None,
    }
}

// Puts the variables last that a name leaves open.
fn add_name(
    alloc: Global,
    bare: &Bare,
    scopes: &Scopes,
    starts: &Starts,
    settled: &[Option<Settled>],
    types: &Types,
    node: u32,
    name: u32,
    left: &mut Row<TyVar>,
) -> Result<(), NoMemory>
    requires laid { AreLaidOut bare.now types.now starts.now }
    requires there { AreThere types.now settled.now }
    ensures { IfOk result (λ _. (c : Context) → contexts_of scopes.now node ≡ Some c → Gets (λ w. IsLeftBy bare.now c w name (settled_at types.now settled.now name)) left.old left.new) }
{
    match settled_as(settled, name) {
        Some(found) => {
            add_scheme(alloc, types, &found.scheme, left)?;
            Ok(())
        }
        None => {
            add_own(bare, scopes, starts, types, node, name, left)?;
            Ok(())
        }
    }
}

fn add_names(
    alloc: Global,
    bare: &Bare,
    scopes: &Scopes,
    starts: &Starts,
    settled: &[Option<Settled>],
    types: &Types,
    node: u32,
    names: &[u32],
    left: &mut Row<TyVar>,
) -> Result<(), NoMemory>
    requires laid { AreLaidOut bare.now types.now starts.now }
    requires there { AreThere types.now settled.now }
    ensures { IfOk result (λ _. (c : Context) → contexts_of scopes.now node ≡ Some c → Gets (IsLeftByOne bare.now (settled_at types.now settled.now) c names.now) left.old left.new) }
{
    'names: for name in names {
        add_name(
            alloc, bare, scopes, starts, settled, types, node, *name, left,
        )?;
    }
    Ok(())
}

// The variables that the context of a node leaves open.
fn left_open(
    alloc: Global,
    bare: &Bare,
    scopes: &Scopes,
    starts: &Starts,
    settled: &[Option<Settled>],
    types: &Types,
    node: u32,
) -> Result<Row<TyVar>, NoMemory>
    requires laid { AreLaidOut bare.now types.now starts.now }
    requires there { AreThere types.now settled.now }
    ensures { IfOk result (λ left. (c : Context) → contexts_of scopes.now node ≡ Some c → AreLeftOpen bare.now (settled_at types.now settled.now) c (AllOpen (closed_at (settled_at types.now settled.now)) scopes.now) left) }
{
    let tyvars = scopes.tyvars(alloc, node)?;
    let names = scopes.open_names(alloc, node)?;
    let mut left = explicit_vars(alloc, bare, &tyvars)?;
    add_names(
        alloc, bare, scopes, starts, settled, types, node, &names, &mut left,
    )?;
    Ok(left)
}

fn bound_to(subst: &Subst, var: TyVar) -> Option<Ty>
    ensures { result ≡ bound_at subst.now.bound var.num }
{
    match subst.bound.items().get(var.num as usize) {
        Some(bound) => *bound,
        None => None,
    }
}

// Puts the variables last that stand in what a variable stands for.
fn add_meant(
    alloc: Global,
    unknowns: &Unknowns,
    var: TyVar,
    found: &mut Row<TyVar>,
) -> Result<(), NoMemory>
    requires { AreBindings unknowns.now.types unknowns.now.subst.bound }
    ensures { IfOk result (λ _. Gets (λ v. Stands v (meaning unknowns.now var)) found.old found.new) }
{
    match bound_to(&unknowns.subst, var) {
        Some(ty) => {
            let more = variables(alloc, &unknowns.types, &unknowns.subst, ty)?;
            add_all(found, &more)?;
            Ok(())
        }
        None => {
            found.push(var)?;
            Ok(())
        }
    }
}

fn all_meant(alloc: Global, unknowns: &Unknowns, vars: &[TyVar]) -> Result<Row<TyVar>, NoMemory>
    requires { AreBindings unknowns.now.types unknowns.now.subst.bound }
    ensures { IfOk result (λ found. Gets (StandsInOne (meaning unknowns.now) vars.now) [] found) }
{
    let mut found = Row::new(alloc);
    'vars: for var in vars {
        add_meant(alloc, unknowns, *var, &mut found)?;
    }
    Ok(found)
}

// Whether a name may generalise something.
fn any_waits(groups: &[Group]) -> bool
    ensures { result ≡ false → AllByRecursion (λ g. g.vars ≡ []) groups.now }
{
    'groups: for group in groups {
        if !group.vars.is_empty() {
            return true;
        }
    }
    false
}

/// The variables that stand in what the context of a node leaves open; none are looked for where nothing may be generalised.
pub(crate) fn open_around(
    alloc: Global,
    bare: &Bare,
    scopes: &Scopes,
    starts: &Starts,
    settled: &[Option<Settled>],
    unknowns: &Unknowns,
    node: u32,
    groups: &[Group],
) -> Result<Row<TyVar>, NoMemory>
    requires bindings { AreBindings unknowns.now.types unknowns.now.subst.bound }
    requires laid { AreLaidOut bare.now unknowns.now.types starts.now }
    requires there { AreThere unknowns.now.types settled.now }
    ensures { IfOk result (λ found. (c : Context) → contexts_of scopes.now node ≡ Some c → AreOpen bare.now (settled_at unknowns.now.types settled.now) c (meaning unknowns.now) (AllOpen (closed_at (settled_at unknowns.now.types settled.now)) scopes.now × AreWaiting groups.now) found) }
{
    if !any_waits(groups) {
        return Ok(Row::new(alloc));
    }
    let left = left_open(alloc, bare, scopes, starts, settled, &unknowns.types, node)?;
    let found = all_meant(alloc, unknowns, left.items())?;
    Ok(found)
}
