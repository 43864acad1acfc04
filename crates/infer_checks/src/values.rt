//! What a value declaration generalises, and its explicit type variables.

ghost use Rattle.std.specs.Prelude.{◌≡◌, ◌⊎◌, true, Some, List, [], ◌∷◌, IfOk, IsTrue};
ghost use Rattle.std.specs.List.{AllByRecursion};
ghost use Rattle.sml_tree.specs.BareParts.{IsNumbered};
ghost use Rattle.sml_types.specs.Poly.{Context};
ghost use Rattle.sml_types.specs.declared.types.TyForm.{TyForm};
ghost use Rattle.sml_unify.specs.Solved.{AreBindings};
ghost use Rattle.infer_parts.specs.Plain.{plain_at, IsPlainTable};
ghost use Rattle.infer_state.specs.Fits.{AreThere, settled_at};
ghost use Rattle.infer_state.specs.Names.{names_bound};
ghost use Rattle.infer_state.specs.Variables.{AreLaidOut};
ghost use Rattle.infer_scopes.specs.Scopes.{contexts_of, AllOpen};
ghost use Rattle.infer_closing.specs.Closing.{meaning};
ghost use Rattle.infer_closing.specs.Open.{closed_at};
ghost use Rattle.infer_checks.specs.Checked.{ending};
ghost use Rattle.infer_checks.specs.Ending.{Decides, HasVars};
ghost use Rattle.infer_checks.specs.Node.{general_vars, IsGeneralised, IsLeftOut, MayBeLeftOut, AreLeftOut, MayBeAllLeftOut, IsDeclaredWell, MayBeDeclared};

use crate::fresh::{are_explicit_new, are_new, are_outside};
use crate::known::are_known;
use crate::open::open_numbers;
use crate::proper::settled_name;
use infer_scopes::{Scopes, pattern_names};
use infer_state::{Settled, Starts, Unknowns};
use sml_tree::Bare;
use sml_tree::bare::{Binding, RecBinding};
use sml_types::TyVar;
use sml_unify::resolve::Rename;
use smlc_base::{NoMemory, Row};
use std::alloc::Global;

// The variables that a right side generalises.
fn general_vars(general: &[Option<Row<TyVar>>], right: u32) -> &[TyVar]
    ensures { result.now ≡ general_vars general.now right }
{
    match general.get(right as usize) {
        Some(Some(vars)) => vars.items(),
        _ => &[],
    }
}

// Whether a right side is non-expansive.
fn is_plain(plain: &[bool], right: u32) -> bool
    ensures { result ≡ plain_at plain.now right }
{
    (right as usize) < plain.len() && plain[right as usize]
}

// Whether a right side may generalise these variables.
fn may_generalise(plain: &[bool], vars: &[TyVar], right: u32) -> bool
    ensures { IsTrue result → (vars.now ≡ []) ⊎ (plain_at plain.now right ≡ true) }
{
    vars.is_empty() || is_plain(plain, right)
}

// Whether two lists of variables are the same.
fn are_same(vars: &[TyVar], others: &[TyVar]) -> bool
    ensures { IsTrue result → vars.now ≡ others.now }
{
    vars == others
}

// Whether a name is settled, and generalises these variables.
fn has_vars(settled: &[Option<Settled>], vars: &[TyVar], name: u32) -> bool
    ensures { (forms : List TyForm) → IsTrue result → HasVars vars.now (settled_at forms settled.now name) }
{
    match settled_name(settled, name as usize) {
        Some(found) => are_same(found.scheme.vars.items(), vars),
        None => false,
    }
}

// Whether names are settled, and all generalise these variables.
fn have_vars(settled: &[Option<Settled>], vars: &[TyVar], names: &[u32]) -> bool
    ensures { IsTrue result → (forms : List TyForm) → AllByRecursion (λ x. HasVars vars.now (settled_at forms settled.now x)) names.now }
{
    'names: for name in names {
        if !has_vars(settled, vars, *name) {
            return false;
        }
    }
    true
}

// Checks what a right side generalises, and that these names generalise the same.
fn check_general(
    alloc: Global,
    bare: &Bare,
    starts: &Starts,
    scopes: &Scopes,
    plain: &[bool],
    settled: &[Option<Settled>],
    general: &[Option<Row<TyVar>>],
    unknowns: &Unknowns,
    renames: &[Rename],
    node: u32,
    right: u32,
    names: &[u32],
) -> Result<(), NoMemory>
    requires bindings { AreBindings unknowns.now.types unknowns.now.subst.bound }
    requires laid { AreLaidOut bare.now unknowns.now.types starts.now }
    requires there { AreThere unknowns.now.types settled.now }
    requires plain { IsPlainTable bare.now.nodes plain.now }
    requires closed { AllOpen (closed_at (settled_at unknowns.now.types settled.now)) scopes.now }
    ensures { IfOk result (λ _. (c : Context) → contexts_of scopes.now node ≡ Some c → IsGeneralised bare.now (settled_at unknowns.now.types settled.now) (ending unknowns.now renames.now) general.now c right names.now) }
{
    let vars = general_vars(general, right);
    if !may_generalise(plain, vars, right) {
        return Err(NoMemory);
    }
    if !have_vars(settled, vars, names) {
        return Err(NoMemory);
    }
    if !are_new(
        alloc, bare, starts, scopes, settled, unknowns, renames, node, vars,
    )? {
        return Err(NoMemory);
    }
    Ok(())
}

// Checks what a binding generalises.
fn check_binding(
    alloc: Global,
    bare: &Bare,
    starts: &Starts,
    scopes: &Scopes,
    plain: &[bool],
    settled: &[Option<Settled>],
    general: &[Option<Row<TyVar>>],
    unknowns: &Unknowns,
    renames: &[Rename],
    node: u32,
    binding: Binding,
) -> Result<(), NoMemory>
    requires numbered { IsNumbered bare.now.nodes }
    requires bindings { AreBindings unknowns.now.types unknowns.now.subst.bound }
    requires laid { AreLaidOut bare.now unknowns.now.types starts.now }
    requires there { AreThere unknowns.now.types settled.now }
    requires plain { IsPlainTable bare.now.nodes plain.now }
    requires closed { AllOpen (closed_at (settled_at unknowns.now.types settled.now)) scopes.now }
    ensures { IfOk result (λ _. (c : Context) → contexts_of scopes.now node ≡ Some c → IsGeneralised bare.now (settled_at unknowns.now.types settled.now) (ending unknowns.now renames.now) general.now c binding.right (names_bound bare.now.nodes binding.pat)) }
{
    let names = pattern_names(alloc, bare, binding.pat)?;
    let right = binding.right;
    check_general(
        alloc, bare, starts, scopes, plain, settled, general, unknowns, renames, node, right,
        &names,
    )?;
    Ok(())
}

/// Checks what the bindings of a declaration generalise.
pub(crate) fn check_bindings(
    alloc: Global,
    bare: &Bare,
    starts: &Starts,
    scopes: &Scopes,
    plain: &[bool],
    settled: &[Option<Settled>],
    general: &[Option<Row<TyVar>>],
    unknowns: &Unknowns,
    renames: &[Rename],
    node: u32,
    bindings: &[Binding],
) -> Result<(), NoMemory>
    requires numbered { IsNumbered bare.now.nodes }
    requires bindings { AreBindings unknowns.now.types unknowns.now.subst.bound }
    requires laid { AreLaidOut bare.now unknowns.now.types starts.now }
    requires there { AreThere unknowns.now.types settled.now }
    requires plain { IsPlainTable bare.now.nodes plain.now }
    requires closed { AllOpen (closed_at (settled_at unknowns.now.types settled.now)) scopes.now }
    ensures { IfOk result (λ _. (c : Context) → contexts_of scopes.now node ≡ Some c → AllByRecursion (λ b. IsGeneralised bare.now (settled_at unknowns.now.types settled.now) (ending unknowns.now renames.now) general.now c b.right (names_bound bare.now.nodes b.pat)) bindings.now) }
{
    'bindings: for binding in bindings {
        check_binding(
            alloc, bare, starts, scopes, plain, settled, general, unknowns, renames, node, *binding,
        )?;
    }
    Ok(())
}

// Checks what a recursive binding generalises.
fn check_rec_binding(
    alloc: Global,
    bare: &Bare,
    starts: &Starts,
    scopes: &Scopes,
    plain: &[bool],
    settled: &[Option<Settled>],
    general: &[Option<Row<TyVar>>],
    unknowns: &Unknowns,
    renames: &[Rename],
    node: u32,
    binding: RecBinding,
) -> Result<(), NoMemory>
    requires bindings { AreBindings unknowns.now.types unknowns.now.subst.bound }
    requires laid { AreLaidOut bare.now unknowns.now.types starts.now }
    requires there { AreThere unknowns.now.types settled.now }
    requires plain { IsPlainTable bare.now.nodes plain.now }
    requires closed { AllOpen (closed_at (settled_at unknowns.now.types settled.now)) scopes.now }
    ensures { IfOk result (λ _. (c : Context) → contexts_of scopes.now node ≡ Some c → IsGeneralised bare.now (settled_at unknowns.now.types settled.now) (ending unknowns.now renames.now) general.now c binding.right (binding.name.0 ∷ [])) }
{
    let names = [binding.name.0];
    let right = binding.right;
    check_general(
        alloc, bare, starts, scopes, plain, settled, general, unknowns, renames, node, right,
        &names,
    )?;
    Ok(())
}

/// Checks what the bindings of a recursive declaration generalise.
pub(crate) fn check_rec_bindings(
    alloc: Global,
    bare: &Bare,
    starts: &Starts,
    scopes: &Scopes,
    plain: &[bool],
    settled: &[Option<Settled>],
    general: &[Option<Row<TyVar>>],
    unknowns: &Unknowns,
    renames: &[Rename],
    node: u32,
    bindings: &[RecBinding],
) -> Result<(), NoMemory>
    requires bindings { AreBindings unknowns.now.types unknowns.now.subst.bound }
    requires laid { AreLaidOut bare.now unknowns.now.types starts.now }
    requires there { AreThere unknowns.now.types settled.now }
    requires plain { IsPlainTable bare.now.nodes plain.now }
    requires closed { AllOpen (closed_at (settled_at unknowns.now.types settled.now)) scopes.now }
    ensures { IfOk result (λ _. (c : Context) → contexts_of scopes.now node ≡ Some c → AllByRecursion (λ b. IsGeneralised bare.now (settled_at unknowns.now.types settled.now) (ending unknowns.now renames.now) general.now c b.right (b.name.0 ∷ [])) bindings.now) }
{
    'bindings: for binding in bindings {
        check_rec_binding(
            alloc, bare, starts, scopes, plain, settled, general, unknowns, renames, node, *binding,
        )?;
    }
    Ok(())
}

// Whether a name leaves none of these explicit type variables open. It is settled.
fn leaves_out(
    alloc: Global,
    bare: &Bare,
    settled: &[Option<Settled>],
    unknowns: &Unknowns,
    renames: &[Rename],
    tyvars: &[u32],
    name: u32,
) -> Result<bool, NoMemory>
    requires bindings { AreBindings unknowns.now.types unknowns.now.subst.bound }
    requires there { AreThere unknowns.now.types settled.now }
    ensures { IfOk result (λ out. Decides (AllByRecursion (IsLeftOut (settled_at unknowns.now.types settled.now) (ending unknowns.now renames.now) name) tyvars.now) (AllByRecursion (MayBeLeftOut bare.now (settled_at unknowns.now.types settled.now) (ending unknowns.now renames.now) name) tyvars.now) out) }
{
    match settled_name(settled, name as usize) {
        Some(found) => {
            let numbers = open_numbers(alloc, unknowns, renames, found)?;
            let outside = are_outside(bare, &numbers, &[], tyvars)?;
            Ok(outside)
        }
        None => Err(NoMemory),
    }
}

// Whether names leave none of these explicit type variables open. They are settled.
fn leave_out(
    alloc: Global,
    bare: &Bare,
    settled: &[Option<Settled>],
    unknowns: &Unknowns,
    renames: &[Rename],
    tyvars: &[u32],
    names: &[u32],
) -> Result<bool, NoMemory>
    requires bindings { AreBindings unknowns.now.types unknowns.now.subst.bound }
    requires there { AreThere unknowns.now.types settled.now }
    ensures { IfOk result (λ out. Decides (AreLeftOut (settled_at unknowns.now.types settled.now) (ending unknowns.now renames.now) tyvars.now names.now) (MayBeAllLeftOut bare.now (settled_at unknowns.now.types settled.now) (ending unknowns.now renames.now) tyvars.now names.now) out) }
{
    // Most declarations bind none.
    if tyvars.is_empty() {
        return Ok(true);
    }
    'names: for name in names {
        if !leaves_out(alloc, bare, settled, unknowns, renames, tyvars, *name)? {
            return Ok(false);
        }
    }
    Ok(true)
}

/// Whether the types of a declaration's names mention only type names that are there, and its explicit type variables are new, and left open by none of the names.
pub(crate) fn is_declared_well(
    alloc: Global,
    bare: &Bare,
    starts: &Starts,
    scopes: &Scopes,
    settled: &[Option<Settled>],
    unknowns: &Unknowns,
    renames: &[Rename],
    node: u32,
    tyvars: &[u32],
) -> Result<bool, NoMemory>
    requires numbered { IsNumbered bare.now.nodes }
    requires bindings { AreBindings unknowns.now.types unknowns.now.subst.bound }
    requires laid { AreLaidOut bare.now unknowns.now.types starts.now }
    requires there { AreThere unknowns.now.types settled.now }
    requires closed { AllOpen (closed_at (settled_at unknowns.now.types settled.now)) scopes.now }
    ensures { IfOk result (λ well. (c : Context) → contexts_of scopes.now node ≡ Some c → Decides (IsDeclaredWell bare.now (settled_at unknowns.now.types settled.now) (meaning unknowns.now) (ending unknowns.now renames.now) c tyvars.now (names_bound bare.now.nodes node)) (MayBeDeclared bare.now (settled_at unknowns.now.types settled.now) (meaning unknowns.now) (ending unknowns.now renames.now) c tyvars.now (names_bound bare.now.nodes node)) well) }
{
    let names = pattern_names(alloc, bare, node)?;
    if !are_known(alloc, bare, starts, scopes, unknowns, node, &names)? {
        return Ok(false);
    }
    if !are_explicit_new(
        alloc, bare, starts, scopes, settled, unknowns, renames, node, tyvars,
    )? {
        return Ok(false);
    }
    let out = leave_out(alloc, bare, settled, unknowns, renames, tyvars, &names)?;
    Ok(out)
}
