//! Names are settled, and right sides closed.

ghost use Rattle.std.specs.Prelude.{◌≡◌, ℕ, None, [], ◌∷◌, true, false, IsTrue, IfOk};
ghost use Rattle.std.specs.List.{AllByRecursion};
ghost use Rattle.sml_types.specs.Poly.{is_in};
ghost use Rattle.sml_unify.specs.Solved.{AreBindings};
ghost use Rattle.infer_state.specs.Fits.{AreThere, settled_at};
ghost use Rattle.infer_state.specs.Variables.{AreLaidOut, name_var};
ghost use Rattle.infer_closing.specs.Closing.{meaning, AreGeneralKept, IsGeneralAt};
ghost use Rattle.infer_closing.specs.Open.{has_all};
ghost use Rattle.infer_closing.specs.Found.{AreVars};
ghost use Rattle.infer_closing.specs.Settling.{IsPut, Grows, AreNewly, AreListed, general_of, IsGroupClosed, IsNamedIn, AreGroupsClosed};

use crate::found::name_ty;
use crate::group::Group;
use crate::vars::{copied, without};
use infer_parts::covers;
use infer_state::{Settled, Starts, Unknowns};
use sml_tree::Bare;
use sml_types::{Scheme, TyVar};
use sml_unify::resolve::resolve;
use smlc_base::{NoMemory, Row};
use std::alloc::Global;

/// Settles a name that is not settled.
pub(crate) fn put(
    settled: &mut Vec<Option<Settled>>,
    name: u32,
    entry: Settled,
) -> Result<(), NoMemory>
    ensures { IfOk result (λ _. IsPut settled.old.items name entry settled.new.items) }
{
    let at = name as usize;
    if at >= settled.len() || settled[at].is_some() {
        return Err(NoMemory);
    }
    settled[at] = Some(entry);
    Ok(())
}

// Settles a name at its type, which generalises these variables; whether the type has no others.
fn settle(
    alloc: Global,
    bare: &Bare,
    starts: &Starts,
    settled: &mut Vec<Option<Settled>>,
    unknowns: &mut Unknowns,
    name: u32,
    vars: &[TyVar],
) -> Result<bool, NoMemory>
    requires bindings { AreBindings unknowns.old.types unknowns.old.subst.bound }
    requires laid { AreLaidOut bare.now unknowns.old.types starts.now }
    requires there { AreThere unknowns.old.types settled.old.items }
    requires vars { AreVars unknowns.old.types vars.now }
    ensures grown { IfOk result (λ _. Grows unknowns.old unknowns.new settled.old.items settled.new.items) }
    ensures newly { IfOk result (λ _. AreNewly bare.now (meaning unknowns.old) (settled_at unknowns.old.types settled.old.items) (settled_at unknowns.new.types settled.new.items) vars.now (name ∷ [])) }
    ensures closed { IfOk result (λ closed. IsTrue closed → has_all vars.now (meaning unknowns.old (name_var bare.now name)) ≡ true) }
{
    // Opens the invariant of the types.
    let _ = &unknowns.types.forms;
    let ty = name_ty(bare, starts, name)?;
    let resolved = resolve(alloc, &mut unknowns.types, &unknowns.subst, &[], ty)?;
    let closed = covers(alloc, &unknowns.types, vars, resolved.ty)?;
    let vars = copied(alloc, vars)?;
    let entry = Settled {
        from: resolved.from,
        scheme: Scheme {
            vars,
            body: resolved.ty,
        },
    };
    put(settled, name, entry)?;
    Ok(closed)
}

fn list_unless(list: &mut Vec<u32>, closed: bool, name: u32) -> Result<(), NoMemory>
    ensures kept { IfOk result (λ _. (x : ℕ) → is_in list.old.items x ≡ true → is_in list.new.items x ≡ true) }
    ensures there { IfOk result (λ _. closed ≡ false → is_in list.new.items name ≡ true) }
{
    if closed {
        return Ok(());
    }
    list.push(name)?;
    Ok(())
}

fn settle_names(
    alloc: Global,
    bare: &Bare,
    starts: &Starts,
    settled: &mut Vec<Option<Settled>>,
    unknowns: &mut Unknowns,
    names: &[u32],
    vars: &[TyVar],
    list: &mut Vec<u32>,
) -> Result<(), NoMemory>
    requires bindings { AreBindings unknowns.old.types unknowns.old.subst.bound }
    requires laid { AreLaidOut bare.now unknowns.old.types starts.now }
    requires there { AreThere unknowns.old.types settled.old.items }
    requires vars { AreVars unknowns.old.types vars.now }
    ensures grown { IfOk result (λ _. Grows unknowns.old unknowns.new settled.old.items settled.new.items) }
    ensures newly { IfOk result (λ _. AreNewly bare.now (meaning unknowns.old) (settled_at unknowns.old.types settled.old.items) (settled_at unknowns.new.types settled.new.items) vars.now names.now) }
    ensures listed { IfOk result (λ _. AreListed bare.now (meaning unknowns.old) vars.now names.now list.old.items list.new.items) }
{
    'names: for name in names {
        let closed = settle(alloc, bare, starts, settled, unknowns, *name, vars)?;
        list_unless(list, closed, *name)?;
    }
    Ok(())
}

// Says what a right side generalises, if that is not said.
fn set_general(
    general: &mut Vec<Option<Row<TyVar>>>,
    right: Option<u32>,
    vars: Row<TyVar>,
) -> Result<(), NoMemory>
    requires { right ≡ None → vars ≡ [] }
    ensures kept { IfOk result (λ _. AreGeneralKept general.old.items general.new.items) }
    ensures at { IfOk result (λ _. IsGeneralAt general.new.items vars right) }
{
    let Some(node) = right else {
        return Ok(());
    };
    let at = node as usize;
    if at >= general.len() || general[at].is_some() {
        return Err(NoMemory);
    }
    general[at] = Some(vars);
    Ok(())
}

fn close_group(
    alloc: Global,
    bare: &Bare,
    starts: &Starts,
    settled: &mut Vec<Option<Settled>>,
    general: &mut Vec<Option<Row<TyVar>>>,
    unknowns: &mut Unknowns,
    opened: &[TyVar],
    group: &Group,
    list: &mut Vec<u32>,
) -> Result<(), NoMemory>
    requires bindings { AreBindings unknowns.old.types unknowns.old.subst.bound }
    requires laid { AreLaidOut bare.now unknowns.old.types starts.now }
    requires there { AreThere unknowns.old.types settled.old.items }
    requires vars { AreVars unknowns.old.types group.now.vars }
    requires none { group.now.of.right ≡ None → group.now.vars ≡ [] }
    ensures grown { IfOk result (λ _. Grows unknowns.old unknowns.new settled.old.items settled.new.items) }
    ensures kept { IfOk result (λ _. AreGeneralKept general.old.items general.new.items) }
    ensures at { IfOk result (λ _. IsGeneralAt general.new.items (general_of opened.now group.now) group.now.of.right) }
    ensures newly { IfOk result (λ _. AreNewly bare.now (meaning unknowns.old) (settled_at unknowns.old.types settled.old.items) (settled_at unknowns.new.types settled.new.items) (general_of opened.now group.now) group.now.of.names) }
    ensures listed { IfOk result (λ _. AreListed bare.now (meaning unknowns.old) (general_of opened.now group.now) group.now.of.names list.old.items list.new.items) }
{
    let vars = without(alloc, opened, group.vars.items())?;
    settle_names(
        alloc,
        bare,
        starts,
        settled,
        unknowns,
        group.of.names.items(),
        vars.items(),
        list,
    )?;
    set_general(general, group.of.right, vars)?;
    Ok(())
}

/// Closes the groups of a declaration; the answer has the names whose schemes leave variables open.
pub(crate) fn close_groups(
    alloc: Global,
    bare: &Bare,
    starts: &Starts,
    settled: &mut Vec<Option<Settled>>,
    general: &mut Vec<Option<Row<TyVar>>>,
    unknowns: &mut Unknowns,
    opened: &[TyVar],
    groups: &[Group],
) -> Result<Vec<u32>, NoMemory>
    requires bindings { AreBindings unknowns.old.types unknowns.old.subst.bound }
    requires laid { AreLaidOut bare.now unknowns.old.types starts.now }
    requires there { AreThere unknowns.old.types settled.old.items }
    requires vars { AllByRecursion (λ g. AreVars unknowns.old.types g.vars) groups.now }
    requires none { AllByRecursion (λ g. g.of.right ≡ None → g.vars ≡ []) groups.now }
    ensures grown { IfOk result (λ _. Grows unknowns.old unknowns.new settled.old.items settled.new.items) }
    ensures kept { IfOk result (λ _. AreGeneralKept general.old.items general.new.items) }
    ensures closed { IfOk result (λ list. AreGroupsClosed bare.now (meaning unknowns.old) general.new.items (settled_at unknowns.old.types settled.old.items) (settled_at unknowns.new.types settled.new.items) list.items opened.now groups.now) }
{
    let mut list = Vec::new(alloc);
    'groups: for group in groups {
        close_group(
            alloc, bare, starts, settled, general, unknowns, opened, group, &mut list,
        )?;
    }
    Ok(list)
}
