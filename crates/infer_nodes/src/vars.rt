//! New variables, and the variables of nodes and names.

ghost use Rattle.std.specs.Prelude.{◌≡◌, ◌+◌, ◌<◌, length, IfOk};
ghost use Rattle.sml_unify.specs.Steps.{AreBelow};
ghost use Rattle.infer_state.specs.Variables.{AreLaidOut, node_var, name_var};
ghost use Rattle.infer_nodes.specs.Posed.{StandsFor, AreAdded};
ghost use Rattle.infer_nodes.specs.Made.{AreNew, new_var};

use infer_state::Starts;
use sml_tree::Bare;
use sml_types::{Ty, TyVar, Types};
use smlc_base::{Name, NoMemory};
use std::alloc::Global;

/// The type of a node.
pub(crate) fn node_ty(bare: &Bare, starts: Starts, types: &Types, node: u32) -> Result<Ty, NoMemory>
    requires laid { AreLaidOut bare.now types.now starts }
    ensures { IfOk result (λ t. StandsFor types.now t (node_var bare.now node)) }
{
    // Opens the invariant of the types.
    let _ = &types.forms;
    if node as usize >= bare.nodes.len() {
        return Err(NoMemory);
    }
    Ok(Ty(starts.nodes + node))
}

/// The type of a name.
pub(crate) fn name_ty(
    bare: &Bare,
    starts: Starts,
    types: &Types,
    name: Name,
) -> Result<Ty, NoMemory>
    requires laid { AreLaidOut bare.now types.now starts }
    ensures { IfOk result (λ t. StandsFor types.now t (name_var bare.now name.0)) }
{
    // Opens the invariant of the types.
    let _ = &types.forms;
    if name.0 as usize >= bare.names.len() {
        return Err(NoMemory);
    }
    Ok(Ty(starts.names + name.0))
}

fn new_like(types: &mut Types, next: &mut u32, var: TyVar) -> Result<Ty, NoMemory>
    requires below { AreBelow types.old next.old }
    ensures is { IfOk result (λ t. StandsFor types.new t (new_var next.old var)) }
    ensures added { IfOk result (λ _. AreAdded next.old types.old next.new types.new) }
    ensures raised { IfOk result (λ _. next.new ≡ next.old + 1) }
{
    let num = *next;
    if num == u32::MAX {
        return Err(NoMemory);
    }
    let ty = types.var(TyVar { num, eq: var.eq })?;
    *next = num + 1;
    Ok(ty)
}

/// A new variable for each of these, marked as it is.
pub(crate) fn new_vars(
    alloc: Global,
    types: &mut Types,
    next: &mut u32,
    vars: &[TyVar],
) -> Result<Vec<Ty>, NoMemory>
    requires below { AreBelow types.old next.old }
    ensures is { IfOk result (λ tys. AreNew next.old vars.now types.new tys.items) }
    ensures added { IfOk result (λ _. AreAdded next.old types.old next.new types.new) }
{
    let mut tys = Vec::new(alloc);
    'each: for var in vars {
        let ty = new_like(types, next, *var)?;
        tys.push(ty)?;
    }
    Ok(tys)
}
