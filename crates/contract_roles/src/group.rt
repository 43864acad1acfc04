//! What becomes of each function of a group.

ghost use Rattle.std.specs.Prelude.{◌≡◌, List, [], ◌∷◌, ◌++◌, ◌||◌, IfOk, OnOk, map};
ghost use Rattle.sml_tree.specs.Sets.{has};
ghost use Rattle.cps_ir.specs.declared.body.Function.{Function as Entry};
ghost use Rattle.cps_ir.specs.Program.{functions_of, code_at};
ghost use Rattle.contract_roles.specs.Roles.{as_role, eta_in, eta_names, dead, once, alias_behind, aliases, role_of, group_roles, AreRoles};

use crate::target::eta;
use contract_census::{Count, count_of};
use cps_ir::{Cps, Function, Variable};
use smlc_base::NoMemory;
use std::alloc::Global;

/// What becomes of a function. Where several apply, the first of these does.
#[derive(Clone, Copy)]
pub enum Role {
    /// It is used in its own body alone.
    Dropped,
    /// It only calls this variable, which stands in its place.
    Replaced(Variable),
    /// Its one use is a call in the body that binds it, where its body is put.
    Placed,
    Stays,
}

fn is_dead(counts: &[Count], f: Variable) -> bool
    ensures { result ≡ dead counts.now f }
{
    count_of(counts, f).outside.is_never()
}

fn is_once(counts: &[Count], f: Variable) -> bool
    ensures { result ≡ once counts.now f }
{
    let count = count_of(counts, f);
    count.uses.is_once() && count.calls.is_once()
}

// The names of those that only call another.
fn eta_names(
    alloc: Global,
    program: &Cps,
    functions: &[Function],
) -> Result<Vec<Variable>, NoMemory>
    ensures { IfOk result (λ v. v.items ≡ eta_names program.now.bodies functions.now) }
{
    let mut names = Vec::new(alloc);
    for function in functions {
        if let Some(_) = eta(program, function) {
            names.push(function.name)?;
        }
    }
    Ok(names)
}

fn is_named(front: &[Variable], behind: &[Variable], x: Variable) -> bool
    ensures { result ≡ (has front.now x || has behind.now x) }
{
    front.contains(&x) || behind.contains(&x)
}

// Whether f isn't replaced, although it only calls x.
fn is_held(
    counts: &[Count],
    x: Variable,
    f: Variable,
    front: &[Variable],
    behind: &[Variable],
) -> bool
    ensures { result ≡ (dead counts.now f || (has front.now x || has behind.now x)) }
{
    is_dead(counts, f) || is_named(front, behind, x)
}

// One more of those that are replaced.
fn alias_behind(
    counts: &[Count],
    target: Option<Variable>,
    f: Variable,
    front: &[Variable],
    behind: &mut Vec<Variable>,
) -> Result<(), NoMemory>
    ensures { OnOk result (behind.new.items ≡ alias_behind counts.now target f front.now behind.old.items) }
{
    match target {
        None => Ok(()),
        Some(x) => {
            if is_held(counts, x, f, front, behind.as_slice()) {
                Ok(())
            } else {
                behind.push(f)?;
                Ok(())
            }
        }
    }
}

// Leaves the names in front of a function, of those up to it.
fn pop_eta(program: &Cps, function: &Function, front: &mut Vec<Variable>)
    ensures { (fs : List Entry) → front.old.items ≡ eta_names program.now.bodies (fs ++ function.now ∷ []) → front.new.items ≡ eta_names program.now.bodies fs }
{
    if let Some(_) = eta(program, function) {
        front.pop();
    }
}

// The names of those that are replaced.
fn aliases(
    alloc: Global,
    program: &Cps,
    counts: &[Count],
    functions: &[Function],
) -> Result<Vec<Variable>, NoMemory>
    ensures { IfOk result (λ v. v.items ≡ aliases counts.now program.now.bodies [] functions.now) }
{
    let mut front = eta_names(alloc, program, functions)?;
    let mut replaced = Vec::new(alloc);
    let mut i = functions.len();
    while i > 0 {
        i -= 1;
        let function = &functions[i];
        pop_eta(program, function, &mut front);
        let target = eta(program, function);
        alias_behind(
            counts,
            target,
            function.name,
            front.as_slice(),
            &mut replaced,
        )?;
    }
    Ok(replaced)
}

fn role_of(program: &Cps, counts: &[Count], replaced: &[Variable], function: &Function) -> Role
    ensures { as_role result ≡ role_of counts.now program.now.bodies replaced.now function.now }
{
    let f = function.name;
    if is_dead(counts, f) {
        return Role::Dropped;
    }
    if replaced.contains(&f) {
        if let Some(x) = eta(program, function) {
            return Role::Replaced(x);
        }
    }
    if is_once(counts, f) {
        Role::Placed
    } else {
        Role::Stays
    }
}

// From the counts alone.
fn group_roles(
    alloc: Global,
    program: &Cps,
    counts: &[Count],
    functions: &[Function],
) -> Result<Vec<Role>, NoMemory>
    ensures { IfOk result (λ v. map as_role v.items ≡ group_roles counts.now program.now.bodies functions.now) }
{
    let replaced = aliases(alloc, program, counts, functions)?;
    let mut roles = Vec::new(alloc);
    for function in functions {
        roles.push(role_of(program, counts, replaced.as_slice(), function))?;
    }
    Ok(roles)
}

/// What becomes of each function of a group, where the counts are right for the names that it binds.
///
/// # Errors
///
/// Want of memory.
pub fn roles(
    alloc: Global,
    program: &Cps,
    counts: &[Count],
    functions: &[Function],
) -> Result<Vec<Role>, NoMemory>
    ensures { IfOk result (λ v. AreRoles counts.now program.now.bodies functions.now v.items) }
{
    group_roles(alloc, program, counts, functions)
}
