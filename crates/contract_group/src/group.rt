//! Functions that are bound together.

ghost use Rattle.std.specs.Prelude.{◌≡◌, [], ◌∷◌, ◌++◌, length, IfOk, OnOk};
ghost use Rattle.contract_group.specs.Group.{place_step, placed_step, group_places, group_placed, group_kept, group_tasks, group_bodies, with_new, kept_step, tasks_step};

use crate::bodies::put_empty;
use crate::task::{Placed, Task};
use contract_known::atom_in;
use contract_roles::Role;
use cps_ir::{Atom, Body, Function};
use smlc_base::{NoMemory, Row};
use std::alloc::Global;

// The atom in the place of a function that is replaced.
fn replace(places: &mut Vec<Atom>, function: &Function, role: Role)
    ensures { places.new.items ≡ place_step role function.now places.old.items }
{
    let i = function.name as usize;
    if let Role::Replaced(target) = role {
        if i < places.len() {
            places[i] = atom_in(places.as_slice(), Atom::Var(target));
        }
    }
}

/// What stands in the place of the functions that are replaced, in order.
pub fn replace_all(places: &mut Vec<Atom>, functions: &[Function], roles: &[Role])
    ensures { places.new.items ≡ group_places roles.now functions.now places.old.items }
{
    let mut i = 0;
    while i < functions.len() && i < roles.len() {
        replace(places, &functions[i], roles[i]);
        i += 1;
    }
}

// The body of a function that is put where it is called.
fn place(
    alloc: Global,
    placed: &mut Vec<Option<Placed>>,
    function: &Function,
    role: Role,
) -> Result<(), NoMemory>
    ensures { OnOk result (placed.new.items ≡ placed_step role function.now placed.old.items) }
{
    let i = function.name as usize;
    if let Role::Placed = role {
        if i < placed.len() {
            let params = Row::from_vec(Vec::from_slice(alloc, function.params.items())?);
            placed[i] = Some(Placed {
                params,
                body: function.body,
            });
        }
    }
    Ok(())
}

/// The bodies of the functions that are put where they are called.
pub fn place_all(
    alloc: Global,
    placed: &mut Vec<Option<Placed>>,
    functions: &[Function],
    roles: &[Role],
) -> Result<(), NoMemory>
    ensures { OnOk result (placed.new.items ≡ group_placed roles.now functions.now placed.old.items) }
{
    let mut i = 0;
    while i < functions.len() && i < roles.len() {
        place(alloc, placed, &functions[i], roles[i])?;
        i += 1;
    }
    Ok(())
}

// A function that stays, with a new body, which is still to be made.
fn stay(
    alloc: Global,
    bodies: &mut Vec<Body>,
    work: &mut Vec<Task>,
    function: &Function,
    role: Role,
) -> Result<Option<Function>, NoMemory>
    ensures kept { IfOk result (λ o. o ≡ kept_step (length bodies.old.items) role function.now) }
    ensures bodies { OnOk result (bodies.new.items ≡ with_new role bodies.old.items) }
    ensures work { OnOk result (work.new.items ≡ tasks_step (length bodies.old.items) role function.now work.old.items) }
{
    match role {
        Role::Stays => {
            let slot = put_empty(alloc, bodies)?;
            work.push(Task {
                body: function.body,
                root: slot,
                slot,
            })?;
            let params = Row::from_vec(Vec::from_slice(alloc, function.params.items())?);
            Ok(Some(Function {
                name: function.name,
                point: function.point,
                params,
                body: slot,
            }))
        }
        _ => Ok(None),
    }
}

/// The functions that stay.
pub fn stay_all(
    alloc: Global,
    bodies: &mut Vec<Body>,
    work: &mut Vec<Task>,
    functions: &[Function],
    roles: &[Role],
) -> Result<Vec<Function>, NoMemory>
    ensures kept { IfOk result (λ v. v.items ≡ group_kept (length bodies.old.items) roles.now functions.now) }
    ensures bodies { OnOk result (bodies.new.items ≡ group_bodies roles.now functions.now bodies.old.items) }
    ensures work { OnOk result (work.new.items ≡ group_tasks (length bodies.old.items) roles.now functions.now work.old.items) }
{
    let mut kept = Vec::new(alloc);
    let mut i = 0;
    while i < functions.len() && i < roles.len() {
        if let Some(function) = stay(alloc, bodies, work, &functions[i], roles[i])? {
            kept.push(function)?;
        }
        i += 1;
    }
    Ok(kept)
}
