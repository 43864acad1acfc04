//! The step at a binding.

ghost use Rattle.std.specs.Prelude.{◌≡◌, List, OnOk};
ghost use Rattle.contract_roles.specs.Roles.{AreRoles};
ghost use Rattle.contract_roles.specs.declared.group.Role.{Role};
ghost use Rattle.contract_steps.specs.State.{state_of};
ghost use Rattle.contract_steps.specs.Steps.{put_left, put_group, step_fix, step_make, step_pick, step_prim, BindStep};

use crate::round::Round;
use contract_binds::{walk_make, walk_pick, walk_prim};
use contract_census::Count;
use contract_group::{Task, place_all, put_bind, replace_all, stay_all};
use contract_known::atom_in;
use contract_roles::roles;
use cps_ir::{Atom, Bind, Body, Cps, Function, Shape, Variable};
use smlc_base::{NoMemory, Primitive, Row};
use std::alloc::Global;

// What is left of a binding, if anything is.
fn put_left(bodies: &mut Vec<Body>, slot: u32, left: Option<Bind>) -> Result<(), NoMemory>
    ensures { OnOk result (bodies.new.items ≡ put_left slot left bodies.old.items) }
{
    match left {
        Some(bind) => put_bind(bodies, slot, bind),
        None => Ok(()),
    }
}

// Functions that stay, if any do.
fn put_group(bodies: &mut Vec<Body>, slot: u32, kept: Vec<Function>) -> Result<(), NoMemory>
    ensures { OnOk result (bodies.new.items ≡ put_group slot kept.items bodies.old.items) }
{
    if kept.is_empty() {
        Ok(())
    } else {
        put_bind(bodies, slot, Bind::Fix(Row::from_vec(kept)))
    }
}

// Functions that are bound together.
fn step_fix(
    alloc: Global,
    program: &Cps,
    counts: &[Count],
    round: &mut Round,
    task: Task,
    functions: &[Function],
) -> Result<(), NoMemory>
    ensures { OnOk result ((rs : List Role) × AreRoles counts.now program.now.bodies functions.now rs × (state_of round.new ≡ step_fix task rs functions.now (state_of round.old))) }
{
    let roles = roles(alloc, program, counts, functions)?;
    replace_all(&mut round.places, functions, roles.as_slice());
    place_all(alloc, &mut round.placed, functions, roles.as_slice())?;
    let kept = stay_all(
        alloc,
        &mut round.bodies,
        &mut round.work,
        functions,
        roles.as_slice(),
    )?;
    put_group(&mut round.bodies, task.slot, kept)
}

// A new block.
fn step_make(
    alloc: Global,
    counts: &[Count],
    round: &mut Round,
    task: Task,
    var: Variable,
    shape: Shape,
    atoms: &[Atom],
) -> Result<(), NoMemory>
    ensures { OnOk result (state_of round.new ≡ step_make counts.now task var shape atoms.now (state_of round.old)) }
{
    let left = walk_make(
        alloc,
        counts,
        task.root,
        round.places.as_slice(),
        &mut round.blocks,
        var,
        shape,
        atoms,
    )?;
    put_left(&mut round.bodies, task.slot, left)
}

// A field of a block.
fn step_pick(
    counts: &[Count],
    round: &mut Round,
    task: Task,
    var: Variable,
    field: u32,
    of: Atom,
) -> Result<(), NoMemory>
    ensures { OnOk result (state_of round.new ≡ step_pick counts.now task var field of (state_of round.old)) }
{
    let left = walk_pick(
        counts,
        task.root,
        &mut round.places,
        round.blocks.as_slice(),
        var,
        field,
        of,
    );
    put_left(&mut round.bodies, task.slot, left)
}

// The result of a primitive.
fn step_prim(
    alloc: Global,
    counts: &[Count],
    round: &mut Round,
    task: Task,
    var: Variable,
    primitive: Primitive,
    atoms: &[Atom],
) -> Result<(), NoMemory>
    ensures { OnOk result (state_of round.new ≡ step_prim counts.now task var primitive atoms.now (state_of round.old)) }
{
    let places = round.places.as_slice();
    let left = walk_prim(alloc, counts, places, var, primitive, atoms)?;
    put_left(&mut round.bodies, task.slot, left)
}

/// One binding of a body.
///
/// # Errors
///
/// Want of memory.
pub fn walk_bind(
    alloc: Global,
    program: &Cps,
    counts: &[Count],
    round: &mut Round,
    task: Task,
    bind: &Bind,
) -> Result<(), NoMemory>
    ensures { OnOk result (BindStep program.now.bodies counts.now task bind.now (state_of round.old) (state_of round.new)) }
{
    match bind {
        Bind::Make { var, shape, atoms } => {
            step_make(alloc, counts, round, task, *var, *shape, atoms.items())
        }
        Bind::Pick { var, field, of } => step_pick(counts, round, task, *var, *field, *of),
        Bind::Prim {
            var,
            primitive,
            atoms,
        } => step_prim(alloc, counts, round, task, *var, *primitive, atoms.items()),
        Bind::Fix(functions) => step_fix(alloc, program, counts, round, task, functions.items()),
        Bind::Handler(var) => put_bind(&mut round.bodies, task.slot, Bind::Handler(*var)),
        Bind::SetHandler(atom) => {
            let handler = atom_in(round.places.as_slice(), *atom);
            put_bind(&mut round.bodies, task.slot, Bind::SetHandler(handler))
        }
    }
}
