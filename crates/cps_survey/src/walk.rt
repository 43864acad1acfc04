//! The walk over the bodies of a program.

ghost use Rattle.std.specs.Prelude.{◌≡◌, None, ◌++◌, reverse, OnOk, IfOk, slice_get};
ghost use Rattle.sml_tree.specs.Sets.{row_at};
ghost use Rattle.cps_ir.specs.Program.{code_at};
ghost use Rattle.cps_ir.specs.Slim.{layouts};
ghost use Rattle.cps_free.specs.Rows.{AreFree};
ghost use Rattle.cps_ir.specs.Kept.{IsProgram};
ghost use Rattle.lifetime_users.specs.Users.{bindings};
ghost use Rattle.cps_survey.specs.Steps.{tasks_at, task_parts, layout_found, binding_found};

use crate::entry::{Binding, Layout};
use crate::tasks::{Task, push, push_body};
use cps_ir::{Body, Cps};
use smlc_base::{NoMemory, Row};
use std::alloc::Global;

/// The functions of a program, and its variables with the functions in whose bodies they are bound.
#[derive(Drop)]
pub struct Survey {
    pub layouts: Row<Layout>,
    pub bindings: Row<Binding>,
}

fn open_body(
    alloc: Global,
    bodies: &[Body],
    frees: &[Row<u32>],
    work: &mut Vec<Task>,
    home: Option<u32>,
    body: u32,
) -> Result<(), NoMemory>
    ensures { OnOk result (work.new.items ≡ work.old.items ++ reverse (tasks_at (row_at frees.now) home (slice_get bodies.now body))) }
{
    match bodies.get(body as usize) {
        Some(found) => push_body(alloc, work, home, found, frees),
        None => Ok(()),
    }
}

// One turn of the walk: what the task has found, and what stands in it as tasks.
fn turn(
    alloc: Global,
    bodies: &[Body],
    frees: &[Row<u32>],
    layouts: &mut Vec<Layout>,
    bindings: &mut Vec<Binding>,
    work: &mut Vec<Task>,
    task: Task,
) -> Result<(), NoMemory>
    ensures layouts { OnOk result (layouts.new.items ≡ layouts.old.items ++ layout_found task) }
    ensures bindings { OnOk result (bindings.new.items ≡ bindings.old.items ++ binding_found task) }
    ensures work { OnOk result (work.new.items ≡ work.old.items ++ reverse (task_parts (row_at frees.now) bodies.now task)) }
{
    match task {
        Task::Found(layout) => {
            layouts.push(layout)?;
            Ok(())
        }
        Task::Bound(binding) => {
            bindings.push(binding)?;
            Ok(())
        }
        Task::Body { home, body } => open_body(alloc, bodies, frees, work, home, body),
    }
}

/// What stands in a program, of whose bodies these are the free variables.
pub fn survey_of(alloc: Global, program: &Cps, frees: &[Row<u32>]) -> Result<Survey, NoMemory>
    requires { AreFree program.now.bodies 0 frees.now }
    ensures layouts { IfOk result (λ s. s.layouts ≡ layouts (code_at program.now.bodies 0)) }
    ensures bindings { IfOk result (λ s. s.bindings ≡ bindings None (code_at program.now.bodies 0)) }
{
    let bodies = program.bodies();
    let mut layouts = Vec::new(alloc);
    let mut bindings = Vec::new(alloc);
    let mut work = Vec::new(alloc);
    let home = None;
    push(&mut work, Task::Body { home, body: 0 })?;
    while let Some(task) = work.pop() {
        turn(
            alloc,
            bodies,
            frees,
            &mut layouts,
            &mut bindings,
            &mut work,
            task,
        )?;
    }
    Ok(Survey {
        layouts: Row::from_vec(layouts),
        bindings: Row::from_vec(bindings),
    })
}
