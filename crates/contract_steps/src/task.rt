//! The steps of a body.

ghost use Rattle.std.specs.Prelude.{OnOk};
ghost use Rattle.contract_steps.specs.State.{state_of};
ghost use Rattle.contract_steps.specs.Steps.{BindsStep, TaskStep};

use crate::binds::walk_bind;
use crate::ends::walk_end;
use crate::round::Round;
use contract_census::Count;
use contract_group::Task;
use cps_ir::{Bind, Cps};
use smlc_base::NoMemory;
use std::alloc::Global;

// The bindings of a body, in order.
fn walk_binds(
    alloc: Global,
    program: &Cps,
    counts: &[Count],
    round: &mut Round,
    task: Task,
    binds: &[Bind],
) -> Result<(), NoMemory>
    ensures { OnOk result (BindsStep program.now.bodies counts.now task binds.now (state_of round.old) (state_of round.new)) }
{
    for bind in binds {
        walk_bind(alloc, program, counts, round, task, bind)?;
    }
    Ok(())
}

/// The body of a task, which makes what comes next in the body `slot` of the answer.
///
/// # Errors
///
/// Want of memory.
pub fn walk_task(
    alloc: Global,
    program: &Cps,
    counts: &[Count],
    round: &mut Round,
    task: Task,
) -> Result<(), NoMemory>
    ensures { OnOk result (TaskStep program.now.texts program.now.bodies counts.now task (state_of round.old) (state_of round.new)) }
{
    let bodies = program.bodies();
    match bodies.get(task.body as usize) {
        Some(body) => {
            walk_binds(alloc, program, counts, round, task, body.binds.items())?;
            walk_end(alloc, program, round, task, &body.end)
        }
        None => Ok(()),
    }
}
