//! The step at the end of a body.

ghost use Rattle.std.specs.Prelude.{◌≡◌, OnOk};
ghost use Rattle.contract_steps.specs.State.{state_of};
ghost use Rattle.contract_steps.specs.Steps.{step_end, EndStep};

use crate::calls::walk_call;
use crate::matches::walk_match;
use crate::round::Round;
use contract_ends::{equal_left, throw_left};
use contract_group::{Task, put_end};
use cps_ir::{Cps, End};
use smlc_base::NoMemory;
use std::alloc::Global;

fn step_end(round: &mut Round, task: Task, end: End)
    ensures { state_of round.new ≡ step_end task end (state_of round.old) }
{
    put_end(&mut round.bodies, task.slot, end);
}

/// The end of a body.
///
/// # Errors
///
/// Want of memory.
pub fn walk_end(
    alloc: Global,
    program: &Cps,
    round: &mut Round,
    task: Task,
    end: &End,
) -> Result<(), NoMemory>
    ensures { OnOk result (EndStep program.now.texts task end.now (state_of round.old) (state_of round.new)) }
{
    match end {
        End::Equal {
            left,
            right,
            truth,
            next,
        } => {
            let end = equal_left(round.places.as_slice(), *left, *right, *truth, *next);
            step_end(round, task, end);
            Ok(())
        }
        End::Call { function, atoms } => walk_call(alloc, round, task, *function, atoms.items()),
        End::Match {
            subject,
            rules,
            otherwise,
        } => walk_match(
            alloc,
            program,
            round,
            task,
            *subject,
            rules.items(),
            *otherwise,
        ),
        End::Throw(packet) => {
            let end = throw_left(round.places.as_slice(), *packet);
            step_end(round, task, end);
            Ok(())
        }
        End::Halt => {
            step_end(round, task, End::Halt);
            Ok(())
        }
    }
}
