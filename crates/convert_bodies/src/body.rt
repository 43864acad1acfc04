//! One body.

ghost use Rattle.std.specs.Prelude.{◌≡◌, [], false, IfOk};
ghost use Rattle.convert_decide.specs.Decide.{item_in};
ghost use Rattle.convert_steps.specs.Codes.{work_code};
ghost use Rattle.convert_steps.specs.Source.{IsKnown};
ghost use Rattle.convert_steps.specs.Writes.{Writes};
ghost use Rattle.convert_steps.specs.declared.task.Step.TheVariants.{Stop};

use crate::turn::turn;
use convert_steps::source::Source;
use convert_steps::task::{Step, Task};
use convert_steps::world::World;
use cps_ir::Body;
use smlc_base::{NoMemory, Row};

// More steps than a body can have: each stands for a part of the program in one of its frames.
const MOST_STEPS: u64 = u64::MAX;

/// The body that begins with a task.
///
/// # Errors
///
/// Want of memory.
pub fn write_body(source: Source, world: &mut World, task: Task) -> Result<Body, NoMemory>
    requires { IsKnown source.terms.now source.facts.now }
    ensures { IfOk result (λ b. Writes (item_in false source.entry.own.now) source.entry.terms.now world.old [] world.new b.binds (λ σ κ. work_code (item_in false source.entry.own.now) source.entry.terms.now task.work σ κ task.next) task.scope task.continuation (Stop b.end)) }
{
    let mut binds = Row::new(source.alloc);
    let mut left = task;
    for _ in 0..MOST_STEPS {
        match turn(source, world, &mut binds, left)? {
            Step::Go(later) => left = later,
            Step::Stop(end) => return Ok(Body { binds, end }),
        }
    }
    Err(NoMemory)
}
