//! All bodies.

ghost use Rattle.std.specs.Prelude.{◌≡◌, ◌≤◌, false, IfOk, length, slice_get};
ghost use Rattle.convert_decide.specs.Decide.{item_in};
ghost use Rattle.convert_steps.specs.Source.{IsKnown};
ghost use Rattle.convert_bodies.specs.Bodies.{AreWritten};

use crate::body::write_body;
use convert_steps::source::Source;
use convert_steps::task::Task;
use convert_steps::world::World;
use cps_ir::Body;
use smlc_base::{NoMemory, Row};

// The task of a number.
fn task_at(tasks: &[Task], at: u32) -> Option<Task>
    ensures { result ≡ slice_get tasks.now at }
{
    match tasks.get(at as usize) {
        Some(task) => Some(*task),
        None => None,
    }
}

/// The bodies of all tasks, and of those that are begun with them.
///
/// # Errors
///
/// Want of memory, also where there are no more numbers for bodies.
pub fn write_bodies(source: Source, world: &mut World) -> Result<Row<Body>, NoMemory>
    requires { IsKnown source.terms.now source.facts.now }
    ensures written { IfOk result (λ bs. AreWritten (item_in false source.entry.own.now) source.entry.terms.now world.old 0 bs world.new) }
    ensures all { IfOk result (λ bs. length world.new.tasks ≤ length bs) }
{
    let mut bodies = Row::new(source.alloc);
    for at in 0..u32::MAX {
        let Some(task) = task_at(world.tasks.items(), at) else {
            return Ok(bodies);
        };
        let made = write_body(source, world, task)?;
        bodies.push(made)?;
    }
    Err(NoMemory)
}
