//! Steps of bodies.

ghost use Rattle.std.specs.Prelude.{◌≡◌, ◌++◌, IfOk, OnOk};
ghost use Rattle.emit_code.specs.Steps.{group_after, last_group, step_items, steps_items};

use crate::making::make;
use crate::primitives::do_primitive;
use crate::reading::{keep_handler, let_in, name, set_handler, take};
use emit_items::Labels;
use placed_ir::Step;
use rv_asm::Item;
use smlc_base::NoMemory;

// A step, where the group that was made last has so many words. The answer are those of the last one then.
fn put_step(
    items: &mut Vec<Item>,
    labels: &Labels,
    group: u32,
    step: &Step,
) -> Result<u32, NoMemory>
    ensures group { IfOk result (λ n. n ≡ group_after group step.now) }
    ensures items { OnOk result (items.new.items ≡ items.old.items ++ step_items labels.now group step.now) }
{
    match step {
        Step::Make(buildings) => return make(items, labels, buildings.items()),
        Step::Name { home, offset } => name(
            items,
            *home,
            8 * group.saturating_sub(*offset) as u64,
        )?,
        Step::Let { home, value } => let_in(items, labels, *home, value)?,
        Step::Prim { primitive, sources } => {
            do_primitive(items, labels, *primitive, sources.items())?
        }
        Step::Take(home) => take(items, *home)?,
        Step::Handler(home) => keep_handler(items, *home)?,
        Step::SetHandler(value) => set_handler(items, labels, value)?,
    }
    Ok(group)
}

/// Steps in a row, where the group that was made last has so many words. The answer are those of the last one then.
pub fn put_steps(
    items: &mut Vec<Item>,
    labels: &Labels,
    before: u32,
    steps: &[Step],
) -> Result<u32, NoMemory>
    ensures group { IfOk result (λ n. n ≡ last_group before steps.now) }
    ensures items { OnOk result (items.new.items ≡ items.old.items ++ steps_items labels.now before steps.now) }
{
    let mut group = before;
    for step in steps {
        group = put_step(items, labels, group, step)?;
    }
    Ok(group)
}
