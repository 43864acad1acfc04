//! The code of a body, from its end on.

ghost use Rattle.std.specs.Prelude.{◌≡◌, ◌-◌, ◌++◌, ◌∷◌, [], IfOk, OnOk};
ghost use Rattle.rv_asm.specs.Item as item;
ghost use Rattle.emit_bodies.specs.declared.task.Task.TheVariants.{Rules};
ghost use Rattle.emit_bodies.specs.Layout.{end_items, whole_tasks, whole_text, rules_tasks, steps_of, found_text};

use emit_code::Text;
use emit_code::calls::call;
use emit_code::ends::{compare, halt, throw};
use emit_code::steps::put_steps;
use emit_items::Labels;
use placed_ir::End;
use rv_asm::Item;
use smlc_base::NoMemory;
use std::alloc::Global;

pub fn put_end(items: &mut Vec<Item>, labels: &Labels, end: &End) -> Result<(), NoMemory>
    ensures { OnOk result (items.new.items ≡ items.old.items ++ end_items labels.now end.now) }
{
    match end {
        End::Equal {
            left,
            right,
            truth,
            next,
        } => compare(items, labels, left, right, *truth, next),
        End::Call {
            target,
            function,
            sources,
        } => call(items, labels, *target, function, sources.items()),
        End::Match { .. } => Ok(()),
        End::Throw(packet) => throw(items, labels, packet),
        End::Halt => halt(items, labels),
    }
}
