//! Ends of bodies.

ghost use Rattle.std.specs.Prelude.{◌≡◌, ◌++◌, OnOk};
ghost use Rattle.emit_items.specs.Ends.{through, jumped, thrown, truth_word, compared, halted};

use crate::constants::load;
use crate::items::{HANDLER, i};
use crate::reading::{fetch, routine_label};
use closure_ir::Target;
use emit_items::Labels;
use placed_ir::Source;
use rt_prims::Routine;
use rv_asm::Item;
use rv_isa::Op::{Addi, Jalr, Ld};
use smlc_base::NoMemory;

/// Through the code of the closure in x10.
fn put_through(items: &mut Vec<Item>) -> Result<(), NoMemory>
    ensures { OnOk result (items.new.items ≡ items.old.items ++ through) }
{
    items.push(i(Ld, 31, 10, 8))?;
    Ok(items.push(i(Jalr, 0, 31, 0))?)
}

pub(crate) fn put_jump(items: &mut Vec<Item>, target: Target) -> Result<(), NoMemory>
    ensures { OnOk result (items.new.items ≡ items.old.items ++ jumped target) }
{
    match target {
        Target::Known(label) => Ok(items.push(Item::Jump(label.0))?),
        Target::Through => put_through(items),
    }
}

/// Calls the handler with a packet.
pub fn throw(items: &mut Vec<Item>, labels: &Labels, packet: &Source) -> Result<(), NoMemory>
    ensures { OnOk result (items.new.items ≡ items.old.items ++ thrown labels.now packet.now) }
{
    fetch(items, labels, None, 11, packet)?;
    items.push(i(Addi, 10, HANDLER, 0))?;
    put_through(items)
}

fn truth_word(truth: bool) -> u64
    ensures { result ≡ truth_word truth }
{
    if truth { 3 } else { 1 }
}

/// Compares two values, and then goes on at the continuation.
pub fn compare(
    items: &mut Vec<Item>,
    labels: &Labels,
    left: &Source,
    right: &Source,
    truth: bool,
    next: &Source,
) -> Result<(), NoMemory>
    ensures { OnOk result (items.new.items ≡ items.old.items ++ compared labels.now left.now right.now truth next.now) }
{
    fetch(items, labels, None, 5, left)?;
    fetch(items, labels, None, 6, right)?;
    fetch(items, labels, None, 12, next)?;
    load(items, 7, truth_word(truth))?;
    let label = routine_label(labels, Routine::Equal)?;
    Ok(items.push(Item::Jump(label))?)
}

/// The normal end.
pub fn halt(items: &mut Vec<Item>, labels: &Labels) -> Result<(), NoMemory>
    ensures { OnOk result (items.new.items ≡ items.old.items ++ halted labels.now) }
{
    let label = routine_label(labels, Routine::Halt)?;
    Ok(items.push(Item::Jump(label))?)
}
