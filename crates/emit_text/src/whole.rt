//! The whole text.

ghost use Rattle.std.specs.Prelude.{◌≡◌, ◌∷◌, ◌++◌, Some, None, map, replicate, slice_set, IfOk, OnOk};
ghost use Rattle.rv_asm.specs.declared.item.Item.TheVariants.{Jump};
ghost use Rattle.rv_asm.specs.Item.{words};
ghost use Rattle.rv_asm.specs.Program.{empty};
ghost use Rattle.rt_prims.specs.Text.{with_labels, items_of, order};
ghost use Rattle.emit_text.specs.Labels.{start_label, routines_label, labels_of};
ghost use Rattle.emit_text.specs.Text.{first, function_items, start_items, text, routine_places, start_place, datum_count, text_program};
ghost use Rattle.emit_text.specs.Begun.{begun, started};

use crate::functions::{put_code, put_functions};
use emit_code::numbers::sum;
use emit_items::Labels;
use placed_ir::{Function, Placed};
use rt_prims::{Datum, routines};
use rv_asm::Asm;
use smlc_base::NoMemory;
use std::alloc::Global;

/// The instructions of the text but those of the program's code: a jump, the routines, and the start.
const FIXED_WORDS: u32 = 497;

fn make_labels(asm: &mut Asm, count: u32) -> Result<(), NoMemory>
    ensures { OnOk result (asm.new ≡ with_labels count asm.old) }
{
    for _ in 0..count {
        asm.label()?;
    }
    Ok(())
}

// All labels, a jump to the start, and the routines.
fn begin(asm: &mut Asm, labels: &Labels, placed: &Placed) -> Result<(), NoMemory>
    requires labels { labels.now ≡ labels_of placed.now }
    requires empty { asm.old ≡ empty }
    ensures { OnOk result (asm.new ≡ begun placed.now) }
{
    make_labels(asm, labels.routines)?;
    asm.jump(labels.texts - 1)?;
    routines(asm)?;
    Ok(())
}

// The registers that all code knows: the next free byte of the arena, its end, and the handler.
fn put_start(asm: &mut Asm, labels: &Labels, placed: &Placed) -> Result<(), NoMemory>
    requires labels { labels.now ≡ labels_of placed.now }
    requires begun { asm.old ≡ begun placed.now }
    ensures { OnOk result (asm.new ≡ started placed.now) }
{
    let arena = sum(labels.routines, Datum::Arena.place())?;
    let end = sum(labels.routines, Datum::ArenaEnd.place())?;
    asm.bind(labels.texts - 1);
    asm.address(8, arena)?;
    asm.address(9, end)?;
    asm.address(18, labels.routines - 1)
}

/// Puts the program's text, and answers how many instructions it is.
///
/// # Errors
///
/// Want of memory.
pub fn put_program(
    asm: &mut Asm,
    alloc: Global,
    labels: &Labels,
    placed: &Placed,
) -> Result<u32, NoMemory>
    requires labels { labels.now ≡ labels_of placed.now }
    requires empty { asm.old ≡ empty }
    ensures words { IfOk result (λ n. n ≡ words (text placed.now)) }
    ensures program { OnOk result (asm.new ≡ text_program placed.now) }
{
    let bodies = placed.bodies();
    let first = Function {
        body: 0,
        frame: placed.frame(),
    };
    begin(asm, labels, placed)?;
    put_start(asm, labels, placed)?;
    let main = put_code(asm, alloc, labels, bodies, first)?;
    let functions = put_functions(asm, alloc, labels, bodies, placed.functions())?;
    sum(sum(main, functions)?, FIXED_WORDS)
}
