//! The code of a program, laid out.

ghost use Rattle.std.specs.Prelude.{◌≡◌, ◌≤◌, ◌^◌, IfOk};
ghost use Rattle.rv_asm.specs.Item.{IsNear};
ghost use Rattle.rv_asm.specs.Layout.{addresses};
ghost use Rattle.emit_text.specs.Labels.{labels_of};
ghost use Rattle.emit_data.specs.Places.{read_only_place, writable_place, arena_place, end_place};
ghost use Rattle.emit_data.specs.Program.{program_of};
ghost use Rattle.rv_codegen.specs.Image.{base, text_bytes};

use emit_data::{Places, bind_data};
use emit_items::Labels;
use emit_text::put_program;
use placed_ir::Placed;
use rv_asm::{Asm, Code};
use smlc_base::NoMemory;
use std::alloc::Global;

/// Where the text begins.
pub const BASE: u64 = 0x1_0000;

/// Code, and where the data stand behind it.
#[derive(Drop)]
pub struct Laid {
    pub code: Code,
    pub places: Places,
}

/// The program's code with its addresses.
///
/// # Errors
///
/// Want of memory.
pub fn lay_out(
    alloc: Global,
    labels: &Labels,
    placed: &Placed,
    arena_words: u64,
) -> Result<Laid, NoMemory>
    requires labels { labels.now ≡ labels_of placed.now }
    requires arena { arena_words ≤ 2 ^ 27 }
    ensures bytes { IfOk result (λ laid. laid.code.bytes ≡ text_bytes placed.now arena_words) }
    ensures at { IfOk result (λ laid. laid.code.at ≡ addresses base (program_of placed.now arena_words).places) }
    ensures read_only { IfOk result (λ laid. laid.places.read_only ≡ read_only_place placed.now) }
    ensures writable { IfOk result (λ laid. laid.places.writable ≡ writable_place placed.now) }
    ensures arena { IfOk result (λ laid. laid.places.arena ≡ arena_place placed.now) }
    ensures near { IfOk result (λ laid. IsNear (end_place placed.now arena_words)) }
{
    let mut asm = Asm::new(alloc);
    let words = put_program(&mut asm, alloc, labels, placed)?;
    let places = bind_data(&mut asm, alloc, labels, placed, words, arena_words)?;
    let code = asm.finish(BASE)?;
    Ok(Laid { code, places })
}
