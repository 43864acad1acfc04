//! The code of functions, one behind the other.

ghost use Rattle.std.specs.Prelude.{◌≡◌, ◌<◌, ◌++◌, ℕ, length, map, IfOk, OnOk};
ghost use Rattle.std.specs.List.{flat_map};
ghost use Rattle.rv_asm.specs.Item.{words};
ghost use Rattle.rv_asm.specs.Program.{IsFree};
ghost use Rattle.placed_ir.specs.declared.body.Function.{Function as AFunction};
ghost use Rattle.placed_ir.specs.Program.{function_code};
ghost use Rattle.place_bodies.proofs.Unfold.{AreNumbered};
ghost use Rattle.emit_items.specs.Body as whole;
ghost use Rattle.emit_sound.specs.Sound.{AreSound};
ghost use Rattle.emit_text.specs.Text.{starts};
ghost use Rattle.emit_text.specs.Bound.{with_items, bound_from};

use crate::put::put_items;
use emit_bodies::put_function;
use emit_code::Text;
use emit_code::numbers::sum;
use emit_items::Labels;
use placed_ir::{Body, Function};
use rv_asm::Asm;
use smlc_base::NoMemory;
use std::alloc::Global;

/// Puts the code of a function last, and answers how many instructions it is.
///
/// # Errors
///
/// Want of memory.
pub fn put_code(
    asm: &mut Asm,
    alloc: Global,
    labels: &Labels,
    bodies: &[Body],
    function: Function,
) -> Result<u32, NoMemory>
    requires numbered { AreNumbered bodies.now }
    requires sound { AreSound (length asm.old.places) (whole.items labels.now 0 (function_code bodies.now function)) }
    ensures words { IfOk result (λ n. n ≡ words (whole.items labels.now 0 (function_code bodies.now function))) }
    ensures items { OnOk result (asm.new ≡ with_items asm.old (whole.items labels.now 0 (function_code bodies.now function))) }
{
    let mut text = Text::new(alloc);
    put_function(&mut text, alloc, labels, bodies, function)?;
    let words = text.words();
    let items = text.into_items();
    put_items(asm, items.as_slice())?;
    Ok(words)
}

/// Puts the code of the functions last, each under its label, and answers how many instructions it is.
///
/// # Errors
///
/// Want of memory.
pub fn put_functions(
    asm: &mut Asm,
    alloc: Global,
    labels: &Labels,
    bodies: &[Body],
    functions: &[Function],
) -> Result<u32, NoMemory>
    requires numbered { AreNumbered bodies.now }
    requires sound { (f : AFunction) → AreSound (length asm.old.places) (whole.items labels.now 0 (function_code bodies.now f)) }
    requires free { (l : ℕ) → l < length functions.now → IsFree asm.old l }
    ensures words { IfOk result (λ n. n ≡ words (flat_map (λ f. whole.items labels.now 0 (function_code bodies.now f)) functions.now)) }
    ensures items { OnOk result (asm.new.items ≡ asm.old.items ++ flat_map (λ f. whole.items labels.now 0 (function_code bodies.now f)) functions.now) }
    ensures places { OnOk result (asm.new.places ≡ bound_from 0 (starts (words asm.old.items) (map (λ f. words (whole.items labels.now 0 (function_code bodies.now f))) functions.now)) asm.old.places) }
{
    let mut words = 0;
    let mut label = 0;
    for function in functions {
        asm.bind(label);
        words = sum(words, put_code(asm, alloc, labels, bodies, *function)?)?;
        label = sum(label, 1)?;
    }
    Ok(words)
}
