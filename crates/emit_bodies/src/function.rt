//! Functions, with their spill records.

ghost use Rattle.std.specs.Prelude.{◌≡◌, ◌++◌, OnOk};
ghost use Rattle.placed_ir.specs.Program.{function_code};
ghost use Rattle.place_bodies.proofs.Unfold.{AreNumbered};
ghost use Rattle.emit_items.specs.Making as making;
ghost use Rattle.emit_items.specs.Body as whole;

use crate::body::put_body;
use emit_code::{Text, make_frame};
use emit_items::Labels;
use placed_ir::{Body, Function};
use smlc_base::NoMemory;
use std::alloc::Global;

fn frame_in_front(
    text: &mut Text,
    alloc: Global,
    labels: &Labels,
    frame: u32,
) -> Result<(), NoMemory>
    ensures { OnOk result (text.new ≡ making.framed labels.now frame ++ text.old) }
{
    let mut piece = Vec::new(alloc);
    make_frame(&mut piece, labels, frame)?;
    text.put_in_front(piece.as_slice())
}

/// Puts a function's body in front of the text, with its spill record in front where it has one.
///
/// # Errors
///
/// Want of memory.
pub fn put_function(
    text: &mut Text,
    alloc: Global,
    labels: &Labels,
    bodies: &[Body],
    function: Function,
) -> Result<(), NoMemory>
    requires { AreNumbered bodies.now }
    ensures { OnOk result (text.new ≡ whole.items labels.now 0 (function_code bodies.now function) ++ text.old) }
{
    put_body(text, alloc, labels, bodies, function.body)?;
    if function.frame == 0 {
        Ok(())
    } else {
        frame_in_front(text, alloc, labels, function.frame)?;
        Ok(())
    }
}
