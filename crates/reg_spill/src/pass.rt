//! The pass.

ghost use Rattle.std.specs.Prelude.{◌≡◌, IfOk};
ghost use Rattle.closure_ir.specs.Program as closing;
ghost use Rattle.placed_ir.specs.Program as placing;
ghost use Rattle.place_laws.specs.Place.{place_program};

use crate::frames::{spill, with_frames};
use crate::homes::at;
use crate::plain::place_plainly;
use crate::spills::spilled;
use crate::tables::{copied, copied_texts};
use closure_ir::Closed;
use placed_ir::Placed;
use smlc_base::{NoMemory, Row};
use std::alloc::Global;

/// The placed program, by the rule of places: a variable has one place through its life, and a body that spills begins by making its record.
///
/// # Errors
///
/// Want of memory.
pub fn place(alloc: Global, closed: &Closed) -> Result<Placed, NoMemory>
    ensures { IfOk result (λ p. placing.tree_of p ≡ place_program (closing.tree_of closed.now)) }
{
    let bodies = place_plainly(alloc, closed)?;
    let words = spilled(alloc, bodies.as_slice())?;
    let frame = at(words.as_slice(), 0);
    let functions = with_frames(alloc, closed.functions(), words.as_slice())?;
    let spill = spill(frame, functions.items())?;
    let points = copied(alloc, closed.points())?;
    let sites = copied(alloc, closed.sites.items())?;
    let texts = copied_texts(alloc, closed.texts.items())?;
    let exns = copied_texts(alloc, closed.exns.items())?;
    let placed = Placed {
        bodies: Row::from_vec(bodies),
        frame,
        functions,
        points,
        sites,
        texts,
        exns,
        spill,
    };
    Ok(placed)
}
