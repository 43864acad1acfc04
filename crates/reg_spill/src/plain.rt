//! The bodies of a program, before spill records.

ghost use Rattle.std.specs.Prelude.{◌≡◌, length, flat_map, IfOk};
ghost use Rattle.std.specs.List.{AllByRecursion};
ghost use Rattle.closure_ir.specs.Kept.{body_parts};
ghost use Rattle.closure_ir.specs.Program as closing;
ghost use Rattle.placed_ir.specs.Kept as there;
ghost use Rattle.placed_ir.specs.Program as placing;
ghost use Rattle.place_laws.specs.Place.{nowhere, place_code, place_plain};
ghost use Rattle.place_bodies.proofs.Unfold.{AreNumbered};
ghost use Rattle.reg_spill.specs.Leads.{AreKept};

use crate::program::place_all;
use crate::roots::begin;
use closed_live::live_variables;
use closure_ir::Closed;
use smlc_base::NoMemory;
use std::alloc::Global;

/// The placed bodies of a program, by number, none of which makes a spill record yet.
pub fn place_plainly(alloc: Global, program: &Closed) -> Result<Vec<placed_ir::Body>, NoMemory>
    ensures len { IfOk result (λ v. length v.items ≡ length program.now.bodies) }
    ensures kept { IfOk result (λ v. AreKept program.now v.items) }
    ensures numbered { IfOk result (λ v. AreNumbered v.items) }
    ensures parts { IfOk result (λ v. flat_map there.body_parts v.items ≡ flat_map body_parts program.now.bodies) }
    ensures main { IfOk result (λ v. placing.code_at v.items 0 ≡ place_code nowhere (closing.code_at program.now.bodies 0)) }
    ensures functions { IfOk result (λ v. AllByRecursion (λ f. placing.code_at v.items f.body ≡ place_plain (closing.routine_of program.now.bodies f)) program.now.functions) }
{
    let _ = program.bodies();
    let lives = live_variables(alloc, program)?;
    let entries = begin(alloc, program.functions(), lives.as_slice())?;
    let placed = place_all(alloc, program, lives.as_slice(), entries)?;
    Ok(placed)
}
