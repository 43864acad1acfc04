//! All bodies of a program.

ghost use Rattle.std.specs.Prelude.{◌≡◌, ◌≤◌, ℕ, length, flat_map, IfOk};
ghost use Rattle.std.specs.List.{AllByRecursion};
ghost use Rattle.simulation.specs.Blocks.{IsAmong};
ghost use Rattle.closure_ir.specs.Kept.{body_parts};
ghost use Rattle.closure_ir.specs.Program as closing;
ghost use Rattle.placed_ir.specs.Kept as there;
ghost use Rattle.placed_ir.specs.Program as placing;
ghost use Rattle.place_laws.specs.Place.{Places, place_code};
ghost use Rattle.closed_live.specs.Rows.{AreLive};
ghost use Rattle.place_bodies.specs.Steps.{at_of, end_placed};
ghost use Rattle.place_bodies.specs.Whole.{HasPlaces};
ghost use Rattle.place_bodies.proofs.Binds.{Fits};
ghost use Rattle.place_bodies.proofs.Unfold.{AreNumbered};
ghost use Rattle.reg_spill.specs.Leads.{Leads, Keeps, AreKept};

use crate::body::place_body;
use crate::entries::{begin_parts, load};
use closed_live::live_along;
use closure_ir::{Body, Closed, Variable};
use smlc_base::{NoMemory, Row};
use std::alloc::Global;

pub(crate) fn zeros(alloc: Global, n: usize) -> Result<Vec<u32>, NoMemory>
    ensures { IfOk result (λ v. length v.items ≡ n) }
{
    let mut table = Vec::new(alloc);
    for _ in 0..n {
        table.push(0)?;
    }
    Ok(table)
}

// A body, with what lives before it and the places that it begins with; the table has the places at its end.
fn place_next(
    alloc: Global,
    body: &Body,
    live: &[Variable],
    entry: &[u32],
    lives: &[Row<u32>],
    table: &mut Vec<u32>,
) -> Result<placed_ir::Body, NoMemory>
    requires { AllByRecursion (Fits (length table.old.items)) body.now.binds }
    ensures long { IfOk result (λ t. length table.old.items ≤ length table.new.items) }
    ensures last { IfOk result (λ t. t.end ≡ end_placed (at_of table.new.items) body.now.end) }
    ensures kept { IfOk result (λ t. Keeps body.now t) }
    ensures steps { IfOk result (λ t. Leads lives.now body.now live.now entry.now t.steps table.new.items) }
{
    load(table, live, entry)?;
    let along = live_along(alloc, body, lives)?;
    let placed = place_body(alloc, body, along.as_slice(), table)?;
    Ok(placed)
}

/// The bodies of a program, by number, with what lives before each and the places with which those begin that stand in no other.
pub fn place_all(
    alloc: Global,
    program: &Closed,
    lives: &[Row<u32>],
    mut entries: Vec<Row<u32>>,
) -> Result<Vec<placed_ir::Body>, NoMemory>
    requires lives { AreLive program.now.bodies 0 lives.now }
    requires entries { length entries.items ≡ length program.now.bodies }
    ensures len { IfOk result (λ v. length v.items ≡ length program.now.bodies) }
    ensures kept { IfOk result (λ v. AreKept program.now v.items) }
    ensures numbered { IfOk result (λ v. AreNumbered v.items) }
    ensures parts { IfOk result (λ v. flat_map there.body_parts v.items ≡ flat_map body_parts program.now.bodies) }
    ensures placed { IfOk result (λ v. (i : ℕ) (at : Places) → (IsAmong i (flat_map body_parts program.now.bodies) → ⊥) → HasPlaces lives.now entries.items i at → place_code at (closing.code_at program.now.bodies i) ≡ placing.code_at v.items i) }
{
    let bodies = program.bodies();
    let mut table = zeros(alloc, program.variables() as usize)?;
    let mut placed = Vec::new(alloc);
    for i in 0..bodies.len() {
        let body = place_next(
            alloc,
            &bodies[i],
            lives[i].items(),
            entries[i].items(),
            lives,
            &mut table,
        )?;
        begin_parts(alloc, &bodies[i].end, table.as_slice(), lives, &mut entries)?;
        placed.push(body)?;
    }
    Ok(placed)
}
