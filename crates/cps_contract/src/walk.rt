//! One round: a census, and the walk of all bodies.

ghost use Rattle.std.specs.Prelude.{◌≡◌, ℕ, None, IfOk, length, get_or};
ghost use Rattle.cps_ir.specs.declared.atom.Atom.TheVariants.{Var};
ghost use Rattle.cps_ir.specs.Program.{code_at};
ghost use Rattle.contract_known.specs.Known.{place_of};
ghost use Rattle.contract_round.specs.Round.{round};
ghost use Rattle.contract_rows.specs.Rows.{IsOneTree};
ghost use Rattle.contract_steps.specs.State.{state_of};
ghost use Rattle.contract_holds.specs.Law.{IsBegun};

use contract_census::census;
use contract_group::{Placed, Task, put_empty};
use contract_known::Block;
use contract_steps::{Round, walk_task};
use cps_ir::{Atom, Body, Cps, Variable};
use smlc_base::NoMemory;
use std::alloc::Global;

// Each variable stands for itself.
fn themselves(alloc: Global, variables: Variable) -> Result<Vec<Atom>, NoMemory>
    ensures count { IfOk result (λ v. length v.items ≡ variables) }
    ensures each { IfOk result (λ v. (x : ℕ) → place_of v.items x ≡ Var x) }
{
    let mut places = Vec::new(alloc);
    for x in 0..variables {
        places.push(Atom::Var(x))?;
    }
    Ok(places)
}

fn no_blocks(alloc: Global, variables: Variable) -> Result<Vec<Option<Block>>, NoMemory>
    ensures count { IfOk result (λ v. length v.items ≡ variables) }
    ensures each { IfOk result (λ v. (x : ℕ) → get_or v.items x None ≡ None) }
{
    let mut blocks = Vec::new(alloc);
    for _ in 0..variables {
        blocks.push(None)?;
    }
    Ok(blocks)
}

fn none_placed(alloc: Global, variables: Variable) -> Result<Vec<Option<Placed>>, NoMemory>
    ensures count { IfOk result (λ v. length v.items ≡ variables) }
    ensures each { IfOk result (λ v. (x : ℕ) → get_or v.items x None ≡ None) }
{
    let mut placed = Vec::new(alloc);
    for _ in 0..variables {
        placed.push(None)?;
    }
    Ok(placed)
}

// Nothing is entered, and the whole is to be walked.
fn begin(alloc: Global, variables: Variable) -> Result<Round, NoMemory>
    ensures { IfOk result (λ r. IsBegun variables (state_of r)) }
{
    let places = themselves(alloc, variables)?;
    let blocks = no_blocks(alloc, variables)?;
    let placed = none_placed(alloc, variables)?;
    let mut bodies = Vec::new(alloc);
    put_empty(alloc, &mut bodies)?;
    let mut work = Vec::new(alloc);
    work.push(Task {
        body: 0,
        root: 0,
        slot: 0,
    })?;
    Ok(Round {
        places,
        blocks,
        placed,
        bodies,
        work,
    })
}

/// The bodies that a round makes of a program.
///
/// # Errors
///
/// Want of memory.
pub fn walk_all(alloc: Global, program: &Cps) -> Result<Vec<Body>, NoMemory>
    ensures { IfOk result (λ v. IsOneTree v.items × (code_at v.items 0 ≡ round program.now.texts (code_at program.now.bodies 0))) }
{
    let _ = program.bodies();
    let counts = census(alloc, program)?;
    let mut round = begin(alloc, program.variables())?;
    while let Some(task) = round.work.pop() {
        walk_task(alloc, program, counts.as_slice(), &mut round, task)?;
    }
    Ok(round.bodies)
}
