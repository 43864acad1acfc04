//! The step at a call.

ghost use Rattle.std.specs.Prelude.{◌≡◌, OnOk};
ghost use Rattle.contract_binds.specs.Binds.{put};
ghost use Rattle.contract_steps.specs.State.{state_of};
ghost use Rattle.contract_steps.specs.Steps.{is_placed, placed_for, without_placed, put_arguments, CallStep};

use crate::round::Round;
use contract_ends::call_left;
use contract_group::{Placed, Task, put_end};
use contract_known::atoms_in;
use cps_ir::{Atom, Variable};
use smlc_base::NoMemory;
use std::alloc::Global;

// Whether the function of this number is to be put where it is called with so many arguments.
fn is_placed(placed: &[Option<Placed>], at: usize, count: usize) -> bool
    ensures { result ≡ is_placed placed.now at count }
{
    match placed.get(at) {
        Some(Some(found)) => found.params.len() == count,
        _ => false,
    }
}

// The function that is put in the place of a call with so many arguments, which goes out of the table.
fn take_placed(placed: &mut Vec<Option<Placed>>, function: Atom, count: usize) -> Option<Placed>
    ensures found { result ≡ placed_for placed.old.items function count }
    ensures placed { placed.new.items ≡ without_placed function count placed.old.items }
{
    match function {
        Atom::Var(f) => {
            let at = f as usize;
            if is_placed(placed.as_slice(), at, count) {
                std::mem::replace(&mut placed[at], None)
            } else {
                None
            }
        }
        Atom::Constant(_) => None,
    }
}

fn put_place(places: &mut Vec<Atom>, x: Variable, atom: Atom)
    ensures { places.new.items ≡ put x atom places.old.items }
{
    let at = x as usize;
    if at < places.len() {
        places[at] = atom;
    }
}

// Arguments in the place of parameters.
fn put_arguments(places: &mut Vec<Atom>, params: &[Variable], atoms: &[Atom])
    ensures { places.new.items ≡ put_arguments params.now atoms.now places.old.items }
{
    let mut i = 0;
    while i < params.len() && i < atoms.len() {
        put_place(places, params[i], atoms[i]);
        i += 1;
    }
}

/// A call: the body of the function in its place, or the call.
///
/// # Errors
///
/// Want of memory.
pub fn walk_call(
    alloc: Global,
    round: &mut Round,
    task: Task,
    function: Atom,
    atoms: &[Atom],
) -> Result<(), NoMemory>
    ensures { OnOk result (CallStep task function atoms.now (state_of round.old) (state_of round.new)) }
{
    match take_placed(&mut round.placed, function, atoms.len()) {
        Some(placed) => {
            let atoms = atoms_in(alloc, round.places.as_slice(), atoms)?;
            put_arguments(&mut round.places, placed.params.items(), atoms.items());
            round.work.push(Task {
                body: placed.body,
                ..task
            })?;
            Ok(())
        }
        None => {
            let end = call_left(alloc, round.places.as_slice(), function, atoms)?;
            put_end(&mut round.bodies, task.slot, end);
            Ok(())
        }
    }
}
