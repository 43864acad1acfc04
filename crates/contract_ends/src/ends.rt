//! Ends, with what stands in the place of their atoms.

ghost use Rattle.std.specs.Prelude.{◌≡◌, IfOk};
ghost use Rattle.cps_ir.specs.declared.body.End.TheVariants as end;
ghost use Rattle.cps_ir.specs.Code.{Equal, Throw};
ghost use Rattle.contract_round.specs.Round.{atom_in, atoms_in};
ghost use Rattle.contract_known.specs.Known.{place_of};
ghost use Rattle.contract_ends.specs.Ends.{IsEndLeft, IsCallLeft};

use contract_known::{atom_in, atoms_in};
use cps_ir::{Atom, End};
use smlc_base::NoMemory;
use std::alloc::Global;

/// What is left of a comparison.
pub fn equal_left(places: &[Atom], left: Atom, right: Atom, truth: bool, next: Atom) -> End
    ensures { IsEndLeft (place_of places.now) (Equal left right truth next) result }
{
    End::Equal {
        left: atom_in(places, left),
        right: atom_in(places, right),
        truth,
        next: atom_in(places, next),
    }
}

/// What is left of a packet that is thrown.
pub fn throw_left(places: &[Atom], packet: Atom) -> End
    ensures { IsEndLeft (place_of places.now) (Throw packet) result }
{
    End::Throw(atom_in(places, packet))
}

fn call_in(alloc: Global, places: &[Atom], function: Atom, atoms: &[Atom]) -> Result<End, NoMemory>
    ensures { IfOk result (λ e. e ≡ end.Call (atom_in (place_of places.now) function) (atoms_in (place_of places.now) atoms.now)) }
{
    let atoms = atoms_in(alloc, places, atoms)?;
    Ok(End::Call {
        function: atom_in(places, function),
        atoms,
    })
}

/// What is left of a call in whose place no body is put.
///
/// # Errors
///
/// Want of memory.
pub fn call_left(
    alloc: Global,
    places: &[Atom],
    function: Atom,
    atoms: &[Atom],
) -> Result<End, NoMemory>
    ensures { IfOk result (λ e. IsCallLeft (place_of places.now) function atoms.now e) }
{
    call_in(alloc, places, function, atoms)
}
