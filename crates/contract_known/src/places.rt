//! Atoms in the place of variables.

ghost use Rattle.std.specs.Prelude.{◌≡◌, IfOk};
ghost use Rattle.contract_round.specs.Round.{atom_in, atoms_in, wanted_in, test_in};
ghost use Rattle.contract_known.specs.Known.{place_of};

use cps_ir::{Atom, Test, Wanted};
use smlc_base::{NoMemory, Path, Row};
use std::alloc::Global;

/// The atom that stands in the place of another.
pub fn atom_in(places: &[Atom], atom: Atom) -> Atom
    ensures { result ≡ atom_in (place_of places.now) atom }
{
    match atom {
        Atom::Var(x) => match places.get(x as usize) {
            Some(place) => *place,
            None => atom,
        },
        Atom::Constant(_) => atom,
    }
}

/// The same of a row.
pub fn atoms_in(alloc: Global, places: &[Atom], atoms: &[Atom]) -> Result<Row<Atom>, NoMemory>
    ensures { IfOk result (λ v. v ≡ atoms_in (place_of places.now) atoms.now) }
{
    let mut found = Vec::new(alloc);
    for atom in atoms {
        found.push(atom_in(places, *atom))?;
    }
    Ok(Row::from_vec(found))
}

fn wanted_in(places: &[Atom], want: Wanted) -> Wanted
    ensures { result ≡ wanted_in (place_of places.now) want }
{
    match want {
        Wanted::Exn { name, applied } => Wanted::Exn {
            name: atom_in(places, name),
            applied,
        },
        _ => want,
    }
}

/// The same of a test.
pub fn test_in(alloc: Global, places: &[Atom], test: &Test) -> Result<Test, NoMemory>
    ensures { IfOk result (λ t. t ≡ test_in (place_of places.now) test.now) }
{
    let path = Path::from_steps(alloc, test.path.steps())?;
    Ok(Test {
        path,
        want: wanted_in(places, test.want),
    })
}
