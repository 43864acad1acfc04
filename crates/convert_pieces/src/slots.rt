//! The parts of a tuple, in the order of their slots.

ghost use Rattle.std.specs.Prelude.{◌≡◌, IfOk};
ghost use Rattle.convert_laws.specs.Convert.{item_of, in_slots};

use cps_ir::Atom;
use lambda_ir::Part;
use smlc_base::{NoMemory, Row};
use std::alloc::Global;

// The atom of a slot.
fn item_of(parts: &[Part], atoms: &[Atom], slot: u32) -> Option<Atom>
    ensures { result ≡ item_of parts.now atoms.now slot }
{
    for at in 0..parts.len() {
        if at >= atoms.len() {
            return None;
        }
        if slot == parts[at].slot {
            return Some(atoms[at]);
        }
    }
    None
}

/// What parts came to, in the order of their slots.
///
/// # Errors
///
/// Want of memory, also where there are more parts than numbers.
pub fn in_slots(alloc: Global, parts: &[Part], atoms: &[Atom]) -> Result<Row<Atom>, NoMemory>
    ensures { IfOk result (λ r. r ≡ in_slots parts.now atoms.now) }
{
    let Ok(count) = u32::try_from(parts.len()) else {
        return Err(NoMemory);
    };
    let mut found = Row::new(alloc);
    for slot in 0..count {
        if let Some(atom) = item_of(parts, atoms, slot) {
            found.push(atom)?;
        }
    }
    Ok(found)
}
