//! The names of a rule, each at the end of a way into the subject.

ghost use Rattle.std.specs.Prelude.{ℕ, IfOk};
ghost use Rattle.cps_ir.specs.Code.{Code};
ghost use Rattle.convert_laws.specs.Convert.{Scope, bind_names};
ghost use Rattle.convert_pieces.specs.Emitted.{Emitted};
ghost use Rattle.convert_pieces.specs.Names.{bound_to};

use crate::picks::pick;
use cps_ir::{Atom, Bind};
use smlc_base::{Name, Named, NoMemory, Row};
use std::alloc::Global;

/// A name with its atom.
#[derive(Clone, Copy)]
pub struct BoundName {
    pub name: Name,
    pub atom: Atom,
}

/// The names of a rule with their atoms, and the next variable.
#[derive(Drop)]
pub struct Picked {
    pub names: Row<BoundName>,
    pub next: u32,
}

/// Picks the fields that the names of a rule stand for.
///
/// # Errors
///
/// Want of memory, also where there are no more numbers for variables.
pub fn pick_names(
    alloc: Global,
    binds: &mut Row<Bind>,
    names: &[Named],
    subject: Atom,
    next: u32,
) -> Result<Picked, NoMemory>
    ensures { IfOk result (λ r. (σ : Scope) (rest : Scope → ℕ → Code) → Emitted binds.old binds.new (bind_names names.now subject σ rest next) (rest (bound_to r.names σ) r.next)) }
{
    let mut found = Row::new(alloc);
    let mut way = Row::new(alloc);
    let mut later = next;
    for named in names {
        let reached = pick(binds, &mut way, named.path.steps(), subject, later)?;
        found.push(BoundName {
            name: named.name,
            atom: reached.atom,
        })?;
        later = reached.next;
    }
    Ok(Picked {
        names: found,
        next: later,
    })
}
