//! The fields of a tuple that a primitive takes apart.

ghost use Rattle.std.specs.Prelude.{ℕ, List, IfOk};
ghost use Rattle.cps_ir.specs.Code.{Code};
ghost use Rattle.cps_ir.specs.declared.atom.Atom.{Atom};
ghost use Rattle.convert_laws.specs.Convert.{with_fields};
ghost use Rattle.convert_pieces.specs.Emitted.{Emitted};

use convert_decide::sizes::sum;
use cps_ir::{Atom, Bind};
use smlc_base::{NoMemory, Row};
use std::alloc::Global;

/// Fields, and the next variable.
#[derive(Drop)]
pub struct Fields {
    pub atoms: Row<Atom>,
    pub next: u32,
}

/// Picks the first fields of a block.
///
/// # Errors
///
/// Want of memory, also where there are no more numbers for variables.
pub fn pick_fields(
    alloc: Global,
    binds: &mut Row<Bind>,
    count: u32,
    subject: Atom,
    next: u32,
) -> Result<Fields, NoMemory>
    ensures { IfOk result (λ r. (rest : List Atom → ℕ → Code) → Emitted binds.old binds.new (with_fields count 0 subject rest next) (rest r.atoms r.next)) }
{
    let mut atoms = Row::new(alloc);
    let mut later = next;
    for field in 0..count {
        binds.push(Bind::Pick {
            var: later,
            field,
            of: subject,
        })?;
        atoms.push(Atom::Var(later))?;
        later = sum(later, 1)?;
    }
    Ok(Fields { atoms, next: later })
}
