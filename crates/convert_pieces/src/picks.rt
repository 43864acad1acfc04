//! Fields that are picked along a way into a value.

ghost use Rattle.std.specs.Prelude.{◌≡◌, ℕ, suc, ◌≤◌, [], ◌∷◌, Some, None, List, IfOk, length, drop};
ghost use Rattle.cps_ir.specs.Code.{Code};
ghost use Rattle.cps_ir.specs.declared.atom.Atom.{Atom};
ghost use Rattle.convert_laws.specs.Convert.{Way, picks};
ghost use Rattle.convert_pieces.specs.Emitted.{Emitted};
ghost use Rattle.convert_pieces.specs.Ways.{stands_in, going};

use convert_decide::sizes::sum;
use cps_ir::{Atom, Bind};
use smlc_base::{NoMemory, Row};

/// The atom at the end of a way, and the next variable.
#[derive(Clone, Copy)]
pub struct Reached {
    pub atom: Atom,
    pub next: u32,
}

// The atom of a step of the way that was gone before, where it is of this field.
fn stands_in(way: &[(u32, Atom)], at: usize, field: u32) -> Option<Atom>
    ensures { result ≡ stands_in (drop at way.now) field }
{
    if at >= way.len() {
        return None;
    }
    let (before, atom) = way[at];
    if field == before { Some(atom) } else { None }
}

// A field that wasn't picked before.
fn new_step(
    binds: &mut Row<Bind>,
    way: &mut Row<(u32, Atom)>,
    at: usize,
    field: u32,
    atom: Atom,
    next: u32,
) -> Result<Reached, NoMemory>
    requires within { at ≤ length way.old }
    requires new { stands_in (drop at way.old) field ≡ None }
    ensures within { IfOk result (λ r. suc at ≤ length way.new) }
    ensures code { IfOk result (λ r. (path : List ℕ) (rest : Way → Atom → ℕ → Code) → Emitted binds.old binds.new (going way.old at (field ∷ path) atom rest next) (going way.new (suc at) path r.atom rest r.next)) }
{
    way.truncate(at);
    binds.push(Bind::Pick {
        var: next,
        field,
        of: atom,
    })?;
    way.push((field, Atom::Var(next)))?;
    let later = sum(next, 1)?;
    Ok(Reached {
        atom: Atom::Var(next),
        next: later,
    })
}

// One step of a way.
fn step(
    binds: &mut Row<Bind>,
    way: &mut Row<(u32, Atom)>,
    at: usize,
    field: u32,
    from: Reached,
) -> Result<Reached, NoMemory>
    requires within { at ≤ length way.old }
    ensures within { IfOk result (λ r. suc at ≤ length way.new) }
    ensures code { IfOk result (λ r. (path : List ℕ) (rest : Way → Atom → ℕ → Code) → Emitted binds.old binds.new (going way.old at (field ∷ path) from.atom rest from.next) (going way.new (suc at) path r.atom rest r.next)) }
{
    match stands_in(way.items(), at, field) {
        Some(atom) => Ok(Reached {
            atom,
            next: from.next,
        }),
        None => new_step(binds, way, at, field, from.atom, from.next),
    }
}

/// Goes a way into an atom, where another was gone before it: what both have isn't picked again. The way that was gone is then this one.
///
/// # Errors
///
/// Want of memory, also where there are no more numbers for variables.
pub fn pick(
    binds: &mut Row<Bind>,
    way: &mut Row<(u32, Atom)>,
    path: &[u32],
    subject: Atom,
    next: u32,
) -> Result<Reached, NoMemory>
    ensures { IfOk result (λ r. (rest : Way → Atom → ℕ → Code) → Emitted binds.old binds.new (picks way.old path.now subject rest next) (rest way.new r.atom r.next)) }
{
    let mut reached = Reached {
        atom: subject,
        next,
    };
    for at in 0..path.len() {
        reached = step(binds, way, at, path[at], reached)?;
    }
    way.truncate(path.len());
    Ok(reached)
}
