//! The table of free variables.

ghost use Rattle.std.specs.Prelude.{◌≡◌, IfOk, length};
ghost use Rattle.sml_tree.specs.IsBare.{IsAscending};
ghost use Rattle.sml_tree.specs.Sets.{row_at};
ghost use Rattle.cps_free.specs.Same.{AreSame};
ghost use Rattle.cps_free.specs.Rows.{body_free, AreFree};

use crate::binds::{step_back, use_end};
use cps_ir::{Body, Cps};
use smlc_base::{NoMemory, Row};
use std::alloc::Global;
use std::collections::BTreeSet;

/// The set of a body, and none past the last.
pub fn row(rows: &[Row<u32>], i: u32) -> &[u32]
    ensures { result.now ≡ row_at rows.now i }
{
    match rows.get(i as usize) {
        Some(found) => found.items(),
        None => &[],
    }
}

// The members of a set.
fn listed(alloc: Global, set: &BTreeSet<u32>) -> Result<Vec<u32>, NoMemory>
    ensures { IfOk result (λ v. v.items ≡ set.now.keys) }
{
    let members = set.iter().copied().collect(alloc)?;
    Ok(members)
}

// The free variables of a body, from those of the bodies that it names.
fn free_of_body(alloc: Global, body: &Body, frees: &[Row<u32>]) -> Result<Vec<u32>, NoMemory>
    ensures ascending { IfOk result (λ v. IsAscending 0 v.items) }
    ensures members { IfOk result (λ v. AreSame v.items (body_free (row_at frees.now) body.now)) }
{
    let mut set = BTreeSet::new(alloc);
    use_end(&mut set, &body.end, frees)?;
    let binds = body.binds.items();
    let mut i = binds.len();
    while i > 0 {
        i -= 1;
        step_back(&mut set, &binds[i], frees)?;
    }
    let _ = set.len();
    listed(alloc, &set)
}

// As many empty sets.
fn empty_rows(alloc: Global, n: usize) -> Result<Vec<Row<u32>>, NoMemory>
    ensures { IfOk result (λ v. length v.items ≡ n) }
{
    let mut rows = Vec::new(alloc);
    for _ in 0..n {
        rows.push(Row::new(alloc))?;
    }
    Ok(rows)
}

/// The free variables of all bodies of a program, by number.
pub fn free_variables(alloc: Global, program: &Cps) -> Result<Vec<Row<u32>>, NoMemory>
    ensures { IfOk result (λ v. AreFree program.now.bodies 0 v.items) }
{
    let bodies = program.bodies();
    let mut frees = empty_rows(alloc, bodies.len())?;
    let mut i = bodies.len();
    while i > 0 {
        i -= 1;
        let free = free_of_body(alloc, &bodies[i], &frees)?;
        frees[i] = Row::from_vec(free);
    }
    Ok(frees)
}
