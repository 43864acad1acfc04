//! The table of living variables, and what lives along a body.

ghost use Rattle.std.specs.Prelude.{◌≡◌, IfOk, length};
ghost use Rattle.sml_tree.specs.Sets.{row_at};
ghost use Rattle.closed_live.specs.Same.{AreSame};
ghost use Rattle.closed_live.specs.Rows.{body_live, AreLive, AreAlong};

use crate::binds::{step_back, use_end};
use closure_ir::{Body, Closed};
use smlc_base::{NoMemory, Row};
use std::alloc::Global;
use std::collections::BTreeSet;

/// The set of a body, and none past the last.
pub fn row(rows: &[Row<u32>], i: u32) -> &[u32]
    ensures { result.now ≡ row_at rows.now i }
{
    match rows.get(i as usize) {
        Some(found) => found.items(),
        None => &[],
    }
}

// The members of a set.
fn listed(alloc: Global, set: &BTreeSet<u32>) -> Result<Vec<u32>, NoMemory>
    ensures { IfOk result (λ v. v.items ≡ set.now.keys) }
{
    let members = set.iter().copied().collect(alloc)?;
    Ok(members)
}

// What lives before a body, from what lives before the bodies that it names.
fn live_of_body(alloc: Global, body: &Body, lives: &[Row<u32>]) -> Result<Vec<u32>, NoMemory>
    ensures { IfOk result (λ v. AreSame v.items (body_live (row_at lives.now) body.now)) }
{
    let mut set = BTreeSet::new(alloc);
    use_end(&mut set, &body.end, lives)?;
    let binds = body.binds.items();
    let mut i = binds.len();
    while i > 0 {
        i -= 1;
        step_back(&mut set, &binds[i])?;
    }
    listed(alloc, &set)
}

// As many empty sets.
fn empty_rows(alloc: Global, n: usize) -> Result<Vec<Row<u32>>, NoMemory>
    ensures { IfOk result (λ v. length v.items ≡ n) }
{
    let mut rows = Vec::new(alloc);
    for _ in 0..n {
        rows.push(Row::new(alloc))?;
    }
    Ok(rows)
}

/// What lives behind each binding of a body, in order, from what lives before the bodies that it names.
pub fn live_along(alloc: Global, body: &Body, lives: &[Row<u32>]) -> Result<Vec<Row<u32>>, NoMemory>
    ensures { IfOk result (λ v. AreAlong (row_at lives.now) body.now 0 v.items) }
{
    let mut set = BTreeSet::new(alloc);
    use_end(&mut set, &body.end, lives)?;
    let binds = body.binds.items();
    let mut along = empty_rows(alloc, binds.len())?;
    let mut i = binds.len();
    while i > 0 {
        i -= 1;
        along[i] = Row::from_vec(listed(alloc, &set)?);
        step_back(&mut set, &binds[i])?;
    }
    Ok(along)
}

/// The variables that live before each body of a program, by number.
pub fn live_variables(alloc: Global, program: &Closed) -> Result<Vec<Row<u32>>, NoMemory>
    ensures { IfOk result (λ v. AreLive program.now.bodies 0 v.items) }
{
    let bodies = program.bodies();
    let mut lives = empty_rows(alloc, bodies.len())?;
    let mut i = bodies.len();
    while i > 0 {
        i -= 1;
        let live = live_of_body(alloc, &bodies[i], &lives)?;
        lives[i] = Row::from_vec(live);
    }
    Ok(lives)
}
