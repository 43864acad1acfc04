//! The users of variables.

ghost use Rattle.std.specs.Prelude.{◌≡◌, ◌<◌, ◌&&◌, ◌||◌, nat_eq, length, ℕ, IfOk, OnOk};
ghost use Rattle.sml_tree.specs.Sets.{has, row_at};
ghost use Rattle.variable_users.specs.Ranks.{AreRanks};
ghost use Rattle.variable_users.specs.Rows.{rows_of, ArePut, AreUsers};

use crate::labels::{label, ranks};
use crate::sets::{empty_sets, listed, put};
use cps_survey::Layout;
use smlc_base::{NoMemory, Row};
use std::alloc::Global;
use std::collections::BTreeSet;

// Puts a label into the sets of all these variables.
fn add_label(sets: &mut Vec<BTreeSet<u32>>, free: &[u32], label: u32) -> Result<(), NoMemory>
    ensures len { OnOk result (length sets.new.items ≡ length sets.old.items) }
    ensures members { OnOk result ((y z : ℕ) → y < length sets.old.items → has (row_at (rows_of sets.new.items) y) z ≡ ((has free.now y && nat_eq z label) || has (row_at (rows_of sets.old.items) y) z)) }
{
    for x in free {
        put(sets, *x, label)?;
    }
    Ok(())
}

// The sets of the users of so many variables.
fn user_sets(alloc: Global, layouts: &[Layout], n: usize) -> Result<Vec<BTreeSet<u32>>, NoMemory>
    ensures { IfOk result (λ v. ArePut layouts.now layouts.now n (rows_of v.items)) }
{
    let ranks = ranks(alloc, layouts)?;
    let mut sets = empty_sets(alloc, n)?;
    for layout in layouts {
        let label = label(&ranks, layout.point())?;
        add_label(&mut sets, layout.free(), label)?;
    }
    Ok(sets)
}

/// The users of all variables below n, by number.
pub fn users_of_variables(
    alloc: Global,
    layouts: &[Layout],
    n: usize,
) -> Result<Vec<Row<u32>>, NoMemory>
    ensures { IfOk result (λ v. AreUsers layouts.now n v.items) }
{
    let sets = user_sets(alloc, layouts, n)?;
    let mut rows = Vec::new(alloc);
    for set in &sets {
        rows.push(listed(alloc, set)?)?;
    }
    Ok(rows)
}
