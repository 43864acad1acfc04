//! Ordered sets of numbers, and rows of them.

ghost use Rattle.std.specs.Prelude.{◌≡◌, ◌<◌, ◌&&◌, ◌||◌, nat_eq, length, replicate, ℕ, [], ◌∷◌, IfOk, OnOk};
ghost use Rattle.sml_tree.specs.Sets.{has, row_at, union};
ghost use Rattle.sml_tree.specs.IsBare.{IsAscending};
ghost use Rattle.cps_free.specs.Same.{AreSame};
ghost use Rattle.variable_users.specs.Rows.{rows_of};

use smlc_base::{NoMemory, Row};
use std::alloc::Global;
use std::collections::BTreeSet;

/// Whether a set has a member.
pub fn contains(set: &BTreeSet<u32>, x: u32) -> bool
    ensures { result ≡ has set.now.keys x }
{
    set.contains(&x)
}

/// Puts a number into a set.
pub fn insert(set: &mut BTreeSet<u32>, x: u32) -> Result<(), NoMemory>
    ensures { OnOk result (AreSame set.new.keys (union (x ∷ []) set.old.keys)) }
{
    set.insert(x)?;
    Ok(())
}

/// Puts a number into the set at a place, if there is one.
pub fn put(sets: &mut Vec<BTreeSet<u32>>, x: u32, n: u32) -> Result<(), NoMemory>
    ensures len { OnOk result (length sets.new.items ≡ length sets.old.items) }
    ensures members { OnOk result ((y z : ℕ) → y < length sets.old.items → has (row_at (rows_of sets.new.items) y) z ≡ ((nat_eq y x && nat_eq z n) || has (row_at (rows_of sets.old.items) y) z)) }
{
    match sets.get_mut(x as usize) {
        Some(set) => insert(set, n),
        None => Ok(()),
    }
}

/// So many empty sets.
pub fn empty_sets(alloc: Global, n: usize) -> Result<Vec<BTreeSet<u32>>, NoMemory>
    ensures { IfOk result (λ v. rows_of v.items ≡ replicate n []) }
{
    let mut sets = Vec::new(alloc);
    for _ in 0..n {
        sets.push(BTreeSet::new(alloc))?;
    }
    Ok(sets)
}

/// The members of a set, in order.
pub fn listed(alloc: Global, set: &BTreeSet<u32>) -> Result<Row<u32>, NoMemory>
    ensures items { IfOk result (λ r. r ≡ set.now.keys) }
    ensures ascending { IfOk result (λ r. IsAscending 0 r) }
{
    let members = set.iter().copied().collect(alloc)?;
    let _ = set.len();
    Ok(Row::from_vec(members))
}
