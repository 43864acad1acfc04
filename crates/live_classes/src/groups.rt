//! Variables by key.

ghost use Rattle.std.specs.Prelude.{◌≡◌, cond, [], ◌∷◌, ◌++◌, false, ℕ, IfOk, OnOk};
ghost use Rattle.std.specs.Global.{Vec};
ghost use Rattle.lifetime_users.specs.Users.{same_numbers};
ghost use Rattle.live_classes.specs.Keys.{grouped, key_at, with_key};

use crate::keys::key;
use smlc_base::{NoMemory, Row};
use std::alloc::Global;
use std::collections::BTreeMap;

/// The variables of a key.
pub(crate) fn group<'a>(groups: &'a BTreeMap<Vec<u32>, Row<u32>>, key: &Vec<u32>) -> &'a [u32]
    ensures { result.now ≡ grouped groups.now key.now }
{
    match groups.get(key) {
        Some(row) => row.items(),
        None => &[],
    }
}

// Takes out the variables of a key.
fn taken(alloc: Global, groups: &mut BTreeMap<Vec<u32>, Row<u32>>, key: &Vec<u32>) -> Row<u32>
    ensures row { result ≡ grouped groups.old key.now }
    ensures rest { (q : Vec ℕ) → same_numbers key.now.items q.items ≡ false → grouped groups.new q ≡ grouped groups.old q }
{
    match groups.remove(key) {
        Some(row) => row,
        None => Row::new(alloc),
    }
}

// Gives a key these variables.
fn put(
    groups: &mut BTreeMap<Vec<u32>, Row<u32>>,
    key: Vec<u32>,
    row: Row<u32>,
) -> Result<(), NoMemory>
    ensures { OnOk result ((q : Vec ℕ) → grouped groups.new q ≡ cond (same_numbers key.items q.items) row (grouped groups.old q)) }
{
    groups.insert(key, row)?;
    Ok(())
}

fn add(
    alloc: Global,
    groups: &mut BTreeMap<Vec<u32>, Row<u32>>,
    key: Vec<u32>,
    x: u32,
) -> Result<(), NoMemory>
    ensures { OnOk result ((q : Vec ℕ) → grouped groups.new q ≡ cond (same_numbers key.items q.items) (grouped groups.old q ++ x ∷ []) (grouped groups.old q)) }
{
    let mut row = taken(alloc, groups, &key);
    row.push(x)?;
    put(groups, key, row)
}

/// Variables by key, where they ascend.
pub(crate) fn group_all(
    alloc: Global,
    homes: &[Option<u32>],
    users: &[Row<u32>],
    variables: &[u32],
) -> Result<BTreeMap<Vec<u32>, Row<u32>>, NoMemory>
    ensures { IfOk result (λ m. (q : Vec ℕ) → grouped m q ≡ with_key (key_at homes.now users.now) variables.now q.items) }
{
    let mut groups = BTreeMap::new(alloc);
    for x in variables {
        let key = key(alloc, homes, users, *x)?;
        add(alloc, &mut groups, key, *x)?;
    }
    Ok(groups)
}
