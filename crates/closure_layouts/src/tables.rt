//! The classes of labels, and what all classes have.

ghost use Rattle.std.specs.Prelude.{◌≡◌, ◌<◌, ◌&&◌, ◌||◌, nat_eq, length, replicate, ℕ, [], ◌∷◌, IfOk, OnOk};
ghost use Rattle.std.specs.List.{list_any};
ghost use Rattle.sml_tree.specs.Sets.{has, row_at, union, union_over};
ghost use Rattle.sml_tree.specs.IsBare.{IsAscending};
ghost use Rattle.cps_free.specs.Same.{AreSame};
ghost use Rattle.variable_users.specs.Rows.{rows_of};
ghost use Rattle.closure_layouts.specs.Tables.{AreNumbered, AreClassRows};

use lifetime_users::Class;
use smlc_base::{Label, NoMemory, Row};
use std::alloc::Global;
use std::collections::BTreeSet;
use variable_users::sets::{empty_sets, insert, listed, put};

/// Puts all of a list into a set.
pub fn insert_all(set: &mut BTreeSet<u32>, xs: &[u32]) -> Result<(), NoMemory>
    ensures { OnOk result (AreSame set.new.keys (union xs.now set.old.keys)) }
{
    let mut i = xs.len();
    while i > 0 {
        i -= 1;
        insert(set, xs[i])?;
    }
    Ok(())
}

/// All variables that classes have.
pub(crate) fn shared(alloc: Global, classes: &[Class]) -> Result<BTreeSet<u32>, NoMemory>
    ensures { IfOk result (λ s. AreSame s.keys (union_over (λ k. k.vars) classes.now)) }
{
    let mut set = BTreeSet::new(alloc);
    for class in classes {
        insert_all(&mut set, class.vars.items())?;
    }
    Ok(set)
}

// Puts the number of a class into the sets of its users.
fn add_class(sets: &mut Vec<BTreeSet<u32>>, users: &[Label], n: u32) -> Result<(), NoMemory>
    ensures len { OnOk result (length sets.new.items ≡ length sets.old.items) }
    ensures members { OnOk result ((y z : ℕ) → y < length sets.old.items → has (row_at (rows_of sets.new.items) y) z ≡ ((list_any (λ u. nat_eq u.0 y) users.now && nat_eq z n) || has (row_at (rows_of sets.old.items) y) z)) }
{
    for user in users {
        put(sets, user.0, n)?;
    }
    Ok(())
}

// There is no memory for more classes than numbers.
fn number(place: usize) -> Result<u32, NoMemory>
    ensures { IfOk result (λ n. n ≡ place) }
{
    match u32::try_from(place) {
        Ok(number) => Ok(number),
        Err(_) => Err(NoMemory),
    }
}

// The numbers of the classes of n labels.
fn class_sets(alloc: Global, classes: &[Class], n: usize) -> Result<Vec<BTreeSet<u32>>, NoMemory>
    ensures { IfOk result (λ v. AreNumbered classes.now n (rows_of v.items)) }
{
    let mut sets = empty_sets(alloc, n)?;
    for i in 0..classes.len() {
        add_class(&mut sets, classes[i].users.items(), number(i)?)?;
    }
    Ok(sets)
}

/// The numbers of the classes that have a label among their users, for all labels below n.
pub(crate) fn class_rows(
    alloc: Global,
    classes: &[Class],
    n: usize,
) -> Result<Vec<Row<u32>>, NoMemory>
    ensures { IfOk result (λ v. AreClassRows classes.now n v.items) }
{
    let sets = class_sets(alloc, classes, n)?;
    let mut rows = Vec::new(alloc);
    for set in &sets {
        rows.push(listed(alloc, set)?)?;
    }
    Ok(rows)
}
