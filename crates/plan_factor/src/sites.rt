//! The words of sites.

ghost use Rattle.std.specs.Prelude.{◌≡◌, ◌+◌, slice_get, IfOk, OnOk};
ghost use Rattle.sml_tree.specs.Sets.{union};
ghost use Rattle.cps_free.specs.Same.{AreSame};
ghost use Rattle.close_laws.specs.Plan.{quotient as quotient_of};
ghost use Rattle.plan_factor.specs.Groups.{AreAscending, words_at, classes_at, words_in, classes_in};

use closure_layouts::ClosureLayout;
use closure_layouts::tables::insert_all;
use label_plans::measures::closure_words;
use left_words::walking::sum;
use smlc_base::{NoMemory, Row};
use std::alloc::Global;
use std::collections::BTreeSet;
use variable_users::sets::listed;

fn function_words(layouts: &[ClosureLayout], i: u32) -> Result<u32, NoMemory>
    ensures { IfOk result (λ n. n ≡ words_at (slice_get layouts.now i)) }
{
    match layouts.get(i as usize) {
        Some(layout) => closure_words(layout),
        None => Ok(0),
    }
}

/// The words of the closures of some functions.
pub(crate) fn group_words(layouts: &[ClosureLayout], group: &[u32]) -> Result<u32, NoMemory>
    ensures { IfOk result (λ n. n ≡ words_in layouts.now group.now) }
{
    let mut total = 0;
    let mut i = group.len();
    while i > 0 {
        i -= 1;
        let words = function_words(layouts, group[i])?;
        total = sum(words, total)?;
    }
    Ok(total)
}

fn insert_classes(
    set: &mut BTreeSet<u32>,
    layouts: &[ClosureLayout],
    i: u32,
) -> Result<(), NoMemory>
    ensures { OnOk result (AreSame set.new.keys (union (classes_at (slice_get layouts.now i)) set.old.keys)) }
{
    match layouts.get(i as usize) {
        Some(layout) => insert_all(set, layout.classes.items()),
        None => Ok(()),
    }
}

/// The different classes whose records the closures of some functions name.
pub(crate) fn group_classes(
    alloc: Global,
    layouts: &[ClosureLayout],
    group: &[u32],
) -> Result<Row<u32>, NoMemory>
    requires { AreAscending layouts.now }
    ensures { IfOk result (λ r. r ≡ classes_in layouts.now group.now) }
{
    let mut set = BTreeSet::new(alloc);
    for i in group {
        insert_classes(&mut set, layouts, *i)?;
    }
    let _ = set.len();
    listed(alloc, &set)
}

/// A quotient, rounded up.
pub(crate) fn quotient(words: u32, by: u32) -> Result<u32, NoMemory>
    ensures { IfOk result (λ n. n ≡ quotient_of words by) }
{
    if by == 0 {
        return Ok(0);
    }
    let most = sum(words, by - 1)?;
    Ok(most / by)
}
