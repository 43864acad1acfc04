//! Labels and sites by rank.

ghost use Rattle.std.specs.Prelude.{◌≡◌, slice_get, [], ◌∷◌, IfOk, OnOk};
ghost use Rattle.smlc_base.specs.SiteWords.{find_site};
ghost use Rattle.sml_tree.specs.Order.{rank as rank_of};
ghost use Rattle.sml_tree.specs.Sets.{has, union};
ghost use Rattle.cps_free.specs.Same.{AreSame};
ghost use Rattle.left_words.specs.Tables.{AreRanked, AreFirst};

use smlc_base::{NoMemory, Point, Site};
use std::alloc::Global;
use std::collections::{BTreeMap, BTreeSet};
use variable_users::labels::rank;

fn insert(set: &mut BTreeSet<u64>, rank: u64) -> Result<(), NoMemory>
    ensures { OnOk result (AreSame set.new.keys (union (rank ∷ []) set.old.keys)) }
{
    set.insert(rank)?;
    Ok(())
}

/// The ranks of labels.
pub fn left_ranks(alloc: Global, left: &[Point]) -> Result<BTreeSet<u64>, NoMemory>
    ensures { IfOk result (λ s. AreRanked left.now s.keys) }
{
    let mut ranks = BTreeSet::new(alloc);
    let mut i = left.len();
    while i > 0 {
        i -= 1;
        insert(&mut ranks, rank(left[i]))?;
    }
    Ok(ranks)
}

/// Whether a point is one of the labels.
pub(crate) fn is_among(ranks: &BTreeSet<u64>, point: Point) -> bool
    ensures { result ≡ has ranks.now.keys (rank_of point) }
{
    let rank = rank(point);
    ranks.contains(&rank)
}

/// The number. There is no memory for more things than numbers.
pub fn number(place: usize) -> Result<u32, NoMemory>
    ensures { IfOk result (λ n. n ≡ place) }
{
    match u32::try_from(place) {
        Ok(number) => Ok(number),
        Err(_) => Err(NoMemory),
    }
}

/// The numbers of the sites of points by rank.
pub fn site_numbers(alloc: Global, sites: &[Site]) -> Result<BTreeMap<u64, u32>, NoMemory>
    ensures { IfOk result (λ m. AreFirst sites.now sites.now m) }
{
    let mut numbers = BTreeMap::new(alloc);
    let mut i = sites.len();
    while i > 0 {
        i -= 1;
        numbers.insert(rank(sites[i].point), number(i)?)?;
    }
    Ok(numbers)
}

fn site_at(sites: &[Site], i: u32) -> Option<Site>
    ensures { result ≡ slice_get sites.now i }
{
    match sites.get(i as usize) {
        Some(site) => Some(*site),
        None => None,
    }
}

/// The site of a point.
pub fn find(sites: &[Site], numbers: &BTreeMap<u64, u32>, point: Point) -> Option<Site>
    requires { AreFirst sites.now sites.now numbers.now }
    ensures { result ≡ find_site sites.now point }
{
    let rank = rank(point);
    match numbers.get(&rank) {
        Some(i) => site_at(sites, *i),
        None => None,
    }
}
