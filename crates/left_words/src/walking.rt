//! Words outward.

ghost use Rattle.std.specs.Prelude.{◌≡◌, ◌+◌, List, length, IfOk};
ghost use Rattle.smlc_base.specs.declared.point.Point.{Point as Place};
ghost use Rattle.smlc_base.specs.SiteWords.{is_left as left_in, handle_left, around, site_words};
ghost use Rattle.left_words.specs.Tables.{AreRanked, AreFirst, frame_at};

use crate::tables::{find, is_among};
use smlc_base::{NoMemory, Point, PointKind, Site};
use std::collections::{BTreeMap, BTreeSet};

// The frame of a `handle` has two labels, and one of them is enough.
fn is_handle_left(left: &BTreeSet<u64>, point: Point) -> bool
    ensures { (labels : List Place) → AreRanked labels left.now.keys → result ≡ handle_left labels point.node point.kind }
{
    match point.kind {
        PointKind::Caught => is_among(
            left,
            Point {
                node: point.node,
                kind: PointKind::Popped,
            },
        ),
        _ => false,
    }
}

fn is_left(left: &BTreeSet<u64>, point: Point) -> bool
    ensures { (labels : List Place) → AreRanked labels left.now.keys → result ≡ left_in labels point }
{
    is_among(left, point) || is_handle_left(left, point)
}

// The frame that comes next outward.
fn frame(
    left: &BTreeSet<u64>,
    sites: &[Site],
    numbers: &BTreeMap<u64, u32>,
    at: Option<Point>,
) -> Option<Site>
    requires { AreFirst sites.now sites.now numbers.now }
    ensures { (labels : List Place) → AreRanked labels left.now.keys → result ≡ frame_at labels sites.now at }
{
    match at {
        Some(point) => {
            if is_left(left, point) {
                None
            } else {
                find(sites, numbers, point)
            }
        }
        None => None,
    }
}

/// The sum. There is no memory for more words than numbers.
pub fn sum(total: u32, more: u32) -> Result<u32, NoMemory>
    ensures { IfOk result (λ n. n ≡ total + more) }
{
    match total.checked_add(more) {
        Some(sum) => Ok(sum),
        None => Err(NoMemory),
    }
}

// The words of the frames from a place outward.
fn outward(
    left: &BTreeSet<u64>,
    sites: &[Site],
    numbers: &BTreeMap<u64, u32>,
    start: Option<Point>,
) -> Result<u32, NoMemory>
    requires { AreFirst sites.now sites.now numbers.now }
    ensures { (labels : List Place) → AreRanked labels left.now.keys → IfOk result (λ n. n ≡ around (length sites.now) labels sites.now start) }
{
    let mut total = 0;
    let mut at = start;
    for _ in 0..sites.len() {
        match frame(left, sites, numbers, at) {
            Some(site) => {
                total = sum(total, site.words)?;
                at = site.outer;
            }
            None => return Ok(total),
        }
    }
    Ok(total)
}

/// The words of a point where these labels are left, by tables of labels and of sites.
pub fn words(
    left: &BTreeSet<u64>,
    sites: &[Site],
    numbers: &BTreeMap<u64, u32>,
    point: Point,
) -> Result<u32, NoMemory>
    requires { AreFirst sites.now sites.now numbers.now }
    ensures { (labels : List Place) → AreRanked labels left.now.keys → IfOk result (λ n. n ≡ site_words labels sites.now point) }
{
    match find(sites, numbers, point) {
        Some(site) => {
            let around = outward(left, sites, numbers, site.outer)?;
            sum(site.words, around)
        }
        None => Ok(0),
    }
}
