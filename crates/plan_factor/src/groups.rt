//! Functions by site.

ghost use Rattle.std.specs.Prelude.{◌≡◌, ℕ, cond, nat_eq, false, slice_get, [], ◌∷◌, ◌++◌, IfOk, OnOk};
ghost use Rattle.close_laws.specs.Plan.{caught_kind, frame_point};
ghost use Rattle.plan_factor.specs.Groups.{frame_rank as frame_rank_of, grouped, has_rank, with_rank};

use cps_survey::Layout;
use smlc_base::{NoMemory, Point, PointKind, Row};
use std::alloc::Global;
use std::collections::BTreeMap;
use variable_users::labels::rank;

fn frame_kind(kind: PointKind) -> PointKind
    ensures { result ≡ caught_kind kind }
{
    match kind {
        PointKind::Popped => PointKind::Caught,
        _ => kind,
    }
}

/// The point of a site: the frame of a `handle` is named by its `Caught`.
pub(crate) fn frame(point: Point) -> Point
    ensures { result ≡ frame_point point }
{
    Point {
        node: point.node,
        kind: frame_kind(point.kind),
    }
}

pub(crate) fn frame_rank(point: Point) -> u64
    ensures { result ≡ frame_rank_of point }
{
    rank(frame(point))
}

/// The functions of a site, by number.
pub(crate) fn group(groups: &BTreeMap<u64, Row<u32>>, key: u64) -> &[u32]
    ensures { result.now ≡ grouped groups.now key }
{
    match groups.get(&key) {
        Some(row) => row.items(),
        None => &[],
    }
}

// Takes out the functions of a site.
fn taken(alloc: Global, groups: &mut BTreeMap<u64, Row<u32>>, key: u64) -> Row<u32>
    ensures row { result ≡ grouped groups.old key }
    ensures rest { (q : ℕ) → nat_eq key q ≡ false → grouped groups.new q ≡ grouped groups.old q }
{
    match groups.remove(&key) {
        Some(row) => row,
        None => Row::new(alloc),
    }
}

fn put(groups: &mut BTreeMap<u64, Row<u32>>, key: u64, row: Row<u32>) -> Result<(), NoMemory>
    ensures { OnOk result ((q : ℕ) → grouped groups.new q ≡ cond (nat_eq key q) row (grouped groups.old q)) }
{
    groups.insert(key, row)?;
    Ok(())
}

fn add(
    alloc: Global,
    groups: &mut BTreeMap<u64, Row<u32>>,
    key: u64,
    i: u32,
) -> Result<(), NoMemory>
    ensures { OnOk result ((q : ℕ) → grouped groups.new q ≡ cond (nat_eq key q) (grouped groups.old q ++ i ∷ []) (grouped groups.old q)) }
{
    let mut row = taken(alloc, groups, key);
    row.push(i)?;
    put(groups, key, row)
}

fn add_number(
    alloc: Global,
    groups: &mut BTreeMap<u64, Row<u32>>,
    all: &[Layout],
    i: u32,
) -> Result<(), NoMemory>
    ensures { OnOk result ((q : ℕ) → grouped groups.new q ≡ cond (has_rank (slice_get all.now i) q) (grouped groups.old q ++ i ∷ []) (grouped groups.old q)) }
{
    match all.get(i as usize) {
        Some(function) => add(alloc, groups, frame_rank(function.point()), i),
        None => Ok(()),
    }
}

/// Functions by the rank of their site.
pub(crate) fn group_all(
    alloc: Global,
    all: &[Layout],
    order: &[u32],
) -> Result<BTreeMap<u64, Row<u32>>, NoMemory>
    ensures { IfOk result (λ m. (q : ℕ) → grouped m q ≡ with_rank all.now order.now q) }
{
    let mut groups = BTreeMap::new(alloc);
    for i in order {
        add_number(alloc, &mut groups, all, *i)?;
    }
    Ok(groups)
}
