//! Labels: places in the order of points.

ghost use Rattle.std.specs.Prelude.{◌≡◌, ◌<◌, nat_lt, count_by, IfOk, List};
ghost use Rattle.std.specs.List.Sorted.{IsNonDecreasing};
ghost use Rattle.sml_tree.specs.Order.{kind_rank, rank as rank_of};
ghost use Rattle.cps_ir.specs.Slim.{Layout as Held};
ghost use Rattle.lifetime_users.specs.Users.{label_in};
ghost use Rattle.variable_users.specs.Ranks.{AreRanks};

use cps_survey::Layout;
use smlc_base::{NoMemory, Point, PointKind};
use std::alloc::Global;

fn kind(kind: PointKind) -> u64
    ensures { result ≡ kind_rank kind }
{
    match kind {
        PointKind::Fn => 0,
        PointKind::Ret => 1,
        PointKind::Caught => 2,
        PointKind::Popped => 3,
        PointKind::Eq => 4,
    }
}

/// Where a point stands in the order.
pub fn rank(point: Point) -> u64
    ensures { result ≡ rank_of point }
{
    u64::from(point.node) * 5 + kind(point.kind)
}

/// The ranks of the points of functions, in order.
pub fn ranks(alloc: Global, layouts: &[Layout]) -> Result<Vec<u64>, NoMemory>
    ensures { IfOk result (λ v. AreRanks layouts.now v.items) }
{
    let mut ranks = Vec::new(alloc);
    for layout in layouts {
        ranks.push(rank(layout.point()))?;
    }
    ranks.sort()?;
    Ok(ranks)
}

fn place(ranks: &[u64], rank: u64) -> usize
    requires { IsNonDecreasing ranks.now }
    ensures { result ≡ count_by (λ q. nat_lt q rank) ranks.now }
{
    ranks.partition_point(|other| *other < rank)
}

// There is no memory for more functions than numbers.
fn number(place: usize) -> Result<u32, NoMemory>
    ensures { IfOk result (λ n. n ≡ place) }
{
    match u32::try_from(place) {
        Ok(number) => Ok(number),
        Err(_) => Err(NoMemory),
    }
}

/// The label of a point, by the ranks of all functions.
pub fn label(ranks: &[u64], point: Point) -> Result<u32, NoMemory>
    requires { IsNonDecreasing ranks.now }
    ensures { (all : List Held) → AreRanks all ranks.now → IfOk result (λ n. n ≡ label_in all point) }
{
    number(place(ranks, rank(point)))
}
