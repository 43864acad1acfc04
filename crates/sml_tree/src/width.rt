//! The width of a program: what bounds the size of all that is made from it.

ghost use Rattle.std.specs.Prelude.{◌≡◌, ◌≤◌, ◌^◌, IfOk, count_by};
ghost use Rattle.sml_tree.specs.BareParts.{IsNumbered};
ghost use Rattle.sml_tree.specs.IsBare.{IsBare};
ghost use Rattle.sml_tree.specs.Points.{spots};
ghost use Rattle.sml_tree.specs.Width.{is_user, user_held, width, at_most};

use crate::bare::{Bare, Node};
use crate::points::{Spot, points_of};
use smlc_base::{NoMemory, Place};
use std::alloc::Global;

// How many nodes are the user's.
fn user_nodes(places: &[Place]) -> usize
    ensures { result ≡ count_by is_user places.now }
{
    places.iter().filter(|place| place.file != 0).count()
}

// What is held at a point, if it is one of the user's files.
fn held_at(places: &[Place], spot: Spot) -> usize
    ensures { result ≡ user_held places.now spot }
{
    let at = spot.point.node as usize;
    if at < places.len() && places[at].file != 0 {
        spot.held
    } else {
        0
    }
}

/// The width of a program, if it isn't above the limit.
pub fn width_within(
    alloc: Global,
    nodes: &[Node],
    places: &[Place],
    limit: u64,
) -> Result<Option<u64>, NoMemory>
    requires { IsNumbered nodes.now }
    ensures { IfOk result (λ w. w ≡ at_most limit (width nodes.now places.now)) }
{
    let mut total = user_nodes(places) as u64;
    if total > limit {
        return Ok(None);
    }
    for spot in &points_of(alloc, nodes)? {
        let held = held_at(places, *spot) as u64;
        if held > limit - total {
            return Ok(None);
        }
        total += held;
    }
    Ok(Some(total))
}

impl Bare {
    /// The number of the user's nodes and, over their points, of the values that are held there.
    pub fn width(&self) -> u64
        requires { IsBare self.now }
        ensures width { result ≡ width self.now.nodes self.now.places }
        ensures limit { result ≤ 2 ^ 24 }
    {
        self.width
    }
}
