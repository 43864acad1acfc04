//! The points of a program, each with its source words.

ghost use Rattle.std.specs.Prelude.{◌≡◌, ◌+◌, ◌<◌, ◌≤◌, ◌^◌, IfOk};
ghost use Rattle.sml_tree.specs.IsBare.{IsBare};
ghost use Rattle.sml_def.specs.Sites.{own_words, no_place, place_at, site_of, eq_site, sites};

use sml_tree::Bare;
use sml_tree::points::{Spot, points_of};
use smlc_base::{NoMemory, Place, Point, PointKind, Row, Site};
use std::alloc::Global;

// The words of a closure or frame beside the values that it holds.
fn header_words(kind: PointKind) -> usize
    ensures words { result ≡ own_words kind }
    ensures few { result ≤ 2 }
{
    match kind {
        PointKind::Fn => 1,
        PointKind::Ret => 2,
        PointKind::Caught => 2,
        PointKind::Popped => 2,
        PointKind::Eq => 2,
    }
}

fn place_of(places: &[Place], node: u32) -> Place
    ensures { result ≡ place_at places.now node }
{
    match places.get(node as usize) {
        Some(place) => *place,
        None => Place {
            file: 0,
            line: 1,
            col: 1,
        },
    }
}

fn site(places: &[Place], spot: Spot) -> Site
    requires { spot.held + 2 < 2 ^ 32 }
    ensures { result ≡ site_of places.now spot }
{
    Site {
        point: spot.point,
        place: place_of(places, spot.point.node),
        words: (spot.held + header_words(spot.point.kind)) as u32,
        outer: spot.outer,
    }
}

fn comparison() -> Site
    ensures { result ≡ eq_site }
{
    Site {
        point: Point {
            node: u32::MAX,
            kind: PointKind::Eq,
        },
        place: Place {
            file: 0,
            line: 1,
            col: 1,
        },
        words: 4,
        outer: None,
    }
}

/// All points of a program in ascending order, each with its source words and the nearest frame around it.
pub fn points(alloc: Global, bare: &Bare) -> Result<Row<Site>, NoMemory>
    requires { IsBare bare.now }
    ensures { IfOk result (λ r. r ≡ sites bare.now) }
{
    let places = bare.places.items();
    let mut found = Row::new(alloc);
    for spot in &points_of(alloc, bare.nodes.items())? {
        found.push(site(places, *spot))?;
    }
    found.push(comparison())?;
    Ok(found)
}
