//! The points that are left.

ghost use Rattle.std.specs.Prelude.{◌≡◌, ◌++◌, cond, length, slice_get, [], ◌∷◌, IfOk, OnOk};
ghost use Rattle.sml_def.specs.Run.{eq_point};
ghost use Rattle.cps_ir.specs.Program.{code_at};
ghost use Rattle.cps_ir.specs.Slim.{layouts as layouts_in};
ghost use Rattle.close_laws.specs.Layouts.{facts};
ghost use Rattle.close_laws.specs.Close.{left_points as left_points_in};
ghost use Rattle.label_order.specs.Order.{AreApart, numbered, by_label_in, points_in, at_number};

use crate::order::in_order;
use cps_ir::Cps;
use cps_survey::Layout;
use smlc_base::{NoMemory, Point, PointKind};
use std::alloc::Global;
use used_values::has_comparison;

fn push_point(points: &mut Vec<Point>, all: &[Layout], i: u32) -> Result<(), NoMemory>
    ensures { OnOk result (points.new.items ≡ points.old.items ++ points_in (at_number (slice_get all.now i))) }
{
    match all.get(i as usize) {
        Some(found) => {
            points.push(found.point())?;
            Ok(())
        }
        None => Ok(()),
    }
}

fn points(alloc: Global, all: &[Layout]) -> Result<Vec<Point>, NoMemory>
    requires { AreApart all.now }
    ensures { IfOk result (λ v. v.items ≡ points_in (by_label_in all.now all.now)) }
{
    let order = in_order(alloc, all)?;
    let mut points = Vec::new(alloc);
    for i in &order {
        push_point(&mut points, all, *i)?;
    }
    Ok(points)
}

fn eq() -> Point
    ensures { result ≡ eq_point }
{
    Point {
        node: 0xFFFF_FFFF,
        kind: PointKind::Eq,
    }
}

// That of comparisons comes last.
fn with_comparison(mut points: Vec<Point>, compares: bool) -> Result<Vec<Point>, NoMemory>
    ensures { IfOk result (λ v. v.items ≡ points.items ++ cond compares (eq_point ∷ []) []) }
{
    if compares {
        points.push(eq())?;
        Ok(points)
    } else {
        Ok(points)
    }
}

/// The points that are left in a program whose functions are these, in order: those of its functions, and last that of comparisons.
pub fn left_points(alloc: Global, program: &Cps, all: &[Layout]) -> Result<Vec<Point>, NoMemory>
    requires functions { all.now ≡ layouts_in (code_at program.now.bodies 0) }
    requires apart { AreApart all.now }
    ensures { IfOk result (λ v. v.items ≡ left_points_in (facts program.now.variables (code_at program.now.bodies 0)) (code_at program.now.bodies 0)) }
{
    let points = points(alloc, all)?;
    with_comparison(points, has_comparison(alloc, program)?)
}
