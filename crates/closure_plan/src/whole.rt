//! The plan.

ghost use Rattle.std.specs.Prelude.{◌≡◌, ◌++◌, cond, map, [], ◌∷◌, IfOk};
ghost use Rattle.cps_ir.specs.Program.{code_at, tree_of};
ghost use Rattle.cps_ir.specs.Slim.{IsSlim};
ghost use Rattle.close_laws.specs.Layouts.{facts};
ghost use Rattle.close_laws.specs.Close.{compares, labelled, points_of, left_points as left_points_in};
ghost use Rattle.close_laws.specs.Plan.{eq_plan, greatest, label_plan, plan};
ghost use Rattle.label_order.specs.Order.{AreApart, numbered, by_label_in};
ghost use Rattle.closure_plan.specs.Found.{IsKnown};

use crate::known::{Known, found};
use close_laws::{LabelPlan, Plan};
use cps_ir::Cps;
use label_order::{in_order, left_points};
use label_plans::label_plans;
use plan_factor::factor;
use smlc_base::{NoMemory, Place, Point, PointKind, Row};
use std::alloc::Global;
use used_values::has_comparison;

fn eq_row() -> LabelPlan
    ensures { result ≡ eq_plan }
{
    LabelPlan {
        point: Point {
            node: 0xFFFF_FFFF,
            kind: PointKind::Eq,
        },
        place: Place {
            file: 0,
            line: 1,
            col: 1,
        },
        words: 4,
        records: 0,
        source: 4,
    }
}

// The row of comparisons comes last.
fn with_comparison(mut rows: Vec<LabelPlan>, compares: bool) -> Result<Vec<LabelPlan>, NoMemory>
    ensures { IfOk result (λ v. v.items ≡ rows.items ++ cond compares (eq_plan ∷ []) []) }
{
    if compares {
        rows.push(eq_row())?;
        Ok(rows)
    } else {
        Ok(rows)
    }
}

fn rows(
    alloc: Global,
    program: &Cps,
    known: &Known,
    order: &[u32],
    left: &[Point],
) -> Result<Vec<LabelPlan>, NoMemory>
    requires known { IsKnown program.now.variables (code_at program.now.bodies 0) known.now }
    requires order { numbered known.now.functions order.now ≡ by_label_in known.now.functions known.now.functions }
    requires left { left.now ≡ left_points_in (facts program.now.variables (code_at program.now.bodies 0)) (code_at program.now.bodies 0) }
    ensures { IfOk result (λ v. v.items ≡ map (label_plan (facts program.now.variables (code_at program.now.bodies 0)) program.now.sites left.now) (points_of (labelled (facts program.now.variables (code_at program.now.bodies 0)) (code_at program.now.bodies 0))) ++ cond (compares (code_at program.now.bodies 0)) (eq_plan ∷ []) []) }
{
    let all = known.functions.items();
    let layouts = known.layouts.items();
    let rows = label_plans(alloc, program, all, layouts, order, left, &known.classes)?;
    with_comparison(rows, has_comparison(alloc, program)?)
}

/// The plan of a program of which this is found.
///
/// # Errors
///
/// Want of memory.
pub fn plan_of(alloc: Global, program: &Cps, known: Known) -> Result<Plan, NoMemory>
    requires known { IsKnown program.now.variables (code_at program.now.bodies 0) known }
    requires apart { AreApart known.functions }
    ensures { IfOk result (λ p. p ≡ plan program.now.variables (tree_of program.now)) }
{
    let order = in_order(alloc, known.functions.items())?;
    let left = left_points(alloc, program, known.functions.items())?;
    let labels = rows(alloc, program, &known, &order, &left)?;
    let factor = factor(
        alloc,
        program,
        known.functions.items(),
        known.layouts.items(),
        &order,
        &left,
        &known.classes,
    )?;
    Ok(Plan {
        labels: Row::from_vec(labels),
        classes: known.classes,
        factor,
        spill: 0,
    })
}

/// The plan of a slim program.
pub fn make_plan(alloc: Global, program: &Cps) -> Result<Plan, NoMemory>
    requires { IsSlim (tree_of program.now) }
    ensures { IfOk result (λ p. p ≡ plan program.now.variables (tree_of program.now)) }
{
    let known = found(alloc, program)?;
    plan_of(alloc, program, known)
}
