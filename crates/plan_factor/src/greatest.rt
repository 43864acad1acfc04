//! The factor.

ghost use Rattle.std.specs.Prelude.{◌≡◌, ◌+◌, max, map, slice_get, List, IfOk};
ghost use Rattle.smlc_base.specs.declared.point.Point.{Point as Spot};
ghost use Rattle.cps_ir.specs.Program.{code_at};
ghost use Rattle.cps_ir.specs.Slim.{layouts as layouts_in};
ghost use Rattle.lifetime_users.specs.Users.{classes as classes_of};
ghost use Rattle.close_laws.specs.Layouts.{facts};
ghost use Rattle.close_laws.specs.Close.{labelled, points_of, left_points};
ghost use Rattle.close_laws.specs.Plan.{greatest};
ghost use Rattle.closure_layouts.specs.Found.{closure_at};
ghost use Rattle.label_order.specs.Order.{numbered, by_label_in};
ghost use Rattle.left_words.specs.Tables.{AreRanked, AreFirst};
ghost use Rattle.label_plans.specs.Rows.{records_of};
ghost use Rattle.plan_factor.specs.Groups.{grouped, frame_rank as frame_rank_of, AreAscending, words_in, classes_in, site_factor, best_with};

use crate::groups::{frame, frame_rank, group, group_all};
use crate::sites::{group_classes, group_words, quotient};
use closure_layouts::ClosureLayout;
use cps_ir::Cps;
use cps_survey::Layout;
use label_plans::measures::record_words;
use left_words::walking::sum;
use left_words::{left_ranks, site_numbers, words};
use lifetime_users::{Class, ClassRows};
use smlc_base::{NoMemory, Point, Row, Site};
use std::alloc::Global;
use std::collections::{BTreeMap, BTreeSet};

fn greater(here: u32, best: u32) -> u32
    ensures { result ≡ max here best }
{
    here.max(best)
}

// The words of the closures and class records of a site.
fn closed_words(
    alloc: Global,
    classes: &[Class],
    layouts: &[ClosureLayout],
    group: &[u32],
) -> Result<u32, NoMemory>
    requires { AreAscending layouts.now }
    ensures { IfOk result (λ n. n ≡ words_in layouts.now group.now + records_of classes.now (classes_in layouts.now group.now)) }
{
    let closures = group_words(layouts, group)?;
    let named = group_classes(alloc, layouts, group)?;
    let records = record_words(classes, named.items())?;
    sum(closures, records)
}

fn factor_at(
    alloc: Global,
    left: &BTreeSet<u64>,
    sites: &[Site],
    numbers: &BTreeMap<u64, u32>,
    classes: &[Class],
    layouts: &[ClosureLayout],
    groups: &BTreeMap<u64, Row<u32>>,
    point: Point,
) -> Result<u32, NoMemory>
    requires first { AreFirst sites.now sites.now numbers.now }
    requires ascending { AreAscending layouts.now }
    ensures { (labels : List Spot) → AreRanked labels left.now.keys → IfOk result (λ n. n ≡ site_factor labels sites.now classes.now layouts.now (grouped groups.now (frame_rank_of point)) point) }
{
    let source = words(left, sites, numbers, frame(point))?;
    let closed = closed_words(alloc, classes, layouts, group(groups, frame_rank(point)))?;
    quotient(closed, source)
}

fn better(
    alloc: Global,
    left: &BTreeSet<u64>,
    sites: &[Site],
    numbers: &BTreeMap<u64, u32>,
    classes: &[Class],
    layouts: &[ClosureLayout],
    groups: &BTreeMap<u64, Row<u32>>,
    all: &[Layout],
    i: u32,
    best: u32,
) -> Result<u32, NoMemory>
    requires first { AreFirst sites.now sites.now numbers.now }
    requires ascending { AreAscending layouts.now }
    ensures { (labels : List Spot) → AreRanked labels left.now.keys → IfOk result (λ n. n ≡ best_with labels sites.now classes.now layouts.now (grouped groups.now) (slice_get all.now i) best) }
{
    match all.get(i as usize) {
        Some(function) => {
            let point = function.point();
            let here = factor_at(alloc, left, sites, numbers, classes, layouts, groups, point)?;
            Ok(greater(here, best))
        }
        None => Ok(best),
    }
}

/// The factor of a program, by its layouts, the order of its labels, the points that are left, and its classes.
pub fn factor(
    alloc: Global,
    program: &Cps,
    all: &[Layout],
    layouts: &[ClosureLayout],
    order: &[u32],
    left: &[Point],
    classes: &ClassRows,
) -> Result<u32, NoMemory>
    requires functions { all.now ≡ layouts_in (code_at program.now.bodies 0) }
    requires layouts { layouts.now ≡ map (λ l. closure_at (facts program.now.variables (code_at program.now.bodies 0)) l.point) (layouts_in (code_at program.now.bodies 0)) }
    requires order { numbered all.now order.now ≡ by_label_in all.now all.now }
    requires left { left.now ≡ left_points (facts program.now.variables (code_at program.now.bodies 0)) (code_at program.now.bodies 0) }
    requires classes { classes.now.of ≡ classes_of (code_at program.now.bodies 0) }
    ensures { IfOk result (λ n. n ≡ greatest (facts program.now.variables (code_at program.now.bodies 0)) program.now.sites left.now (points_of (labelled (facts program.now.variables (code_at program.now.bodies 0)) (code_at program.now.bodies 0))) (points_of (labelled (facts program.now.variables (code_at program.now.bodies 0)) (code_at program.now.bodies 0)))) }
{
    let sites = program.sites();
    let ranks = left_ranks(alloc, left)?;
    let numbers = site_numbers(alloc, sites)?;
    let classes = classes.of.items();
    let groups = group_all(alloc, all, order)?;
    let mut best = 1;
    let mut i = order.len();
    while i > 0 {
        i -= 1;
        best = better(
            alloc, &ranks, sites, &numbers, classes, layouts, &groups, all, order[i], best,
        )?;
    }
    Ok(best)
}
