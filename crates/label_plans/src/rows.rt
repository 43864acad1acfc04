//! The rows of labels.

ghost use Rattle.std.specs.Prelude.{◌≡◌, ◌++◌, List, map, slice_get, IfOk, OnOk};
ghost use Rattle.smlc_base.specs.declared.point.Point.{Point as Spot};
ghost use Rattle.cps_ir.specs.Program.{code_at};
ghost use Rattle.cps_ir.specs.Slim.{layouts as layouts_in};
ghost use Rattle.lifetime_users.specs.Users.{classes as classes_in};
ghost use Rattle.close_laws.specs.Layouts.{facts};
ghost use Rattle.close_laws.specs.Close.{labelled, points_of, left_points};
ghost use Rattle.close_laws.specs.Plan.{place_in_site, label_plan as plan_of};
ghost use Rattle.closure_layouts.specs.Found.{closure_at};
ghost use Rattle.label_order.specs.Order.{numbered, by_label_in};
ghost use Rattle.left_words.specs.Tables.{AreRanked, AreFirst};
ghost use Rattle.label_plans.specs.Rows.{row_of, row_at_number};

use crate::measures::{closure_words, record_words};
use close_laws::LabelPlan;
use closure_layouts::ClosureLayout;
use cps_ir::Cps;
use cps_survey::Layout;
use left_words::{find, left_ranks, site_numbers, words};
use lifetime_users::{Class, ClassRows};
use smlc_base::{NoMemory, Place, Point, Site};
use std::alloc::Global;
use std::collections::{BTreeMap, BTreeSet};

fn place(site: Option<Site>) -> Place
    ensures { result ≡ place_in_site site }
{
    match site {
        Some(site) => site.place,
        None => Place {
            file: 0,
            line: 1,
            col: 1,
        },
    }
}

fn row(
    left: &BTreeSet<u64>,
    sites: &[Site],
    numbers: &BTreeMap<u64, u32>,
    classes: &[Class],
    point: Point,
    layout: &ClosureLayout,
) -> Result<LabelPlan, NoMemory>
    requires { AreFirst sites.now sites.now numbers.now }
    ensures { (labels : List Spot) → AreRanked labels left.now.keys → IfOk result (λ k. k ≡ row_of labels sites.now classes.now point layout.now) }
{
    let source = words(left, sites, numbers, point)?;
    let records = record_words(classes, layout.classes.items())?;
    let closure = closure_words(layout)?;
    Ok(LabelPlan {
        point,
        place: place(find(sites, numbers, point)),
        words: closure,
        records,
        source,
    })
}

fn push_row(
    found: &mut Vec<LabelPlan>,
    left: &BTreeSet<u64>,
    sites: &[Site],
    numbers: &BTreeMap<u64, u32>,
    classes: &[Class],
    all: &[Layout],
    layouts: &[ClosureLayout],
    i: u32,
) -> Result<(), NoMemory>
    requires { AreFirst sites.now sites.now numbers.now }
    ensures { (labels : List Spot) → AreRanked labels left.now.keys → OnOk result (found.new.items ≡ found.old.items ++ row_at_number labels sites.now classes.now (slice_get all.now i) (slice_get layouts.now i)) }
{
    match all.get(i as usize) {
        Some(function) => match layouts.get(i as usize) {
            Some(layout) => {
                let point = function.point();
                found.push(row(left, sites, numbers, classes, point, layout)?)?;
                Ok(())
            }
            None => Ok(()),
        },
        None => Ok(()),
    }
}

/// The rows of a program's functions in the order of their labels, by its layouts, the points that are left, and its classes.
pub fn label_plans(
    alloc: Global,
    program: &Cps,
    all: &[Layout],
    layouts: &[ClosureLayout],
    order: &[u32],
    left: &[Point],
    classes: &ClassRows,
) -> Result<Vec<LabelPlan>, NoMemory>
    requires functions { all.now ≡ layouts_in (code_at program.now.bodies 0) }
    requires layouts { layouts.now ≡ map (λ l. closure_at (facts program.now.variables (code_at program.now.bodies 0)) l.point) (layouts_in (code_at program.now.bodies 0)) }
    requires order { numbered all.now order.now ≡ by_label_in all.now all.now }
    requires left { left.now ≡ left_points (facts program.now.variables (code_at program.now.bodies 0)) (code_at program.now.bodies 0) }
    requires classes { classes.now.of ≡ classes_in (code_at program.now.bodies 0) }
    ensures { IfOk result (λ v. v.items ≡ map (plan_of (facts program.now.variables (code_at program.now.bodies 0)) program.now.sites left.now) (points_of (labelled (facts program.now.variables (code_at program.now.bodies 0)) (code_at program.now.bodies 0)))) }
{
    let sites = program.sites();
    let ranks = left_ranks(alloc, left)?;
    let numbers = site_numbers(alloc, sites)?;
    let classes = classes.of.items();
    let mut found = Vec::new(alloc);
    for i in order {
        push_row(
            &mut found, &ranks, sites, &numbers, classes, all, layouts, *i,
        )?;
    }
    Ok(found)
}
