//! Layouts.

ghost use Rattle.std.specs.Prelude.{◌≡◌, ◌<◌, map, not, filter, cond, [], ◌∷◌, IfOk};
ghost use Rattle.sml_tree.specs.Sets.{has, row_at, without};
ghost use Rattle.cps_ir.specs.Program.{code_at};
ghost use Rattle.cps_ir.specs.Slim.{layouts as layouts_in};
ghost use Rattle.cps_free.specs.Same.{AreSame};
ghost use Rattle.lifetime_users.specs.Users.{label_in, classes as classes_in};
ghost use Rattle.close_laws.specs.Layouts.{closed_names, values as values_in, facts};
ghost use Rattle.closure_layouts.specs.Found.{PointedOnce, closure_at, found_layout};

use crate::tables::{class_rows, shared};
use cps_free::row;
use cps_ir::Cps;
use cps_survey::Layout;
use lifetime_users::ClassRows;
use smlc_base::{NoMemory, Row};
use std::alloc::Global;
use std::collections::BTreeSet;
use variable_users::sets::contains;
use variable_users::{label, ranks};

/// What a function's closure has: nothing at all if it is static; else perhaps a code word, then the records of classes by number, then variables.
#[derive(Drop)]
pub struct ClosureLayout {
    pub is_static: bool,
    pub has_code: bool,
    pub classes: Row<u32>,
    pub own: Row<u32>,
}

fn is_held(x: u32, name: u32, closed: &BTreeSet<u32>) -> bool
    ensures { result ≡ not (has (name ∷ closed.now.keys) x) }
{
    !(x == name || contains(closed, x))
}

// The free variables without the function itself and closed functions.
fn held(
    alloc: Global,
    free: &[u32],
    name: u32,
    closed: &BTreeSet<u32>,
) -> Result<Vec<u32>, NoMemory>
    ensures { IfOk result (λ v. v.items ≡ without free.now (name ∷ closed.now.keys)) }
{
    let kept = free
        .iter()
        .copied()
        .filter(|x| is_held(*x, name, closed))
        .collect(alloc)?;
    Ok(kept)
}

// Those that are in no class.
fn own(alloc: Global, held: &[u32], shared: &BTreeSet<u32>) -> Result<Vec<u32>, NoMemory>
    ensures { IfOk result (λ v. v.items ≡ filter (λ x. not (has shared.now.keys x)) held.now) }
{
    let kept = held
        .iter()
        .copied()
        .filter(|x| !contains(shared, *x))
        .collect(alloc)?;
    Ok(kept)
}

fn copied(alloc: Global, classes: &[u32]) -> Result<Row<u32>, NoMemory>
    ensures { IfOk result (λ r. r ≡ classes.now) }
{
    let copy = Vec::from_slice(alloc, classes)?;
    Ok(Row::from_vec(copy))
}

fn layout(
    alloc: Global,
    function: &Layout,
    closed: &BTreeSet<u32>,
    values: &BTreeSet<u32>,
    shared: &BTreeSet<u32>,
    classes: &[u32],
) -> Result<ClosureLayout, NoMemory>
    ensures { IfOk result (λ k. k ≡ found_layout closed.now.keys values.now.keys shared.now.keys classes.now function.now) }
{
    let name = function.name();
    let has_code = contains(values, name);
    if contains(closed, name) {
        return Ok(ClosureLayout {
            is_static: true,
            has_code,
            classes: Row::new(alloc),
            own: Row::new(alloc),
        });
    }
    let held = held(alloc, function.free(), name, closed)?;
    let own = own(alloc, &held, shared)?;
    Ok(ClosureLayout {
        is_static: false,
        has_code,
        classes: copied(alloc, classes)?,
        own: Row::from_vec(own),
    })
}

/// The layouts of the functions of a program, by its closed functions, its values and its classes.
pub fn closure_layouts(
    alloc: Global,
    program: &Cps,
    all: &[Layout],
    closed: &BTreeSet<u32>,
    values: &BTreeSet<u32>,
    classes: &ClassRows,
) -> Result<Vec<ClosureLayout>, NoMemory>
    requires functions { all.now ≡ layouts_in (code_at program.now.bodies 0) }
    requires once { PointedOnce all.now }
    requires closed { AreSame closed.now.keys (closed_names (layouts_in (code_at program.now.bodies 0))) }
    requires values { AreSame values.now.keys (values_in (code_at program.now.bodies 0)) }
    requires classes { classes.now.of ≡ classes_in (code_at program.now.bodies 0) }
    ensures { IfOk result (λ v. v.items ≡ map (λ l. closure_at (facts program.now.variables (code_at program.now.bodies 0)) l.point) (layouts_in (code_at program.now.bodies 0))) }
{
    let ranks = ranks(alloc, all)?;
    let shared = shared(alloc, classes.of.items())?;
    let rows = class_rows(alloc, classes.of.items(), all.len())?;
    let mut found = Vec::new(alloc);
    for function in all {
        let label = label(&ranks, function.point())?;
        found.push(layout(alloc, function, closed, values, &shared, row(&rows, label))?)?;
    }
    Ok(found)
}
