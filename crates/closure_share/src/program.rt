//! The closed program.

ghost use Rattle.std.specs.Prelude.{◌≡◌, ◌+◌, length, IfOk};
ghost use Rattle.cps_ir.specs.Program.{code_at, tree_of};
ghost use Rattle.cps_ir.specs.Slim.{IsSlim};
ghost use Rattle.closure_ir.specs.Program as closing;
ghost use Rattle.close_laws.specs.Close.{close};
ghost use Rattle.closure_plan.specs.Found.{IsKnown};

use crate::copies::{copied, copied_classes, copied_texts};
use crate::nodes::small_nodes;
use close_all::{close_all, functions_of};
use close_decisions::decisions;
use close_labels::routines_by_label;
use closure_ir::Closed;
use closure_plan::Known;
use cps_ir::Cps;
use label_order::left_points;
use smlc_base::{NoMemory, Row};
use std::alloc::Global;

// The bound above the variables of a program and those of the records of so many classes.
fn bound(variables: u32, classes: usize) -> Result<u32, NoMemory>
    ensures { IfOk result (λ n. n ≡ variables + classes) }
{
    let Ok(classes) = u32::try_from(classes) else {
        return Err(NoMemory);
    };
    match variables.checked_add(classes) {
        Some(bound) => Ok(bound),
        None => Err(NoMemory),
    }
}

/// The closed program of a slim one, of which this is found.
pub(crate) fn closed_program(
    alloc: Global,
    program: &Cps,
    known: &Known,
) -> Result<Closed, NoMemory>
    requires slim { IsSlim (tree_of program.now) }
    requires known { IsKnown program.now.variables (code_at program.now.bodies 0) known.now }
    ensures { IfOk result (λ p. closing.tree_of p ≡ close program.now.variables (tree_of program.now)) }
{
    let all = known.functions.items();
    small_nodes(all);
    let points = left_points(alloc, program, all)?;
    let classes = copied_classes(alloc, &known.classes)?;
    let decisions = decisions(alloc, program, all, known.layouts.items(), classes)?;
    let functions = functions_of(alloc, program.bodies())?;
    let bodies = close_all(alloc, &decisions, program.bodies(), &functions)?;
    let routines = routines_by_label(alloc, &decisions, &functions)?;
    let variables = bound(program.variables(), known.classes.of.len())?;
    let sites = copied(alloc, program.sites())?;
    let texts = copied_texts(alloc, program.texts())?;
    let exns = copied_texts(alloc, program.exns.items())?;
    let closed = Closed {
        bodies,
        functions: routines,
        points: Row::from_vec(points),
        variables,
        sites,
        texts,
        exns,
    };
    Ok(closed)
}
