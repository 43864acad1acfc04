//! What is found of a program.

ghost use Rattle.std.specs.Prelude.{◌≡◌, None, map, IfOk};
ghost use Rattle.cps_ir.specs.Program.{code_at};
ghost use Rattle.cps_ir.specs.Slim.{layouts as layouts_in};
ghost use Rattle.lifetime_users.specs.Users.{bindings as bindings_in, classes as classes_in};
ghost use Rattle.close_laws.specs.Layouts.{facts};
ghost use Rattle.closure_layouts.specs.Found.{closure_at};
ghost use Rattle.label_order.specs.Order.{AreApart};
ghost use Rattle.closure_plan.specs.Found.{IsKnown};

use closed_functions::closed_functions;
use closure_layouts::{ClosureLayout, closure_layouts};
use cps_free::free_variables;
use cps_ir::Cps;
use cps_survey::{Layout, Survey, survey_of};
use lifetime_users::ClassRows;
use live_classes::classes;
use smlc_base::{NoMemory, Row};
use std::alloc::Global;
use used_values::used_values;

/// The functions of a program, its classes, and what the closure of each function has.
#[derive(Drop)]
pub struct Known {
    pub functions: Row<Layout>,
    pub classes: ClassRows,
    pub layouts: Row<ClosureLayout>,
}

fn survey(alloc: Global, program: &Cps) -> Result<Survey, NoMemory>
    ensures layouts { IfOk result (λ s. s.layouts ≡ layouts_in (code_at program.now.bodies 0)) }
    ensures bindings { IfOk result (λ s. s.bindings ≡ bindings_in None (code_at program.now.bodies 0)) }
{
    let frees = free_variables(alloc, program)?;
    survey_of(alloc, program, &frees)
}

fn layouts(
    alloc: Global,
    program: &Cps,
    all: &[Layout],
    classes: &ClassRows,
) -> Result<Vec<ClosureLayout>, NoMemory>
    requires functions { all.now ≡ layouts_in (code_at program.now.bodies 0) }
    requires apart { AreApart all.now }
    requires classes { classes.now.of ≡ classes_in (code_at program.now.bodies 0) }
    ensures { IfOk result (λ v. v.items ≡ map (λ l. closure_at (facts program.now.variables (code_at program.now.bodies 0)) l.point) (layouts_in (code_at program.now.bodies 0))) }
{
    let closed = closed_functions(alloc, program, all)?;
    let values = used_values(alloc, program)?;
    closure_layouts(alloc, program, all, &closed, &values, classes)
}

/// What is found of a program whose functions have different points.
///
/// # Errors
///
/// Want of memory.
pub fn found(alloc: Global, program: &Cps) -> Result<Known, NoMemory>
    requires { AreApart (layouts_in (code_at program.now.bodies 0)) }
    ensures { IfOk result (IsKnown program.now.variables (code_at program.now.bodies 0)) }
{
    let survey = survey(alloc, program)?;
    let classes = classes(alloc, program, &survey)?;
    let layouts = layouts(alloc, program, survey.layouts.items(), &classes)?;
    Ok(Known {
        functions: survey.layouts,
        classes,
        layouts: Row::from_vec(layouts),
    })
}
