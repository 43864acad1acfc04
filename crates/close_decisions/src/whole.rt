//! All tables of a program.

ghost use Rattle.std.specs.Prelude.{◌≡◌, map, IfOk};
ghost use Rattle.cps_ir.specs.Program.{code_at};
ghost use Rattle.cps_ir.specs.Slim.{layouts as layouts_in};
ghost use Rattle.lifetime_users.specs.Users.{classes as classes_in};
ghost use Rattle.close_laws.specs.Layouts.{facts};
ghost use Rattle.closure_layouts.specs.Found.{closure_at};
ghost use Rattle.close_decisions.specs.Tables.{AreTables};

use crate::tables::{functions, numbers};
use close_steps::Decisions;
use closure_layouts::ClosureLayout;
use cps_ir::Cps;
use cps_survey::Layout;
use lifetime_users::ClassRows;
use smlc_base::{NoMemory, Row};
use std::alloc::Global;

/// What closing decides of a program, by its functions, their layouts and its classes.
///
/// # Errors
///
/// Want of memory.
pub fn decisions(
    alloc: Global,
    program: &Cps,
    all: &[Layout],
    layouts: &[ClosureLayout],
    classes: ClassRows,
) -> Result<Decisions, NoMemory>
    requires functions { all.now ≡ layouts_in (code_at program.now.bodies 0) }
    requires layouts { layouts.now ≡ map (λ l. closure_at (facts program.now.variables (code_at program.now.bodies 0)) l.point) (layouts_in (code_at program.now.bodies 0)) }
    requires classes { classes.of ≡ classes_in (code_at program.now.bodies 0) }
    ensures { IfOk result (AreTables (facts program.now.variables (code_at program.now.bodies 0)) program.now.variables) }
{
    let functions = functions(alloc, all, layouts)?;
    let numbers = numbers(alloc, all, program.variables())?;
    Ok(Decisions {
        functions,
        numbers: Row::from_vec(numbers),
        classes,
        first_record: program.variables(),
    })
}
