//! The pass.

ghost use Rattle.std.specs.Prelude.{◌≡◌, IfOk};
ghost use Rattle.cps_ir.specs.Program.{tree_of};
ghost use Rattle.cps_ir.specs.Slim.{IsSlim};
ghost use Rattle.closure_ir.specs.Program as closing;
ghost use Rattle.close_laws.specs.Close as laws;
ghost use Rattle.close_laws.specs.Plan.{plan};

use crate::program::closed_program;
use close_laws::Plan;
use closure_ir::Closed;
use closure_plan::{found, plan_of};
use cps_ir::Cps;
use smlc_base::NoMemory;
use std::alloc::Global;

/// A closed program, and the plan of its closures.
#[derive(Drop)]
pub struct ClosedPlan {
    pub closed: Closed,
    pub plan: Plan,
}

/// The closed program of a slim one, and its plan.
///
/// # Errors
///
/// Want of memory, also where there are no more numbers for variables.
pub fn close(alloc: Global, program: &Cps) -> Result<ClosedPlan, NoMemory>
    requires { IsSlim (tree_of program.now) }
    ensures closed { IfOk result (λ r. closing.tree_of r.closed ≡ laws.close program.now.variables (tree_of program.now)) }
    ensures plan { IfOk result (λ r. r.plan ≡ plan program.now.variables (tree_of program.now)) }
{
    let known = found(alloc, program)?;
    let closed = closed_program(alloc, program, &known)?;
    let plan = plan_of(alloc, program, known)?;
    Ok(ClosedPlan { closed, plan })
}
