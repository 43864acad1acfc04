//! The passes, one behind the other.

ghost use Rattle.std.specs.Prelude.{◌≡◌, IfOk};
ghost use Rattle.sml_tree.specs.IsBare.{IsBare};
ghost use Rattle.cps_ir.specs.Program.{tree_of};
ghost use Rattle.sml_middle.specs.Middle.{middle_of};

use cps_contract::contract;
use cps_convert::cps;
use cps_ir::Cps;
use lambda_make::lambda;
use sml_types::Typed;
use smlc_base::NoMemory;
use std::alloc::Global;

/// The program that a typed tree becomes.
///
/// # Errors
///
/// Want of memory, also where there are no more numbers for bodies or variables.
pub fn contracted_program(alloc: Global, typed: &Typed) -> Result<Cps, NoMemory>
    requires { IsBare typed.now.bare }
    ensures { IfOk result (λ q. tree_of q ≡ middle_of typed.now.tables.names typed.now.bare) }
{
    let program = lambda(alloc, typed)?;
    let converted = cps(alloc, program)?;
    contract(alloc, converted)
}
