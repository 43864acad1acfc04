//! The pass.

ghost use Rattle.std.specs.Prelude.{◌≡◌, false, IfOk};
ghost use Rattle.cps_ir.specs.Program.{tree_of};
ghost use Rattle.convert_laws.specs.Needs.{needs};
ghost use Rattle.convert_laws.specs.Program.{cps_of};

use crate::program::{Made, make};
use cps_ir::Cps;
use lambda_ir::Lambda;
use smlc_base::NoMemory;
use std::alloc::Global;

/// The program in continuation-passing style of one that ends in no call, by the rule of 16 words.
///
/// # Errors
///
/// Want of memory, also where there are no more numbers for bodies or variables.
pub fn cps(alloc: Global, program: Lambda) -> Result<Cps, NoMemory>
    requires { needs program.terms 0 ≡ false }
    ensures { IfOk result (λ q. tree_of q ≡ cps_of program) }
{
    let made = make(alloc, program.terms(), program.sites(), program.exns.len())?;
    let Made { bodies, variables } = made;
    let Lambda {
        sites,
        texts,
        exns,
        ..
    } = program;
    let converted = Cps {
        bodies,
        variables,
        sites,
        texts,
        exns,
    };
    Ok(converted)
}
