//! The program that a round answers.

ghost use Rattle.std.specs.Prelude.{◌≡◌, IfOk};
ghost use Rattle.cps_ir.specs.Program.{tree_of};
ghost use Rattle.contract_laws.specs.Law.{with_code};
ghost use Rattle.contract_round.specs.Round.{round, contracted};
ghost use Rattle.contract_round.specs.Law.{IsWhole};

use crate::nodes::nodes_of;
use crate::walk::walk_all;
use cps_ir::Cps;
use smlc_base::{NoMemory, Row};
use std::alloc::Global;

/// One round.
///
/// # Errors
///
/// Want of memory.
pub fn round(alloc: Global, program: Cps) -> Result<Cps, NoMemory>
    requires { IsWhole (tree_of program).code }
    ensures { IfOk result (λ q. tree_of q ≡ with_code (tree_of program) (round program.texts (tree_of program).code)) }
{
    let bodies = walk_all(alloc, &program)?;
    Ok(Cps {
        bodies: Row::from_vec(bodies),
        ..program
    })
}

/// Rounds, until one leaves a program as it is.
///
/// # Errors
///
/// Want of memory.
pub fn contract(alloc: Global, program: Cps) -> Result<Cps, NoMemory>
    requires { IsWhole (tree_of program).code }
    ensures { IfOk result (λ q. tree_of q ≡ with_code (tree_of program) (contracted program.texts (tree_of program).code)) }
{
    let mut before = nodes_of(alloc, &program)?;
    let mut program = program;
    loop {
        program = round(alloc, program)?;
        let after = nodes_of(alloc, &program)?;
        if after >= before {
            return Ok(program);
        }
        before = after;
    }
}
