//! A worked example of a pass: two frames become one closure with its class record, and operations that do nothing are left out.
//!
//! It stands on `simulation`, and shows how a pass stands on it. Its main contract: what `lower` answers keeps its argument.
#![tactic(auto)]

ghost use Rattle.std.specs.Prelude.{◌≡◌, IfOk};
ghost use Rattle.simulation.specs.Keeps.{Keeps};
ghost use Rattle.pass_example.specs.Frames.{run_ops};
ghost use Rattle.pass_example.specs.Closures.{run_instrs};
ghost use Rattle.pass_example.specs.Lower.{lowered};

use std::alloc::{AllocError, Global};

/// An operation of the source.
#[derive(Clone, Copy, PartialEq, Eq, Debug)]
pub enum Op {
    /// Pushes two frames, gives the number to the inner one, and writes it.
    Say(u8),
    /// Does nothing.
    Skip,
}

/// An instruction of the answer.
#[derive(Clone, Copy, PartialEq, Eq, Debug)]
pub enum Instr {
    /// Makes a closure with its class record, enters it, and writes the number.
    Emit(u8),
}

/// The instructions of a program, which keep it.
pub fn lower(alloc: Global, program: &[Op]) -> Result<Vec<Instr>, AllocError>
    ensures { IfOk result (λ code. Keeps (run_ops program.now) (run_instrs code.items)) }
{
    let code = lower_all(alloc, program)?;
    Ok(code)
}

// The instructions of a program.
fn lower_all(alloc: Global, program: &[Op]) -> Result<Vec<Instr>, AllocError>
    ensures { IfOk result (λ code. code.items ≡ lowered program.now) }
{
    let mut code = Vec::new(alloc);
    for op in program {
        match op {
            Op::Say(n) => code.push(Instr::Emit(*n))?,
            Op::Skip => {}
        }
    }
    Ok(code)
}
