//! The counts of all variables of a program.

ghost use Rattle.std.specs.Prelude.{◌≡◌, IfOk};
ghost use Rattle.cps_ir.specs.Program.{code_at, tree_of};
ghost use Rattle.contract_census.specs.Counting.{count_at};
ghost use Rattle.contract_census.specs.Counted.{IsCensus};
ghost use Rattle.contract_census.specs.Run.{run_whole};

use crate::counts::Count;
use crate::task::{Task, count_task};
use cps_ir::{Cps, Variable};
use smlc_base::NoMemory;
use std::alloc::Global;

// The counts, in the order in which the bodies are met.
fn count_all(alloc: Global, program: &Cps) -> Result<Vec<Count>, NoMemory>
    ensures { IfOk result (λ v. v.items ≡ run_whole program.now.variables (code_at program.now.bodies 0)) }
{
    let bodies = program.bodies();
    let mut counts = vec![in alloc; Count::nothing(); program.variables() as usize]?;
    let mut work = Vec::new(alloc);
    work.push(Task::Body {
        body: 0,
        within: None,
    })?;
    while let Some(task) = work.pop() {
        count_task(&mut counts, &mut work, bodies, task)?;
    }
    Ok(counts)
}

/// How often each variable of a program is used, by number.
///
/// # Errors
///
/// Want of memory.
pub fn census(alloc: Global, program: &Cps) -> Result<Vec<Count>, NoMemory>
    ensures { IfOk result (λ v. IsCensus v.items (tree_of program.now).code) }
{
    let _ = program.bodies();
    count_all(alloc, program)
}

/// The count of a variable.
pub fn count_of(counts: &[Count], x: Variable) -> Count
    ensures { result ≡ count_at counts.now x }
{
    match counts.get(x as usize) {
        Some(found) => *found,
        None => Count::nothing(),
    }
}
