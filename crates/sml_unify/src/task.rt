//! What is left to do when two types are made equal.

ghost use Rattle.std.specs.Prelude.{◌≡◌, ◌++◌, map, OnOk, IfOk};
ghost use Rattle.sml_unify.specs.Tasks.{pairs_of, parts_tasks};
ghost use Rattle.sml_unify.specs.declared.task.Task.TheVariants.{Unify};
ghost use Rattle.std.specs.Prelude.{length};

use crate::pair::Pair;
use sml_types::Ty;
use smlc_base::NoMemory;
use std::alloc::Global;

/// To make a pair equal, or to note two forms as equal once all that was begun after is done.
#[derive(Clone, Copy, Drop)]
pub enum Task {
    Unify(Pair),
    Link(Pair),
}

/// The pairs as tasks.
pub(crate) fn tasks_of(alloc: Global, pairs: &[Pair]) -> Result<Vec<Task>, NoMemory>
    ensures { IfOk result (λ v. v.items ≡ map Unify pairs.now) }
{
    let tasks = pairs.iter().map(|p| Task::Unify(*p)).collect(alloc)?;
    Ok(tasks)
}

/// Adds the pairs that are left to be made equal.
pub(crate) fn add_pairs(pairs: &mut Vec<Pair>, tasks: &[Task]) -> Result<(), NoMemory>
    ensures { OnOk result (pairs.new.items ≡ pairs.old.items ++ pairs_of tasks.now) }
{
    'tasks: for task in tasks {
        if let Task::Unify(pair) = task {
            pairs.push(*pair)?;
        }
    }
    Ok(())
}

/// Adds the pairs of parts, the last first.
pub(crate) fn add_parts(tasks: &mut Vec<Task>, xs: &[u32], ys: &[u32]) -> Result<(), NoMemory>
    requires { length xs.now ≡ length ys.now }
    ensures { OnOk result (tasks.new.items ≡ tasks.old.items ++ parts_tasks xs.now ys.now) }
{
    let mut i = xs.len();
    'parts: while i > 0 {
        i -= 1;
        tasks.push(Task::Unify(Pair {
            left: Ty(xs[i]),
            right: Ty(ys[i]),
        }))?;
    }
    Ok(())
}
