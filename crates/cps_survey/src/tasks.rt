//! The tasks of a body, the first one last.

ghost use Rattle.std.specs.Prelude.{◌≡◌, Some, ◌++◌, [], ◌∷◌, map, flat_map, reverse, OnOk, IfOk};
ghost use Rattle.sml_tree.specs.Sets.{row_at, without};
ghost use Rattle.cps_survey.specs.Steps.{bound_in, layout_of, function_tasks, bind_tasks, rule_tasks, end_tasks, body_tasks};

use crate::entry::{Binding, Layout};
use cps_free::row;
use cps_ir::{Bind, Body, End, Function, Rule};
use smlc_base::{NoMemory, Row};
use std::alloc::Global;

/// What waits: what is found when its turn comes, or a body in that of a function, by number.
#[derive(Drop)]
pub enum Task {
    Found(Layout),
    Bound(Binding),
    Body { home: Option<u32>, body: u32 },
}

pub(crate) fn push(work: &mut Vec<Task>, task: Task) -> Result<(), NoMemory>
    ensures { OnOk result (work.new.items ≡ work.old.items ++ task ∷ []) }
{
    work.push(task)?;
    Ok(())
}

fn push_bound(work: &mut Vec<Task>, home: Option<u32>, var: u32) -> Result<(), NoMemory>
    ensures { OnOk result (work.new.items ≡ work.old.items ++ bound_in home var ∷ []) }
{
    push(work, Task::Bound(Binding::new(var, home)))
}

fn push_params(work: &mut Vec<Task>, home: Option<u32>, params: &[u32]) -> Result<(), NoMemory>
    ensures { OnOk result (work.new.items ≡ work.old.items ++ reverse (map (bound_in home) params.now)) }
{
    let mut i = params.len();
    while i > 0 {
        i -= 1;
        push_bound(work, home, params[i])?;
    }
    Ok(())
}

// What is free in a body but for these.
fn free_but(alloc: Global, free: &[u32], params: &[u32]) -> Result<Vec<u32>, NoMemory>
    ensures { IfOk result (λ v. v.items ≡ without free.now params.now) }
{
    let kept = free
        .iter()
        .copied()
        .filter(|x| !params.contains(x))
        .collect(alloc)?;
    Ok(kept)
}

fn layout(alloc: Global, function: &Function, frees: &[Row<u32>]) -> Result<Layout, NoMemory>
    ensures { IfOk result (λ l. l ≡ layout_of (row_at frees.now) function.now) }
{
    let free = free_but(alloc, row(frees, function.body), function.params.items())?;
    Ok(Layout::new(function.name, function.point, Row::from_vec(free)))
}

fn push_function(
    alloc: Global,
    work: &mut Vec<Task>,
    function: &Function,
    frees: &[Row<u32>],
) -> Result<(), NoMemory>
    ensures { OnOk result (work.new.items ≡ work.old.items ++ reverse (function_tasks (row_at frees.now) function.now)) }
{
    let found = layout(alloc, function, frees)?;
    let home = Some(function.name);
    let body = function.body;
    push(work, Task::Body { home, body })?;
    push_params(work, home, function.params.items())?;
    push(work, Task::Found(found))
}

fn push_functions(
    alloc: Global,
    work: &mut Vec<Task>,
    functions: &[Function],
    frees: &[Row<u32>],
) -> Result<(), NoMemory>
    ensures { OnOk result (work.new.items ≡ work.old.items ++ reverse (flat_map (function_tasks (row_at frees.now)) functions.now)) }
{
    let mut i = functions.len();
    while i > 0 {
        i -= 1;
        push_function(alloc, work, &functions[i], frees)?;
    }
    Ok(())
}

fn push_bind(
    alloc: Global,
    work: &mut Vec<Task>,
    home: Option<u32>,
    bind: &Bind,
    frees: &[Row<u32>],
) -> Result<(), NoMemory>
    ensures { OnOk result (work.new.items ≡ work.old.items ++ reverse (bind_tasks (row_at frees.now) home bind.now)) }
{
    match bind {
        Bind::Make { var, .. } => push_bound(work, home, *var),
        Bind::Pick { var, .. } => push_bound(work, home, *var),
        Bind::Prim { var, .. } => push_bound(work, home, *var),
        Bind::Fix(functions) => push_functions(alloc, work, functions.items(), frees),
        Bind::Handler(var) => push_bound(work, home, *var),
        Bind::SetHandler(_) => Ok(()),
    }
}

fn push_binds(
    alloc: Global,
    work: &mut Vec<Task>,
    home: Option<u32>,
    binds: &[Bind],
    frees: &[Row<u32>],
) -> Result<(), NoMemory>
    ensures { OnOk result (work.new.items ≡ work.old.items ++ reverse (flat_map (bind_tasks (row_at frees.now) home) binds.now)) }
{
    let mut i = binds.len();
    while i > 0 {
        i -= 1;
        push_bind(alloc, work, home, &binds[i], frees)?;
    }
    Ok(())
}

fn push_rules(work: &mut Vec<Task>, home: Option<u32>, rules: &[Rule]) -> Result<(), NoMemory>
    ensures { OnOk result (work.new.items ≡ work.old.items ++ reverse (rule_tasks home rules.now)) }
{
    let mut i = rules.len();
    while i > 0 {
        i -= 1;
        let body = rules[i].body;
        push(work, Task::Body { home, body })?;
    }
    Ok(())
}

fn push_end(work: &mut Vec<Task>, home: Option<u32>, end: &End) -> Result<(), NoMemory>
    ensures { OnOk result (work.new.items ≡ work.old.items ++ reverse (end_tasks home end.now)) }
{
    match end {
        End::Match {
            rules,
            otherwise,
            ..
        } => {
            let body = *otherwise;
            push(work, Task::Body { home, body })?;
            push_rules(work, home, rules.items())
        }
        _ => Ok(()),
    }
}

/// All tasks of a body, in front of those that wait.
pub(crate) fn push_body(
    alloc: Global,
    work: &mut Vec<Task>,
    home: Option<u32>,
    body: &Body,
    frees: &[Row<u32>],
) -> Result<(), NoMemory>
    ensures { OnOk result (work.new.items ≡ work.old.items ++ reverse (body_tasks (row_at frees.now) home body.now)) }
{
    push_end(work, home, &body.end)?;
    push_binds(alloc, work, home, body.binds.items(), frees)
}
