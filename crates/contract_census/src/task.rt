//! What is left to count.

ghost use Rattle.std.specs.Prelude.{◌≡◌, ◌++◌, map, OnOk};
ghost use Rattle.contract_census.specs.Counting.{count_bind, count_end};
ghost use Rattle.contract_census.specs.Tasks.{function_task, rule_task, bind_tasks, end_tasks, body_tasks, count_body, tasks_behind, count_task};

use crate::counts::{Count, Event};
use crate::steps::{count_bind, count_end, note};
use cps_ir::{Bind, Body, End, Function, Rule, Variable};
use smlc_base::NoMemory;

/// What is left to count.
#[derive(Clone, Copy)]
pub enum Task {
    /// The body of this number, in the function of this name or in the whole.
    Body { body: u32, within: Option<Variable> },
    /// The function of this name, with its body.
    Function { name: Variable, body: u32 },
    /// The end of a function's body.
    Close(Variable),
}

fn push_functions(work: &mut Vec<Task>, functions: &[Function]) -> Result<(), NoMemory>
    ensures { OnOk result (work.new.items ≡ work.old.items ++ map function_task functions.now) }
{
    for function in functions {
        work.push(Task::Function {
            name: function.name,
            body: function.body,
        })?;
    }
    Ok(())
}

fn push_rules(
    work: &mut Vec<Task>,
    rules: &[Rule],
    within: Option<Variable>,
) -> Result<(), NoMemory>
    ensures { OnOk result (work.new.items ≡ work.old.items ++ map (rule_task within) rules.now) }
{
    for rule in rules {
        work.push(Task::Body {
            body: rule.body,
            within,
        })?;
    }
    Ok(())
}

fn push_bind(work: &mut Vec<Task>, bind: &Bind) -> Result<(), NoMemory>
    ensures { OnOk result (work.new.items ≡ work.old.items ++ bind_tasks bind.now) }
{
    match bind {
        Bind::Fix(functions) => push_functions(work, functions.items()),
        _ => Ok(()),
    }
}

fn push_end(work: &mut Vec<Task>, end: &End, within: Option<Variable>) -> Result<(), NoMemory>
    ensures { OnOk result (work.new.items ≡ work.old.items ++ end_tasks within end.now) }
{
    match end {
        End::Match {
            rules,
            otherwise,
            ..
        } => {
            push_rules(work, rules.items(), within)?;
            work.push(Task::Body {
                body: *otherwise,
                within,
            })?;
            Ok(())
        }
        _ => Ok(()),
    }
}

fn count_body(
    counts: &mut Vec<Count>,
    work: &mut Vec<Task>,
    body: &Body,
    within: Option<Variable>,
) -> Result<(), NoMemory>
    ensures counts { OnOk result (counts.new.items ≡ count_body within body.now counts.old.items) }
    ensures work { OnOk result (work.new.items ≡ work.old.items ++ body_tasks within body.now) }
{
    let binds = body.binds.items();
    for bind in binds {
        count_bind(counts, bind, within);
        push_bind(work, bind)?;
    }
    count_end(counts, &body.end, within);
    push_end(work, &body.end, within)?;
    Ok(())
}

/// Does a task, and puts those that it leaves behind the others.
pub(crate) fn count_task(
    counts: &mut Vec<Count>,
    work: &mut Vec<Task>,
    bodies: &[Body],
    task: Task,
) -> Result<(), NoMemory>
    ensures counts { OnOk result (counts.new.items ≡ count_task bodies.now task counts.old.items) }
    ensures work { OnOk result (work.new.items ≡ work.old.items ++ tasks_behind bodies.now task) }
{
    match task {
        Task::Body { body, within } => match bodies.get(body as usize) {
            Some(found) => count_body(counts, work, found, within),
            None => Ok(()),
        },
        Task::Function { name, body } => {
            note(counts, name, Event::Opened);
            work.push(Task::Close(name))?;
            work.push(Task::Body {
                body,
                within: Some(name),
            })?;
            Ok(())
        }
        Task::Close(name) => {
            note(counts, name, Event::Closed);
            Ok(())
        }
    }
}
