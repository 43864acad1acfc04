//! A body with all that stands in it.

ghost use Rattle.std.specs.Prelude.{◌≡◌, ◌<◌, ◌+◌, ◌++◌, OnOk};
ghost use Rattle.placed_ir.specs.Program.{code_at};
ghost use Rattle.place_bodies.proofs.Unfold.{AreNumbered};
ghost use Rattle.emit_items.specs.Body as whole;
ghost use Rattle.emit_bodies.specs.Layout.{text_of, laid};
ghost use Rattle.emit_bodies.specs.Weights.{task_weight, tasks_weight};

use crate::stack::{do_rules, do_tests, do_whole};
use crate::task::Task;
use emit_code::Text;
use emit_items::Labels;
use placed_ir::Body;
use smlc_base::NoMemory;
use std::alloc::Global;

// What was to be put in front of the text by the task is by what the task leaves, which is less.
fn do_task(
    text: &mut Text,
    alloc: Global,
    labels: &Labels,
    bodies: &[Body],
    tasks: &mut Vec<Task>,
    task: Task,
) -> Result<(), NoMemory>
    requires { AreNumbered bodies.now }
    ensures text { OnOk result (laid labels.now bodies.now tasks.new.items text.new ≡ laid labels.now bodies.now tasks.old.items (text_of labels.now bodies.now task text.old)) }
    ensures less { OnOk result (tasks_weight bodies.now tasks.new.items < tasks_weight bodies.now tasks.old.items + task_weight bodies.now task) }
{
    match task {
        Task::Whole { body, group } => {
            do_whole(text, alloc, labels, bodies, tasks, body, group)?;
            Ok(())
        }
        Task::Rules { body, left, group } => {
            do_rules(text, alloc, labels, bodies, tasks, body, left, group)?;
            Ok(())
        }
        Task::Tests {
            body,
            rule,
            behind,
            group,
        } => {
            do_tests(text, alloc, labels, bodies, body, rule, behind)?;
            tasks.push(Task::Rules {
                body,
                left: rule,
                group,
            })?;
            Ok(())
        }
    }
}

/// Puts the body of this number, with all that stands in it, in front of the text.
///
/// # Errors
///
/// Want of memory.
pub fn put_body(
    text: &mut Text,
    alloc: Global,
    labels: &Labels,
    bodies: &[Body],
    number: u32,
) -> Result<(), NoMemory>
    requires { AreNumbered bodies.now }
    ensures { OnOk result (text.new ≡ whole.items labels.now 0 (code_at bodies.now number) ++ text.old) }
{
    let mut tasks = Vec::new(alloc);
    tasks.push(Task::Whole {
        body: number,
        group: 0,
    })?;
    while let Some(task) = tasks.pop() {
        do_task(text, alloc, labels, bodies, &mut tasks, task)?;
    }
    Ok(())
}
