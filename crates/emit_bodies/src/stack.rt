//! What is done with each task.

ghost use Rattle.std.specs.Prelude.{◌≡◌, ◌-◌, ◌++◌, List, Some, length, slice_get, IfOk, OnOk};
ghost use Rattle.placed_ir.specs.declared.body.Body.{Body};
ghost use Rattle.emit_items.specs.declared.labels.Labels.{Labels};
ghost use Rattle.rv_asm.specs.Item as item;
ghost use Rattle.emit_items.specs.Ends.{halted};
ghost use Rattle.emit_code.specs.Steps.{last_group, steps_items};
ghost use Rattle.emit_bodies.specs.Layout.{rules_of, group_behind, end_items, found_tests, tests_text, otherwise_task, whole_tasks, whole_text, rule_tasks, rules_tasks, steps_of, found_text};

use crate::layout::put_end;
use crate::rules::put_tests;
use crate::task::Task;
use emit_code::Text;
use emit_code::ends::halt;
use emit_code::making::group_words;
use emit_code::steps::put_steps;
use emit_items::Labels;
use placed_ir::{Body, End, Rule, Source, Step};
use smlc_base::NoMemory;
use std::alloc::Global;

// The words of the last group behind these steps, where the last one before them has so many.
fn last_group(before: u32, steps: &[Step]) -> Result<u32, NoMemory>
    ensures { IfOk result (λ n. n ≡ last_group before steps.now) }
{
    let mut group = before;
    for step in steps {
        if let Step::Make(buildings) = step {
            group = group_words(buildings.items())?;
        }
    }
    Ok(group)
}

fn end_in_front(text: &mut Text, alloc: Global, labels: &Labels, end: &End) -> Result<(), NoMemory>
    ensures { OnOk result (text.new ≡ end_items labels.now end.now ++ text.old) }
{
    let mut piece = Vec::new(alloc);
    put_end(&mut piece, labels, end)?;
    text.put_in_front(piece.as_slice())
}

fn halt_in_front(text: &mut Text, alloc: Global, labels: &Labels) -> Result<(), NoMemory>
    ensures { OnOk result (text.new ≡ halted labels.now ++ text.old) }
{
    let mut piece = Vec::new(alloc);
    halt(&mut piece, labels)?;
    text.put_in_front(piece.as_slice())
}

fn steps_in_front(
    text: &mut Text,
    alloc: Global,
    labels: &Labels,
    group: u32,
    steps: &[Step],
) -> Result<(), NoMemory>
    ensures { OnOk result (text.new ≡ steps_items labels.now group steps.now ++ text.old) }
{
    let mut piece = Vec::new(alloc);
    put_steps(&mut piece, labels, group, steps)?;
    text.put_in_front(piece.as_slice())
}

fn rules_of(end: &End) -> &[Rule]
    ensures { result.now ≡ rules_of end.now }
{
    match end {
        End::Match { rules, .. } => rules.items(),
        _ => &[],
    }
}

fn count(rules: &[Rule]) -> Result<u32, NoMemory>
    ensures { IfOk result (λ n. n ≡ length rules.now) }
{
    match u32::try_from(rules.len()) {
        Ok(n) => Ok(n),
        Err(_) => Err(NoMemory),
    }
}

fn group_behind(rules: &[Rule], group: u32) -> u32
    ensures { result ≡ group_behind rules.now group }
{
    match rules {
        [] => group,
        _ => 0,
    }
}

// The body behind the rules of a match comes first.
fn push_otherwise(tasks: &mut Vec<Task>, group: u32, end: &End) -> Result<(), NoMemory>
    ensures { OnOk result ((L : Labels) → (bodies : List Body) → tasks.new.items ≡ tasks.old.items ++ otherwise_task L bodies group end.now) }
{
    if let End::Match {
        rules,
        otherwise,
        ..
    } = end
    {
        tasks.push(Task::Whole {
            body: *otherwise,
            group: group_behind(rules.items(), group),
        })?;
    }
    Ok(())
}

fn whole_body(
    text: &mut Text,
    alloc: Global,
    labels: &Labels,
    tasks: &mut Vec<Task>,
    number: u32,
    group: u32,
    body: &Body,
) -> Result<(), NoMemory>
    ensures tasks { OnOk result ((bodies : List Body) → tasks.new.items ≡ tasks.old.items ++ whole_tasks labels.now bodies number group (Some body.now)) }
    ensures text { OnOk result (text.new ≡ end_items labels.now body.now.end ++ text.old) }
{
    end_in_front(text, alloc, labels, &body.end)?;
    let left = count(rules_of(&body.end))?;
    let last = last_group(group, body.steps.items())?;
    tasks.push(Task::Rules {
        body: number,
        left,
        group,
    })?;
    push_otherwise(tasks, last, &body.end)?;
    Ok(())
}

pub(crate) fn do_whole(
    text: &mut Text,
    alloc: Global,
    labels: &Labels,
    bodies: &[Body],
    tasks: &mut Vec<Task>,
    number: u32,
    group: u32,
) -> Result<(), NoMemory>
    ensures tasks { OnOk result (tasks.new.items ≡ tasks.old.items ++ whole_tasks labels.now bodies.now number group (slice_get bodies.now number)) }
    ensures text { OnOk result (text.new ≡ whole_text labels.now bodies.now (slice_get bodies.now number) ++ text.old) }
{
    let at = number as usize;
    if at < bodies.len() {
        whole_body(text, alloc, labels, tasks, number, group, &bodies[at])?;
        Ok(())
    } else {
        halt_in_front(text, alloc, labels)?;
        Ok(())
    }
}

// The last of these rules, whose code comes first.
fn push_rule(
    tasks: &mut Vec<Task>,
    number: u32,
    place: u32,
    group: u32,
    behind: u32,
    rules: &[Rule],
) -> Result<(), NoMemory>
    ensures { OnOk result ((L : Labels) → (bodies : List Body) → tasks.new.items ≡ tasks.old.items ++ rule_tasks L bodies number place group behind (slice_get rules.now place)) }
{
    let at = place as usize;
    if at < rules.len() {
        tasks.push(Task::Tests {
            body: number,
            rule: place,
            behind,
            group,
        })?;
        tasks.push(Task::Whole {
            body: rules[at].body,
            group: 0,
        })?;
        Ok(())
    } else {
        tasks.push(Task::Rules {
            body: number,
            left: place,
            group,
        })?;
        Ok(())
    }
}

fn rules_body(
    text: &mut Text,
    alloc: Global,
    labels: &Labels,
    tasks: &mut Vec<Task>,
    number: u32,
    left: u32,
    group: u32,
    body: &Body,
) -> Result<(), NoMemory>
    ensures tasks { OnOk result ((bodies : List Body) → tasks.new.items ≡ tasks.old.items ++ rules_tasks labels.now bodies number left group (item.words text.old) (Some body.now)) }
    ensures text { OnOk result ((bodies : List Body) → text.new ≡ steps_of labels.now bodies left group (Some body.now) ++ text.old) }
{
    if left == 0 {
        steps_in_front(text, alloc, labels, group, body.steps.items())?;
        Ok(())
    } else {
        let behind = text.words();
        push_rule(tasks, number, left - 1, group, behind, rules_of(&body.end))?;
        Ok(())
    }
}

pub(crate) fn do_rules(
    text: &mut Text,
    alloc: Global,
    labels: &Labels,
    bodies: &[Body],
    tasks: &mut Vec<Task>,
    number: u32,
    left: u32,
    group: u32,
) -> Result<(), NoMemory>
    ensures tasks { OnOk result (tasks.new.items ≡ tasks.old.items ++ rules_tasks labels.now bodies.now number left group (item.words text.old) (slice_get bodies.now number)) }
    ensures text { OnOk result (text.new ≡ steps_of labels.now bodies.now left group (slice_get bodies.now number) ++ text.old) }
{
    let at = number as usize;
    if at < bodies.len() {
        rules_body(text, alloc, labels, tasks, number, left, group, &bodies[at])?;
        Ok(())
    } else {
        Ok(())
    }
}

// The tests of the rule of this place.
fn found_in_front(
    text: &mut Text,
    alloc: Global,
    labels: &Labels,
    subject: &Source,
    rules: &[Rule],
    place: u32,
    after: u32,
) -> Result<(), NoMemory>
    ensures { OnOk result (text.new ≡ found_tests labels.now subject.now (slice_get rules.now place) after ++ text.old) }
{
    let at = place as usize;
    if at < rules.len() {
        put_tests(text, alloc, labels, subject, rules[at].tests.items(), after)?;
        Ok(())
    } else {
        Ok(())
    }
}

fn tests_in_front(
    text: &mut Text,
    alloc: Global,
    labels: &Labels,
    end: &End,
    place: u32,
    after: u32,
) -> Result<(), NoMemory>
    ensures { OnOk result (text.new ≡ tests_text labels.now end.now place after ++ text.old) }
{
    match end {
        End::Match { subject, rules, .. } => {
            found_in_front(text, alloc, labels, subject, rules.items(), place, after)
        }
        _ => Ok(()),
    }
}

pub(crate) fn do_tests(
    text: &mut Text,
    alloc: Global,
    labels: &Labels,
    bodies: &[Body],
    number: u32,
    place: u32,
    behind: u32,
) -> Result<(), NoMemory>
    ensures { OnOk result (text.new ≡ found_text labels.now bodies.now (slice_get bodies.now number) place (item.words text.old - behind) ++ text.old) }
{
    let after = text.words().saturating_sub(behind);
    let at = number as usize;
    if at < bodies.len() {
        tests_in_front(text, alloc, labels, &bodies[at].end, place, after)?;
        Ok(())
    } else {
        Ok(())
    }
}
