//! The step at a match.

ghost use Rattle.std.specs.Prelude.{◌≡◌, [], ◌∷◌, ◌++◌, length, IfOk, OnOk};
ghost use Rattle.contract_rows.specs.Rows.{empty};
ghost use Rattle.contract_steps.specs.State.{state_of};
ghost use Rattle.contract_steps.specs.Steps.{task_from, rules_from, rule_bodies, rule_tasks, match_left, match_step};

use crate::round::Round;
use contract_group::{Task, put_empty, put_end};
use contract_known::atom_in;
use contract_rules::{RulesLeft, rules_left};
use cps_ir::{Atom, Body, Cps, End, Rule};
use smlc_base::{NoMemory, Row};
use std::alloc::Global;

// One more body of the answer, which a body of the argument is to make.
fn begin(
    alloc: Global,
    bodies: &mut Vec<Body>,
    work: &mut Vec<Task>,
    root: u32,
    body: u32,
) -> Result<u32, NoMemory>
    ensures number { IfOk result (λ n. n ≡ length bodies.old.items) }
    ensures bodies { OnOk result (bodies.new.items ≡ bodies.old.items ++ empty ∷ []) }
    ensures work { OnOk result (work.new.items ≡ work.old.items ++ task_from root (length bodies.old.items) body ∷ []) }
{
    let slot = put_empty(alloc, bodies)?;
    work.push(Task { body, root, slot })?;
    Ok(slot)
}

// The same for the bodies of rules.
fn begin_rules(
    alloc: Global,
    bodies: &mut Vec<Body>,
    work: &mut Vec<Task>,
    root: u32,
    rules: Vec<Rule>,
) -> Result<Vec<Rule>, NoMemory>
    ensures rules { IfOk result (λ v. v.items ≡ rules_from (length bodies.old.items) rules.items) }
    ensures bodies { OnOk result (bodies.new.items ≡ rule_bodies rules.items bodies.old.items) }
    ensures work { OnOk result (work.new.items ≡ rule_tasks root (length bodies.old.items) rules.items work.old.items) }
{
    let mut begun = Vec::new(alloc);
    for rule in rules {
        let body = begin(alloc, bodies, work, root, rule.body)?;
        begun.push(Rule {
            tests: rule.tests,
            body,
        })?;
    }
    Ok(begun)
}

// The rules that are left, or the last body in the place of the match.
fn match_left(
    alloc: Global,
    round: &mut Round,
    task: Task,
    subject: Atom,
    left: RulesLeft,
) -> Result<(), NoMemory>
    ensures { OnOk result (state_of round.new ≡ match_left task subject left (state_of round.old)) }
{
    let root = task.root;
    if left.rules.is_empty() {
        round.work.push(Task {
            body: left.otherwise,
            ..task
        })?;
        return Ok(());
    }
    let (bodies, work) = (&mut round.bodies, &mut round.work);
    let rules = begin_rules(alloc, bodies, work, root, left.rules.into_vec())?;
    let otherwise = begin(alloc, bodies, work, root, left.otherwise)?;
    let end = End::Match {
        subject,
        rules: Row::from_vec(rules),
        otherwise,
    };
    put_end(bodies, task.slot, end);
    Ok(())
}

/// A match.
///
/// # Errors
///
/// Want of memory.
pub fn walk_match(
    alloc: Global,
    program: &Cps,
    round: &mut Round,
    task: Task,
    subject: Atom,
    rules: &[Rule],
    otherwise: u32,
) -> Result<(), NoMemory>
    ensures { OnOk result (state_of round.new ≡ match_step program.now.texts task subject rules.now otherwise (state_of round.old)) }
{
    let subject = atom_in(round.places.as_slice(), subject);
    let left = rules_left(
        alloc,
        program.texts(),
        round.places.as_slice(),
        round.blocks.as_slice(),
        task.root,
        subject,
        rules,
        otherwise,
    )?;
    match_left(alloc, round, task, subject, left)
}
