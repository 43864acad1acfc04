//! Ends.

ghost use Rattle.std.specs.Prelude.{◌≡◌, map, IfOk};
ghost use Rattle.closure_ir.specs.declared.body.End.TheVariants as end;
ghost use Rattle.cps_ir.specs.declared.body.End.TheVariants as open_end;
ghost use Rattle.close_steps.specs.Visible.{visible, places_in};
ghost use Rattle.close_steps.specs.Lowered.{rule_lowered, end_lowered};

use crate::atoms::{operand, operands, target, tests};
use crate::decisions::Decisions;
use crate::environment::Environment;
use close_scopes::Scopes;
use closure_ir::{End, Rule};
use cps_ir::Atom;
use smlc_base::{NoMemory, Row};
use std::alloc::Global;

fn rule(
    alloc: Global,
    decisions: &Decisions,
    scopes: &Scopes,
    environment: Environment,
    rule: &cps_ir::Rule,
) -> Result<Rule, NoMemory>
    ensures { IfOk result (λ r. r ≡ rule_lowered (places_in decisions.now (visible scopes.now environment)) rule.now) }
{
    let tests = tests(alloc, decisions, scopes, environment, rule.tests.items())?;
    Ok(Rule {
        tests,
        body: rule.body,
    })
}

fn rules(
    alloc: Global,
    decisions: &Decisions,
    scopes: &Scopes,
    environment: Environment,
    rules: &[cps_ir::Rule],
) -> Result<Row<Rule>, NoMemory>
    ensures { IfOk result (λ all. all ≡ map (rule_lowered (places_in decisions.now (visible scopes.now environment))) rules.now) }
{
    let mut all = Row::new(alloc);
    for one in rules {
        all.push(rule(alloc, decisions, scopes, environment, one)?)?;
    }
    Ok(all)
}

fn lower_equal(
    alloc: Global,
    decisions: &Decisions,
    scopes: &Scopes,
    environment: Environment,
    left: Atom,
    right: Atom,
    truth: bool,
    next: Atom,
) -> Result<End, NoMemory>
    ensures { IfOk result (λ e. e ≡ end_lowered decisions.now (places_in decisions.now (visible scopes.now environment)) (open_end.Equal left right truth next)) }
{
    let left = operand(alloc, decisions, scopes, environment, left)?;
    let right = operand(alloc, decisions, scopes, environment, right)?;
    let next = operand(alloc, decisions, scopes, environment, next)?;
    Ok(End::Equal {
        left,
        right,
        truth,
        next,
    })
}

fn lower_call(
    alloc: Global,
    decisions: &Decisions,
    scopes: &Scopes,
    environment: Environment,
    function: Atom,
    atoms: &[Atom],
) -> Result<End, NoMemory>
    ensures { IfOk result (λ e. e ≡ end_lowered decisions.now (places_in decisions.now (visible scopes.now environment)) (open_end.Call function atoms.now)) }
{
    let target = target(decisions, function);
    let function = operand(alloc, decisions, scopes, environment, function)?;
    let operands = operands(alloc, decisions, scopes, environment, atoms)?;
    Ok(End::Call {
        target,
        function,
        operands,
    })
}

fn lower_match(
    alloc: Global,
    decisions: &Decisions,
    scopes: &Scopes,
    environment: Environment,
    subject: Atom,
    all: &[cps_ir::Rule],
    otherwise: u32,
) -> Result<End, NoMemory>
    ensures { IfOk result (λ e. e ≡ end_lowered decisions.now (places_in decisions.now (visible scopes.now environment)) (open_end.Match subject all.now otherwise)) }
{
    let subject = operand(alloc, decisions, scopes, environment, subject)?;
    let rules = rules(alloc, decisions, scopes, environment, all)?;
    Ok(End::Match {
        subject,
        rules,
        otherwise,
    })
}

/// What closing leaves of an end.
///
/// # Errors
///
/// Want of memory.
pub fn lower_end(
    alloc: Global,
    decisions: &Decisions,
    scopes: &Scopes,
    environment: Environment,
    end: &cps_ir::End,
) -> Result<End, NoMemory>
    ensures { IfOk result (λ e. e ≡ end_lowered decisions.now (places_in decisions.now (visible scopes.now environment)) end.now) }
{
    match end {
        cps_ir::End::Equal {
            left,
            right,
            truth,
            next,
        } => lower_equal(
            alloc,
            decisions,
            scopes,
            environment,
            *left,
            *right,
            *truth,
            *next,
        ),
        cps_ir::End::Call { function, atoms } => {
            lower_call(
                alloc,
                decisions,
                scopes,
                environment,
                *function,
                atoms.items(),
            )
        }
        cps_ir::End::Match {
            subject,
            rules,
            otherwise,
        } => lower_match(
            alloc,
            decisions,
            scopes,
            environment,
            *subject,
            rules.items(),
            *otherwise,
        ),
        cps_ir::End::Throw(packet) => {
            let packet = operand(alloc, decisions, scopes, environment, *packet)?;
            Ok(End::Throw(packet))
        }
        cps_ir::End::Halt => Ok(End::Halt),
    }
}
