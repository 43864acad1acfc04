//! How many nodes a program has.

ghost use Rattle.std.specs.Prelude.{◌≡◌, ◌+◌, [], ◌∷◌, ◌++◌, map, flat_map, slice_get, IfOk, OnOk};
ghost use Rattle.cps_ir.specs.Kept.{bind_parts, end_parts, body_parts};
ghost use Rattle.cps_ir.specs.Program.{tree_of};
ghost use Rattle.contract_laws.specs.Redex.{nodes};
ghost use Rattle.cps_contract.specs.Own.{bind_own, binds_own, rules_own, end_own, body_own, found_own, found_parts};

use cps_ir::{Bind, Body, Cps, End, Function, Rule};
use smlc_base::NoMemory;
use std::alloc::Global;

fn sum(one: usize, other: usize) -> Result<usize, NoMemory>
    ensures { IfOk result (λ n. n ≡ one + other) }
{
    match one.checked_add(other) {
        Some(n) => Ok(n),
        None => Err(NoMemory),
    }
}

fn bind_own(bind: &Bind) -> Result<usize, NoMemory>
    ensures { IfOk result (λ n. n ≡ bind_own bind.now) }
{
    match bind {
        Bind::Fix(functions) => sum(functions.len(), 1),
        _ => Ok(1),
    }
}

fn binds_own(binds: &[Bind]) -> Result<usize, NoMemory>
    ensures { IfOk result (λ n. n ≡ binds_own binds.now) }
{
    let mut count = 0;
    for bind in binds {
        let own = bind_own(bind)?;
        count = sum(count, own)?;
    }
    Ok(count)
}

fn rules_own(rules: &[Rule]) -> Result<usize, NoMemory>
    ensures { IfOk result (λ n. n ≡ rules_own rules.now) }
{
    let mut count = 0;
    for rule in rules {
        let own = sum(rule.tests.len(), 1)?;
        count = sum(count, own)?;
    }
    Ok(count)
}

fn end_own(end: &End) -> Result<usize, NoMemory>
    ensures { IfOk result (λ n. n ≡ end_own end.now) }
{
    match end {
        End::Match { rules, .. } => {
            let own = rules_own(rules.items())?;
            sum(own, 1)
        }
        _ => Ok(1),
    }
}

fn body_own(body: &Body) -> Result<usize, NoMemory>
    ensures { IfOk result (λ n. n ≡ body_own body.now) }
{
    let binds = binds_own(body.binds.items())?;
    let end = end_own(&body.end)?;
    sum(binds, end)
}

fn push_functions(work: &mut Vec<u32>, functions: &[Function]) -> Result<(), NoMemory>
    ensures { OnOk result (work.new.items ≡ work.old.items ++ map (λ f. f.body) functions.now) }
{
    for function in functions {
        work.push(function.body)?;
    }
    Ok(())
}

fn push_bind(work: &mut Vec<u32>, bind: &Bind) -> Result<(), NoMemory>
    ensures { OnOk result (work.new.items ≡ work.old.items ++ bind_parts bind.now) }
{
    match bind {
        Bind::Fix(functions) => push_functions(work, functions.items()),
        _ => Ok(()),
    }
}

fn push_binds(work: &mut Vec<u32>, binds: &[Bind]) -> Result<(), NoMemory>
    ensures { OnOk result (work.new.items ≡ work.old.items ++ flat_map bind_parts binds.now) }
{
    for bind in binds {
        push_bind(work, bind)?;
    }
    Ok(())
}

fn push_rules(work: &mut Vec<u32>, rules: &[Rule]) -> Result<(), NoMemory>
    ensures { OnOk result (work.new.items ≡ work.old.items ++ map (λ r. r.body) rules.now) }
{
    for rule in rules {
        work.push(rule.body)?;
    }
    Ok(())
}

fn push_end(work: &mut Vec<u32>, end: &End) -> Result<(), NoMemory>
    ensures { OnOk result (work.new.items ≡ work.old.items ++ end_parts end.now) }
{
    match end {
        End::Match {
            rules,
            otherwise,
            ..
        } => {
            push_rules(work, rules.items())?;
            work.push(*otherwise)?;
            Ok(())
        }
        _ => Ok(()),
    }
}

// The bodies that stand in a body.
fn push_parts(work: &mut Vec<u32>, body: &Body) -> Result<(), NoMemory>
    ensures { OnOk result (work.new.items ≡ work.old.items ++ body_parts body.now) }
{
    push_binds(work, body.binds.items())?;
    push_end(work, &body.end)
}

// The nodes of the body of this number. One that isn't there is an end alone.
fn own_at(bodies: &[Body], at: u32) -> Result<usize, NoMemory>
    ensures { IfOk result (λ n. n ≡ found_own (slice_get bodies.now at)) }
{
    match bodies.get(at as usize) {
        Some(body) => body_own(body),
        None => Ok(1),
    }
}

fn push_at(work: &mut Vec<u32>, bodies: &[Body], at: u32) -> Result<(), NoMemory>
    ensures { OnOk result (work.new.items ≡ work.old.items ++ found_parts (slice_get bodies.now at)) }
{
    match bodies.get(at as usize) {
        Some(body) => push_parts(work, body),
        None => Ok(()),
    }
}

/// The nodes of all bodies: bindings, functions, tests and ends.
///
/// # Errors
///
/// Want of memory.
pub fn nodes_of(alloc: Global, program: &Cps) -> Result<usize, NoMemory>
    ensures { IfOk result (λ n. n ≡ nodes (tree_of program.now).code) }
{
    let bodies = program.bodies();
    let mut count = 0;
    let mut work = Vec::new(alloc);
    work.push(0)?;
    while let Some(at) = work.pop() {
        let own = own_at(bodies, at)?;
        count = sum(count, own)?;
        push_at(&mut work, bodies, at)?;
    }
    Ok(count)
}
