//! The bodies that stand in a body.

ghost use Rattle.std.specs.Prelude.{◌≡◌, ◌++◌, ◌∷◌, [], map, flat_map, OnOk};
ghost use Rattle.cps_ir.specs.Kept.{bind_parts, end_parts, body_parts};

use cps_ir::{Bind, Body, End, Function, Rule};
use smlc_base::NoMemory;

pub(crate) fn push(work: &mut Vec<u32>, body: u32) -> Result<(), NoMemory>
    ensures { OnOk result (work.new.items ≡ work.old.items ++ body ∷ []) }
{
    work.push(body)?;
    Ok(())
}

fn push_functions(work: &mut Vec<u32>, functions: &[Function]) -> Result<(), NoMemory>
    ensures { OnOk result (work.new.items ≡ work.old.items ++ map (λ f. f.body) functions.now) }
{
    for function in functions {
        push(work, function.body)?;
    }
    Ok(())
}

fn push_bind(work: &mut Vec<u32>, bind: &Bind) -> Result<(), NoMemory>
    ensures { OnOk result (work.new.items ≡ work.old.items ++ bind_parts bind.now) }
{
    match bind {
        Bind::Fix(functions) => push_functions(work, functions.items()),
        _ => Ok(()),
    }
}

fn push_binds(work: &mut Vec<u32>, binds: &[Bind]) -> Result<(), NoMemory>
    ensures { OnOk result (work.new.items ≡ work.old.items ++ flat_map bind_parts binds.now) }
{
    for bind in binds {
        push_bind(work, bind)?;
    }
    Ok(())
}

fn push_rules(work: &mut Vec<u32>, rules: &[Rule]) -> Result<(), NoMemory>
    ensures { OnOk result (work.new.items ≡ work.old.items ++ map (λ r. r.body) rules.now) }
{
    for rule in rules {
        push(work, rule.body)?;
    }
    Ok(())
}

fn push_end(work: &mut Vec<u32>, end: &End) -> Result<(), NoMemory>
    ensures { OnOk result (work.new.items ≡ work.old.items ++ end_parts end.now) }
{
    match end {
        End::Match {
            rules,
            otherwise,
            ..
        } => {
            push_rules(work, rules.items())?;
            push(work, *otherwise)
        }
        _ => Ok(()),
    }
}

/// Puts the bodies that stand in a body behind those that wait.
pub(crate) fn push_parts(work: &mut Vec<u32>, body: &Body) -> Result<(), NoMemory>
    ensures { OnOk result (work.new.items ≡ work.old.items ++ body_parts body.now) }
{
    push_binds(work, body.binds.items())?;
    push_end(work, &body.end)
}
