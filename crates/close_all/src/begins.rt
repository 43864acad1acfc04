//! What bodies see at their beginning, in a table by number.

ghost use Rattle.std.specs.Prelude.{◌≡◌, map, replicate, slice_set, IfOk, OnOk};
ghost use Rattle.cps_ir.specs.Kept.{end_parts};
ghost use Rattle.close_steps.specs.Visible.{decided};
ghost use Rattle.close_seen.specs.Seen.{put_all, enter_one, enter_all};
ghost use Rattle.close_all.specs.Begins.{nothing_seen, begin_in, AllStand, all_visible};

use close_entries::enter;
use close_scopes::{Scope, Scopes};
use close_steps::{Decisions, Environment};
use cps_ir::{End, Function, Rule};
use smlc_base::NoMemory;
use std::alloc::Global;

fn nothing_seen() -> Environment
    ensures { result ≡ nothing_seen }
{
    Environment {
        is_main: true,
        variables: Scope::empty(),
        records: Scope::empty(),
    }
}

/// A table of so many bodies that see nothing.
pub(crate) fn no_begins(alloc: Global, n: usize) -> Result<Vec<Environment>, NoMemory>
    ensures { IfOk result (λ v. v.items ≡ replicate n nothing_seen) }
{
    let mut begins = Vec::new(alloc);
    for _ in 0..n {
        begins.push(nothing_seen())?;
    }
    Ok(begins)
}

/// What the body of a number sees.
pub(crate) fn begin(begins: &[Environment], body: usize) -> Environment
    ensures { result ≡ begin_in begins.now body }
{
    match begins.get(body) {
        Some(environment) => *environment,
        None => nothing_seen(),
    }
}

fn put(begins: &mut Vec<Environment>, body: u32, environment: Environment)
    ensures { begins.new.items ≡ slice_set begins.old.items body environment }
{
    if let Some(place) = begins.get_mut(body as usize) {
        *place = environment;
    }
}

fn put_rules(begins: &mut Vec<Environment>, rules: &[Rule], environment: Environment)
    ensures { begins.new.items ≡ put_all begins.old.items (map (λ r. r.body) rules.now) environment }
{
    for rule in rules {
        put(begins, rule.body, environment);
    }
}

/// The bodies of an end see this.
pub(crate) fn put_end(begins: &mut Vec<Environment>, end: &End, environment: Environment)
    ensures { begins.new.items ≡ put_all begins.old.items (end_parts end.now) environment }
{
    match end {
        End::Match {
            rules,
            otherwise,
            ..
        } => {
            put_rules(begins, rules.items(), environment);
            put(begins, *otherwise, environment);
        }
        _ => (),
    }
}

fn enter_one(
    alloc: Global,
    decisions: &Decisions,
    scopes: &mut Scopes,
    begins: &mut Vec<Environment>,
    function: &Function,
) -> Result<(), NoMemory>
    requires { AllStand scopes.old begins.old.items }
    ensures stand { OnOk result (AllStand scopes.new begins.new.items) }
    ensures seen { OnOk result (all_visible scopes.new begins.new.items ≡ enter_one decisions.now (all_visible scopes.old begins.old.items) function.now (decided decisions.now function.now.name)) }
{
    match decisions.function(function.name) {
        Some(decision) => {
            let environment = enter(
                alloc,
                decisions,
                scopes,
                function.name,
                decision,
                function.params.items(),
            )?;
            put(begins, function.body, environment);
            Ok(())
        }
        None => Ok(()),
    }
}

/// The bodies of functions see what is entered.
pub(crate) fn enter_all(
    alloc: Global,
    decisions: &Decisions,
    scopes: &mut Scopes,
    begins: &mut Vec<Environment>,
    functions: &[&Function],
) -> Result<(), NoMemory>
    requires { AllStand scopes.old begins.old.items }
    ensures stand { OnOk result (AllStand scopes.new begins.new.items) }
    ensures seen { OnOk result (all_visible scopes.new begins.new.items ≡ enter_all decisions.now (all_visible scopes.old begins.old.items) (map (λ f. f.now) functions.now)) }
{
    for function in functions {
        enter_one(alloc, decisions, scopes, begins, function)?;
    }
    Ok(())
}
