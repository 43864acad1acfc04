//! A group.

ghost use Rattle.std.specs.Prelude.{◌≡◌, ◌≤◌, ◌++◌, [], map, length, IfOk, OnOk};
ghost use Rattle.close_scopes.specs.Scopes.{Grows, bounds, over};
ghost use Rattle.close_steps.specs.Visible.{visible, places_in, hand_in};
ghost use Rattle.close_groups.specs.Group.{statics_in, kept_in, news_from, themselves, records_at, group_news, within, behind, closures_in, makers_in, record_in, seen_with};

use crate::makers::{push_closures, records as record_makers};
use crate::members::{kept, lacking, needs, news, records, statics, themselves};
use close_scopes::{Bound, Scopes};
use close_steps::{Decisions, Environment};
use closure_ir::{Maker, Variable};
use cps_ir::Function;
use smlc_base::{NoMemory, Row};
use std::alloc::Global;

/// The blocks that a group makes, and what is seen behind it.
#[derive(Drop)]
pub struct Group {
    pub makers: Row<Maker>,
    pub environment: Environment,
}

/// What is seen with these variables and these records more.
fn see_all(
    scopes: &mut Scopes,
    environment: Environment,
    variables: &[Bound],
    records: &[Bound],
) -> Result<Environment, NoMemory>
    requires stands { environment.variables.innermost ≤ length scopes.old }
    requires records { environment.records.innermost ≤ length scopes.old }
    ensures grown { OnOk result (Grows scopes.old scopes.new) }
    ensures variables { IfOk result (λ e. e.variables.innermost ≤ length scopes.new) }
    ensures records { IfOk result (λ e. e.records.innermost ≤ length scopes.new) }
    ensures seen { IfOk result (λ e. visible scopes.new e ≡ seen_with (visible scopes.old environment) variables.now records.now) }
{
    let variables = scopes.bind_all(environment.variables, variables)?;
    let records = scopes.bind_all(environment.records, records)?;
    Ok(Environment {
        is_main: environment.is_main,
        variables,
        records,
    })
}

// The blocks of a group, by what is seen before it and while it is made.
fn makers(
    alloc: Global,
    decisions: &Decisions,
    scopes: &Scopes,
    environment: Environment,
    inside: Environment,
    classes: &[u32],
    names: &[Variable],
) -> Result<Row<Maker>, NoMemory>
    ensures { IfOk result (λ makers. makers ≡ map (record_in decisions.now (places_in decisions.now (visible scopes.now environment))) classes.now ++ closures_in decisions.now (places_in decisions.now (visible scopes.now inside)) (hand_in (visible scopes.now inside)) names.now) }
{
    let mut makers = record_makers(alloc, decisions, scopes, environment, classes)?;
    push_closures(alloc, decisions, scopes, inside, names, &mut makers)?;
    Ok(makers)
}

// What is seen while the blocks of these functions and classes are made.
fn see_news(
    alloc: Global,
    scopes: &mut Scopes,
    environment: Environment,
    classes: &[u32],
    names: &[Variable],
) -> Result<Environment, NoMemory>
    requires stands { environment.variables.innermost ≤ length scopes.old }
    requires records { environment.records.innermost ≤ length scopes.old }
    ensures grown { OnOk result (Grows scopes.old scopes.new) }
    ensures seen { IfOk result (λ e. visible scopes.new e ≡ seen_with (visible scopes.old environment) (news_from (length classes.now) names.now) (news_from 0 classes.now)) }
{
    let Ok(count) = u32::try_from(classes.len()) else {
        return Err(NoMemory);
    };
    let variables = news(alloc, names, count)?;
    let records = news(alloc, classes, 0)?;
    see_all(scopes, environment, &variables, &records)
}

// What is seen behind them.
fn see_made(
    alloc: Global,
    decisions: &Decisions,
    scopes: &mut Scopes,
    environment: Environment,
    classes: &[u32],
    names: &[Variable],
) -> Result<Environment, NoMemory>
    requires stands { environment.variables.innermost ≤ length scopes.old }
    requires records { environment.records.innermost ≤ length scopes.old }
    ensures grown { OnOk result (Grows scopes.old scopes.new) }
    ensures variables { IfOk result (λ e. e.variables.innermost ≤ length scopes.new) }
    ensures records { IfOk result (λ e. e.records.innermost ≤ length scopes.new) }
    ensures seen { IfOk result (λ e. visible scopes.new e ≡ seen_with (visible scopes.old environment) (themselves names.now) (records_at decisions.now.first_record classes.now)) }
{
    let variables = themselves(alloc, names)?;
    let records = records(alloc, decisions, classes)?;
    see_all(scopes, environment, &variables, &records)
}

fn see_statics(
    alloc: Global,
    decisions: &Decisions,
    scopes: &mut Scopes,
    environment: Environment,
    functions: &[Function],
) -> Result<Environment, NoMemory>
    requires stands { environment.variables.innermost ≤ length scopes.old }
    requires records { environment.records.innermost ≤ length scopes.old }
    ensures grown { OnOk result (Grows scopes.old scopes.new) }
    ensures variables { IfOk result (λ e. e.variables.innermost ≤ length scopes.new) }
    ensures records { IfOk result (λ e. e.records.innermost ≤ length scopes.new) }
    ensures seen { IfOk result (λ e. visible scopes.new e ≡ seen_with (visible scopes.old environment) (statics_in decisions.now functions.now) []) }
{
    let statics = statics(alloc, decisions, functions)?;
    see_all(scopes, environment, &statics, &[])
}

/// What closing makes of a group.
///
/// # Errors
///
/// Want of memory.
pub fn lower_group(
    alloc: Global,
    decisions: &Decisions,
    scopes: &mut Scopes,
    environment: Environment,
    functions: &[Function],
) -> Result<Group, NoMemory>
    requires stands { environment.variables.innermost ≤ length scopes.old }
    requires records { environment.records.innermost ≤ length scopes.old }
    ensures grown { OnOk result (Grows scopes.old scopes.new) }
    ensures variables { IfOk result (λ g. g.environment.variables.innermost ≤ length scopes.new) }
    ensures records { IfOk result (λ g. g.environment.records.innermost ≤ length scopes.new) }
    ensures makers { IfOk result (λ g. g.makers ≡ makers_in decisions.now (visible scopes.old environment) functions.now) }
    ensures seen { IfOk result (λ g. visible scopes.new g.environment ≡ behind decisions.now (visible scopes.old environment) functions.now) }
{
    let names = kept(alloc, decisions, functions)?;
    let needed = needs(alloc, decisions, &names)?;
    let classes = lacking(alloc, scopes, environment, &needed)?;
    let outside = see_statics(alloc, decisions, scopes, environment, functions)?;
    let inside = see_news(alloc, scopes, outside, &classes, &names)?;
    let makers = makers(
        alloc,
        decisions,
        scopes,
        environment,
        inside,
        &classes,
        &names,
    )?;
    let environment = see_made(alloc, decisions, scopes, outside, &classes, &names)?;
    Ok(Group {
        makers,
        environment,
    })
}
