//! The blocks of a group.

ghost use Rattle.std.specs.Prelude.{◌≡◌, ◌++◌, map, IfOk, OnOk};
ghost use Rattle.close_steps.specs.Visible.{decided, visible, places_in, hand_in};
ghost use Rattle.close_groups.specs.Group.{pointed, record_in, code_by, fields_by, closure_by, closures_in};

use close_scopes::Scopes;
use close_steps::{Decision, Decisions, Environment};
use closure_ir::{Maker, Operand, Shape, Variable};
use smlc_base::{NoMemory, Row};
use std::alloc::Global;

// What is read for variables, behind other fields.
fn push_places(
    alloc: Global,
    decisions: &Decisions,
    scopes: &Scopes,
    environment: Environment,
    variables: &[Variable],
    fields: &mut Row<Operand>,
) -> Result<(), NoMemory>
    ensures { OnOk result (fields.new ≡ fields.old ++ map (places_in decisions.now (visible scopes.now environment)) variables.now) }
{
    for variable in variables {
        fields.push(environment.place(alloc, decisions, scopes, *variable)?)?;
    }
    Ok(())
}

fn pointer(
    alloc: Global,
    scopes: &Scopes,
    environment: Environment,
    class: u32,
) -> Result<Operand, NoMemory>
    ensures { IfOk result (λ o. o ≡ pointed (hand_in (visible scopes.now environment) class)) }
{
    match scopes.find(environment.records, class) {
        Some(found) => found.operand(alloc),
        None => Ok(Operand::Literal(0)),
    }
}

// The records of classes, behind other fields.
fn push_pointers(
    alloc: Global,
    scopes: &Scopes,
    environment: Environment,
    classes: &[u32],
    fields: &mut Row<Operand>,
) -> Result<(), NoMemory>
    ensures { OnOk result (fields.new ≡ fields.old ++ map (λ k. pointed (hand_in (visible scopes.now environment) k)) classes.now) }
{
    for class in classes {
        fields.push(pointer(alloc, scopes, environment, *class)?)?;
    }
    Ok(())
}

fn code(alloc: Global, function: &Decision) -> Result<Row<Operand>, NoMemory>
    ensures { IfOk result (λ fields. fields ≡ code_by function.now) }
{
    let mut fields = Row::new(alloc);
    if function.has_code {
        fields.push(Operand::Code(function.label))?;
    }
    Ok(fields)
}

fn fields(
    alloc: Global,
    decisions: &Decisions,
    scopes: &Scopes,
    environment: Environment,
    function: &Decision,
) -> Result<Row<Operand>, NoMemory>
    ensures { IfOk result (λ fields. fields ≡ fields_by (places_in decisions.now (visible scopes.now environment)) (hand_in (visible scopes.now environment)) function.now) }
{
    let mut fields = code(alloc, function)?;
    push_pointers(
        alloc,
        scopes,
        environment,
        function.classes.items(),
        &mut fields,
    )?;
    push_places(
        alloc,
        decisions,
        scopes,
        environment,
        function.own.items(),
        &mut fields,
    )?;
    Ok(fields)
}

fn push_closure(
    alloc: Global,
    decisions: &Decisions,
    scopes: &Scopes,
    environment: Environment,
    name: Variable,
    makers: &mut Row<Maker>,
) -> Result<(), NoMemory>
    ensures { OnOk result (makers.new ≡ makers.old ++ closure_by (places_in decisions.now (visible scopes.now environment)) (hand_in (visible scopes.now environment)) name (decided decisions.now name)) }
{
    match decisions.function(name) {
        Some(function) => {
            let fields = fields(alloc, decisions, scopes, environment, function)?;
            makers.push(Maker {
                var: name,
                shape: Shape::Closure(function.label),
                fields,
            })
        }
        None => Ok(()),
    }
}

/// The closures of the functions of these names, behind other blocks.
pub(crate) fn push_closures(
    alloc: Global,
    decisions: &Decisions,
    scopes: &Scopes,
    environment: Environment,
    names: &[Variable],
    makers: &mut Row<Maker>,
) -> Result<(), NoMemory>
    ensures { OnOk result (makers.new ≡ makers.old ++ closures_in decisions.now (places_in decisions.now (visible scopes.now environment)) (hand_in (visible scopes.now environment)) names.now) }
{
    for name in names {
        push_closure(alloc, decisions, scopes, environment, *name, makers)?;
    }
    Ok(())
}

fn record(
    alloc: Global,
    decisions: &Decisions,
    scopes: &Scopes,
    environment: Environment,
    class: u32,
) -> Result<Maker, NoMemory>
    ensures { IfOk result (λ m. m ≡ record_in decisions.now (places_in decisions.now (visible scopes.now environment)) class) }
{
    let var = decisions.record(class)?;
    let mut fields = Row::new(alloc);
    push_places(
        alloc,
        decisions,
        scopes,
        environment,
        decisions.members(class),
        &mut fields,
    )?;
    Ok(Maker {
        var,
        shape: Shape::ClassRecord(class),
        fields,
    })
}

/// The records of these classes.
pub(crate) fn records(
    alloc: Global,
    decisions: &Decisions,
    scopes: &Scopes,
    environment: Environment,
    classes: &[u32],
) -> Result<Row<Maker>, NoMemory>
    ensures { IfOk result (λ makers. makers ≡ map (record_in decisions.now (places_in decisions.now (visible scopes.now environment))) classes.now) }
{
    let mut makers = Row::new(alloc);
    for class in classes {
        makers.push(record(alloc, decisions, scopes, environment, *class)?)?;
    }
    Ok(makers)
}
