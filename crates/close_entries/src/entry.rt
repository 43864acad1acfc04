//! The scope of a function's body.

ghost use Rattle.std.specs.Prelude.{◌≡◌, ◌≤◌, ◌+◌, ◌++◌, ◌∷◌, [], suc, length, IfOk, OnOk};
ghost use Rattle.close_scopes.specs.Scopes.{Grows, bounds, over};
ghost use Rattle.close_steps.specs.Visible.{visible};
ghost use Rattle.close_entries.specs.Entries.{fields_from, shared_from, through_records, first_field, closure_bounds, entered};

use close_groups::themselves;
use close_scopes::{Bound, Found, Scope, Scopes};
use close_steps::{Decision, Decisions, Environment};
use closure_ir::Variable;
use smlc_base::NoMemory;
use std::alloc::Global;

// There is no memory for more fields than numbers.
fn next(field: u32) -> Result<u32, NoMemory>
    ensures { IfOk result (λ n. n ≡ suc field) }
{
    match field.checked_add(1) {
        Some(next) => Ok(next),
        None => Err(NoMemory),
    }
}

fn behind(first: u32, count: usize) -> Result<u32, NoMemory>
    ensures { IfOk result (λ n. n ≡ first + count) }
{
    let Ok(count) = u32::try_from(count) else {
        return Err(NoMemory);
    };
    match first.checked_add(count) {
        Some(field) => Ok(field),
        None => Err(NoMemory),
    }
}

// Variables or classes in the fields of a closure, from one on.
fn push_fields(
    bounds: &mut Vec<Bound>,
    closure: Variable,
    first: u32,
    keys: &[u32],
) -> Result<(), NoMemory>
    ensures { OnOk result (bounds.new.items ≡ bounds.old.items ++ fields_from closure first keys.now) }
{
    let mut field = first;
    for key in keys {
        bounds.push(Bound {
            key: *key,
            found: Found::Field { closure, field },
        })?;
        field = next(field)?;
    }
    Ok(())
}

// Variables in the record in a field of a closure.
fn push_shared(
    bounds: &mut Vec<Bound>,
    closure: Variable,
    slot: u32,
    variables: &[Variable],
) -> Result<(), NoMemory>
    ensures { OnOk result (bounds.new.items ≡ bounds.old.items ++ shared_from closure slot 0 variables.now) }
{
    let mut field = 0;
    for variable in variables {
        bounds.push(Bound {
            key: *variable,
            found: Found::Shared {
                closure,
                record: slot,
                field,
            },
        })?;
        field = next(field)?;
    }
    Ok(())
}

// The variables of classes whose records are in the fields of a closure, from one on.
fn push_classes(
    bounds: &mut Vec<Bound>,
    decisions: &Decisions,
    closure: Variable,
    first: u32,
    classes: &[u32],
) -> Result<(), NoMemory>
    ensures { OnOk result (bounds.new.items ≡ bounds.old.items ++ through_records decisions.now closure first classes.now) }
{
    let mut slot = first;
    for class in classes {
        push_shared(bounds, closure, slot, decisions.members(*class))?;
        slot = next(slot)?;
    }
    Ok(())
}

fn first_field(function: &Decision) -> u32
    ensures { result ≡ first_field function.now }
{
    if function.has_code { 1 } else { 0 }
}

// What a closure has, the first innermost.
fn closure_bounds(
    alloc: Global,
    decisions: &Decisions,
    name: Variable,
    function: &Decision,
) -> Result<Vec<Bound>, NoMemory>
    ensures { IfOk result (λ v. v.items ≡ closure_bounds decisions.now name function.now) }
{
    let first = first_field(function);
    let own = behind(first, function.classes.len())?;
    let mut bounds = Vec::new(alloc);
    bounds.push(Bound {
        key: name,
        found: Found::Here(name),
    })?;
    push_fields(&mut bounds, name, own, function.own.items())?;
    push_classes(
        &mut bounds,
        decisions,
        name,
        first,
        function.classes.items(),
    )?;
    Ok(bounds)
}

// The scope of these bindings alone, the first innermost.
fn bind_inwards(scopes: &mut Scopes, all: &[Bound]) -> Result<Scope, NoMemory>
    ensures grown { OnOk result (Grows scopes.old scopes.new) }
    ensures stands { IfOk result (λ s. s.innermost ≤ length scopes.new) }
    ensures made { IfOk result (λ s. bounds scopes.new s.innermost ≡ all.now) }
{
    let mut scope = Scope::empty();
    let mut i = all.len();
    while i > 0 {
        i -= 1;
        scope = scopes.bind(scope, all[i])?;
    }
    Ok(scope)
}

fn slots(alloc: Global, name: Variable, function: &Decision) -> Result<Vec<Bound>, NoMemory>
    ensures { IfOk result (λ v. v.items ≡ fields_from name (first_field function.now) function.now.classes) }
{
    let mut bounds = Vec::new(alloc);
    push_fields(
        &mut bounds,
        name,
        first_field(function),
        function.classes.items(),
    )?;
    Ok(bounds)
}

/// What a function's body sees at its beginning.
///
/// # Errors
///
/// Want of memory.
pub fn enter(
    alloc: Global,
    decisions: &Decisions,
    scopes: &mut Scopes,
    name: Variable,
    function: &Decision,
    params: &[Variable],
) -> Result<Environment, NoMemory>
    ensures grown { OnOk result (Grows scopes.old scopes.new) }
    ensures variables { IfOk result (λ e. e.variables.innermost ≤ length scopes.new) }
    ensures records { IfOk result (λ e. e.records.innermost ≤ length scopes.new) }
    ensures seen { IfOk result (λ e. visible scopes.new e ≡ entered decisions.now name function.now params.now) }
{
    let closure = closure_bounds(alloc, decisions, name, function)?;
    let slots = slots(alloc, name, function)?;
    let params = themselves(alloc, params)?;
    let records = bind_inwards(scopes, &slots)?;
    let closure = bind_inwards(scopes, &closure)?;
    let variables = scopes.bind_all(closure, &params)?;
    Ok(Environment {
        is_main: false,
        variables,
        records,
    })
}
