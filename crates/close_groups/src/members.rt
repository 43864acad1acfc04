//! The functions of a group, and the records that they need.

ghost use Rattle.std.specs.Prelude.{◌≡◌, ◌++◌, suc, not, is_some, IfOk, OnOk};
ghost use Rattle.close_steps.specs.Visible.{decided, visible, hand_in};
ghost use Rattle.close_groups.specs.Group.{static_bound, statics_in, kept_name, kept_in, classes_by, needs_in, noted, if_missing, missing, news_from, themselves, records_at};

use close_scopes::{Bound, Found, Scopes};
use close_steps::{Decisions, Environment};
use closure_ir::Variable;
use cps_ir::Function;
use smlc_base::NoMemory;
use std::alloc::Global;

fn push_static(
    bounds: &mut Vec<Bound>,
    decisions: &Decisions,
    name: Variable,
) -> Result<(), NoMemory>
    ensures { OnOk result (bounds.new.items ≡ bounds.old.items ++ static_bound name (decided decisions.now name)) }
{
    match decisions.function(name) {
        Some(function) => {
            if function.is_static {
                bounds.push(Bound {
                    key: name,
                    found: Found::Static(function.label),
                })?;
            }
            Ok(())
        }
        None => Ok(()),
    }
}

/// Where the closed functions of a group are found.
pub(crate) fn statics(
    alloc: Global,
    decisions: &Decisions,
    functions: &[Function],
) -> Result<Vec<Bound>, NoMemory>
    ensures { IfOk result (λ v. v.items ≡ statics_in decisions.now functions.now) }
{
    let mut bounds = Vec::new(alloc);
    for function in functions {
        push_static(&mut bounds, decisions, function.name)?;
    }
    Ok(bounds)
}

fn push_kept(
    names: &mut Vec<Variable>,
    decisions: &Decisions,
    name: Variable,
) -> Result<(), NoMemory>
    ensures { OnOk result (names.new.items ≡ names.old.items ++ kept_name name (decided decisions.now name)) }
{
    match decisions.function(name) {
        Some(function) => {
            if !function.is_static {
                names.push(name)?;
            }
            Ok(())
        }
        None => Ok(()),
    }
}

/// The names of the functions of a group that have a closure.
pub(crate) fn kept(
    alloc: Global,
    decisions: &Decisions,
    functions: &[Function],
) -> Result<Vec<Variable>, NoMemory>
    ensures { IfOk result (λ v. v.items ≡ kept_in decisions.now functions.now) }
{
    let mut names = Vec::new(alloc);
    for function in functions {
        push_kept(&mut names, decisions, function.name)?;
    }
    Ok(names)
}

fn push_classes(needs: &mut Vec<u32>, decisions: &Decisions, name: Variable) -> Result<(), NoMemory>
    ensures { OnOk result (needs.new.items ≡ needs.old.items ++ classes_by (decided decisions.now name)) }
{
    match decisions.function(name) {
        Some(function) => {
            needs.extend_from_slice(function.classes.items())?;
            Ok(())
        }
        None => Ok(()),
    }
}

/// The classes whose records the closures of these functions name.
pub(crate) fn needs(
    alloc: Global,
    decisions: &Decisions,
    names: &[Variable],
) -> Result<Vec<u32>, NoMemory>
    ensures { IfOk result (λ v. v.items ≡ needs_in decisions.now names.now) }
{
    let mut needs = Vec::new(alloc);
    for name in names {
        push_classes(&mut needs, decisions, *name)?;
    }
    Ok(needs)
}

// Neither at hand nor among these.
fn is_lacking(scopes: &Scopes, environment: Environment, found: &[u32], class: u32) -> bool
    ensures { result ≡ not (is_some (noted (hand_in (visible scopes.now environment)) found.now class)) }
{
    match scopes.find(environment.records, class) {
        Some(_) => false,
        None => !found.contains(&class),
    }
}

fn push_lacking(
    scopes: &Scopes,
    environment: Environment,
    found: &mut Vec<u32>,
    class: u32,
) -> Result<(), NoMemory>
    ensures { OnOk result (found.new.items ≡ found.old.items ++ if_missing (noted (hand_in (visible scopes.now environment)) found.old.items) class) }
{
    if is_lacking(scopes, environment, found.as_slice(), class) {
        Ok(found.push(class)?)
    } else {
        Ok(())
    }
}

/// The classes among these whose records aren't at hand, each once.
pub(crate) fn lacking(
    alloc: Global,
    scopes: &Scopes,
    environment: Environment,
    needs: &[u32],
) -> Result<Vec<u32>, NoMemory>
    ensures { IfOk result (λ v. v.items ≡ missing (hand_in (visible scopes.now environment)) needs.now) }
{
    let mut found = Vec::new(alloc);
    for class in needs {
        push_lacking(scopes, environment, &mut found, *class)?;
    }
    Ok(found)
}

// There is no memory for more blocks than numbers.
fn next(number: u32) -> Result<u32, NoMemory>
    ensures { IfOk result (λ n. n ≡ suc number) }
{
    match number.checked_add(1) {
        Some(next) => Ok(next),
        None => Err(NoMemory),
    }
}

/// Variables or classes whose blocks the group makes, from this number on.
pub(crate) fn news(alloc: Global, keys: &[u32], first: u32) -> Result<Vec<Bound>, NoMemory>
    ensures { IfOk result (λ v. v.items ≡ news_from first keys.now) }
{
    let mut bounds = Vec::new(alloc);
    let mut number = first;
    for key in keys {
        bounds.push(Bound {
            key: *key,
            found: Found::New(number),
        })?;
        number = next(number)?;
    }
    Ok(bounds)
}

/// Variables that are found in themselves.
pub fn themselves(alloc: Global, names: &[Variable]) -> Result<Vec<Bound>, NoMemory>
    ensures { IfOk result (λ v. v.items ≡ themselves names.now) }
{
    let mut bounds = Vec::new(alloc);
    for name in names {
        bounds.push(Bound {
            key: *name,
            found: Found::Here(*name),
        })?;
    }
    Ok(bounds)
}

/// Classes whose records are in the variables that hold them where they are made.
pub(crate) fn records(
    alloc: Global,
    decisions: &Decisions,
    classes: &[u32],
) -> Result<Vec<Bound>, NoMemory>
    ensures { IfOk result (λ v. v.items ≡ records_at decisions.now.first_record classes.now) }
{
    let mut bounds = Vec::new(alloc);
    for class in classes {
        let variable = decisions.record(*class)?;
        bounds.push(Bound {
            key: *class,
            found: Found::Here(variable),
        })?;
    }
    Ok(bounds)
}
