//! The tables.

ghost use Rattle.std.specs.Prelude.{◌≡◌, ◌<◌, Some, None, length, replicate, slice_set, IfOk};
ghost use Rattle.lifetime_users.specs.Users.{label_in};
ghost use Rattle.close_decisions.specs.Tables.{decisions_with, AreNumbers};

use close_steps::Decision;
use closure_layouts::ClosureLayout;
use cps_survey::Layout;
use smlc_base::{Label, NoMemory, Row};
use std::alloc::Global;
use variable_users::{label, ranks};

fn copied(alloc: Global, numbers: &[u32]) -> Result<Row<u32>, NoMemory>
    ensures { IfOk result (λ r. r ≡ numbers.now) }
{
    let copy = Vec::from_slice(alloc, numbers)?;
    Ok(Row::from_vec(copy))
}

fn decision(alloc: Global, label: u32, layout: &ClosureLayout) -> Result<Decision, NoMemory>
    ensures { IfOk result (λ d. d ≡ record { label = record { 0 = label }; is_static = layout.now.is_static; has_code = layout.now.has_code; classes = layout.now.classes; own = layout.now.own }) }
{
    let classes = copied(alloc, layout.classes.items())?;
    let own = copied(alloc, layout.own.items())?;
    Ok(Decision {
        label: Label(label),
        is_static: layout.is_static,
        has_code: layout.has_code,
        classes,
        own,
    })
}

/// What is decided of each function, by the layouts of all.
///
/// # Errors
///
/// Want of memory.
pub fn functions(
    alloc: Global,
    all: &[Layout],
    layouts: &[ClosureLayout],
) -> Result<Row<Decision>, NoMemory>
    requires { length layouts.now ≡ length all.now }
    ensures { IfOk result (λ r. r ≡ decisions_with all.now all.now layouts.now) }
{
    let ranks = ranks(alloc, all)?;
    let mut functions = Row::new(alloc);
    for i in 0..all.len() {
        let label = label(&ranks, all[i].point())?;
        functions.push(decision(alloc, label, &layouts[i])?)?;
    }
    Ok(functions)
}

fn no_numbers(alloc: Global, n: usize) -> Result<Vec<Option<u32>>, NoMemory>
    ensures { IfOk result (λ v. v.items ≡ replicate n None) }
{
    let mut numbers = Vec::new(alloc);
    for _ in 0..n {
        numbers.push(None)?;
    }
    Ok(numbers)
}

fn set_number(numbers: &mut Vec<Option<u32>>, name: u32, number: u32)
    ensures { numbers.new.items ≡ slice_set numbers.old.items name (Some number) }
{
    if let Some(place) = numbers.get_mut(name as usize) {
        *place = Some(number);
    }
}

// There is no memory for more functions than numbers.
fn number(place: usize) -> Result<u32, NoMemory>
    ensures { IfOk result (λ n. n ≡ place) }
{
    match u32::try_from(place) {
        Ok(number) => Ok(number),
        Err(_) => Err(NoMemory),
    }
}

/// The number of the function that each variable is bound to, if its binding is that of a function.
///
/// # Errors
///
/// Want of memory.
pub fn numbers(alloc: Global, all: &[Layout], variables: u32) -> Result<Vec<Option<u32>>, NoMemory>
    ensures { IfOk result (λ v. AreNumbers variables 0 all.now v.items) }
{
    let mut numbers = no_numbers(alloc, variables as usize)?;
    let mut i = all.len();
    while i > 0 {
        i -= 1;
        set_number(&mut numbers, all[i].name(), number(i)?);
    }
    Ok(numbers)
}
