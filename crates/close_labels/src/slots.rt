//! Functions in the slots of their labels.

ghost use Rattle.std.specs.Prelude.{◌≡◌, ◌++◌, ◌<◌, None, Some, map, length, replicate, slice_set, IfOk, OnOk};
ghost use Rattle.close_steps.specs.Visible.{decided};
ghost use Rattle.close_labels.specs.Slots.{routine_by, fill_one, fill, of_slot, slot_in, routines_by_label};

use close_steps::Decisions;
use cps_ir::Function;
use smlc_base::{NoMemory, Row};
use std::alloc::Global;

fn empty_slots(alloc: Global, n: usize) -> Result<Vec<Option<u32>>, NoMemory>
    ensures { IfOk result (λ v. v.items ≡ replicate n None) }
{
    let mut slots = Vec::new(alloc);
    for _ in 0..n {
        slots.push(None)?;
    }
    Ok(slots)
}

fn set_slot(slots: &mut Vec<Option<u32>>, label: u32, number: u32)
    ensures { slots.new.items ≡ slice_set slots.old.items label (Some number) }
{
    if let Some(slot) = slots.get_mut(label as usize) {
        *slot = Some(number);
    }
}

fn fill_one(decisions: &Decisions, function: &Function, number: u32, slots: &mut Vec<Option<u32>>)
    ensures { slots.new.items ≡ fill_one slots.old.items number (decided decisions.now function.now.name) }
{
    if let Some(decision) = decisions.function(function.name) {
        set_slot(slots, decision.label.0, number);
    }
}

// There is no memory for more functions than numbers.
fn number(place: usize) -> Result<u32, NoMemory>
    ensures { IfOk result (λ n. n ≡ place) }
{
    match u32::try_from(place) {
        Ok(number) => Ok(number),
        Err(_) => Err(NoMemory),
    }
}

// The numbers of functions by label.
fn slots(
    alloc: Global,
    decisions: &Decisions,
    functions: &[&Function],
) -> Result<Vec<Option<u32>>, NoMemory>
    ensures { IfOk result (λ v. map (slot_in (map (λ f. f.now) functions.now)) v.items ≡ fill decisions.now (replicate (length functions.now) None) (map (λ f. f.now) functions.now)) }
{
    let mut slots = empty_slots(alloc, functions.len())?;
    for i in 0..functions.len() {
        fill_one(decisions, functions[i], number(i)?, &mut slots);
    }
    Ok(slots)
}

fn routine(alloc: Global, function: &Function) -> Result<closure_ir::Function, NoMemory>
    ensures { IfOk result (λ r. r ≡ routine_by function.now) }
{
    let mut params = Vec::new(alloc);
    params.push(function.name)?;
    params.extend_from_slice(function.params.items())?;
    Ok(closure_ir::Function {
        params: Row::from_vec(params),
        body: function.body,
    })
}

fn push_slot(
    alloc: Global,
    functions: &[&Function],
    slot: Option<u32>,
    routines: &mut Row<closure_ir::Function>,
) -> Result<(), NoMemory>
    ensures { OnOk result (routines.new ≡ routines.old ++ map routine_by (of_slot (slot_in (map (λ f. f.now) functions.now) slot))) }
{
    let Some(number) = slot else {
        return Ok(());
    };
    match functions.get(number as usize) {
        Some(function) => routines.push(routine(alloc, function)?),
        None => Ok(()),
    }
}

/// The functions in the order of their labels, each with its own closure as its first parameter.
///
/// # Errors
///
/// Want of memory.
pub fn routines_by_label(
    alloc: Global,
    decisions: &Decisions,
    functions: &[&Function],
) -> Result<Row<closure_ir::Function>, NoMemory>
    ensures { IfOk result (λ all. all ≡ routines_by_label decisions.now (map (λ f. f.now) functions.now)) }
{
    let slots = slots(alloc, decisions, functions)?;
    let mut routines = Row::new(alloc);
    for slot in &slots {
        push_slot(alloc, functions, *slot, &mut routines)?;
    }
    Ok(routines)
}
