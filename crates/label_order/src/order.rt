//! Functions by label.

ghost use Rattle.std.specs.Prelude.{◌≡◌, None, Some, replicate, length, slice_set, IfOk, OnOk, ◌++◌, [], ◌∷◌};
ghost use Rattle.label_order.specs.Order.{AreApart, AreSlots, numbered, of_slot, by_label_in};

use cps_survey::Layout;
use smlc_base::NoMemory;
use std::alloc::Global;
use variable_users::{label, ranks};

fn empty_slots(alloc: Global, n: usize) -> Result<Vec<Option<u32>>, NoMemory>
    ensures { IfOk result (λ v. v.items ≡ replicate n None) }
{
    let mut slots = Vec::new(alloc);
    for _ in 0..n {
        slots.push(None)?;
    }
    Ok(slots)
}

fn set_slot(slots: &mut Vec<Option<u32>>, label: u32, i: u32)
    ensures { slots.new.items ≡ slice_set slots.old.items label (Some i) }
{
    if let Some(slot) = slots.get_mut(label as usize) {
        *slot = Some(i);
    }
}

// There is no memory for more functions than numbers.
fn number(place: usize) -> Result<u32, NoMemory>
    ensures { IfOk result (λ n. n ≡ place) }
{
    match u32::try_from(place) {
        Ok(number) => Ok(number),
        Err(_) => Err(NoMemory),
    }
}

// The numbers of functions by label.
fn slots(alloc: Global, all: &[Layout]) -> Result<Vec<Option<u32>>, NoMemory>
    requires { AreApart all.now }
    ensures { IfOk result (λ v. AreSlots all.now all.now (length all.now) v.items) }
{
    let ranks = ranks(alloc, all)?;
    let mut slots = empty_slots(alloc, all.len())?;
    for i in 0..all.len() {
        let label = label(&ranks, all[i].point())?;
        set_slot(&mut slots, label, number(i)?);
    }
    Ok(slots)
}

fn push_slot(order: &mut Vec<u32>, slot: Option<u32>) -> Result<(), NoMemory>
    ensures { OnOk result (order.new.items ≡ order.old.items ++ of_slot slot) }
{
    match slot {
        Some(i) => {
            order.push(i)?;
            Ok(())
        }
        None => Ok(()),
    }
}

/// The numbers of functions in the order of their labels, where no two have one point.
pub fn in_order(alloc: Global, all: &[Layout]) -> Result<Vec<u32>, NoMemory>
    requires { AreApart all.now }
    ensures { IfOk result (λ v. numbered all.now v.items ≡ by_label_in all.now all.now) }
{
    let slots = slots(alloc, all)?;
    let mut order = Vec::new(alloc);
    for slot in &slots {
        push_slot(&mut order, *slot)?;
    }
    Ok(order)
}
