//! The places that bodies begin with.

ghost use Rattle.std.specs.Prelude.{◌≡◌, ◌<◌, ◌≤◌, ℕ, length, map, OnOk, IfOk};
ghost use Rattle.std.specs.List.{AllByRecursion};
ghost use Rattle.simulation.specs.Blocks.{IsAmong};
ghost use Rattle.sml_tree.specs.Sets.{row_at};
ghost use Rattle.closure_ir.specs.Kept.{end_parts};
ghost use Rattle.place_laws.specs.Place.{Places, at_place};
ghost use Rattle.place_bodies.specs.Steps.{at_of};
ghost use Rattle.place_bodies.specs.Whole.{HasPlaces};

use crate::homes::at;
use closed_live::row;
use closure_ir::{End, Rule, Variable};
use smlc_base::{NoMemory, Row};
use std::alloc::Global;

// Puts a place into the table, which grows where it is too short.
fn put(table: &mut Vec<u32>, variable: Variable, place: u32) -> Result<(), NoMemory>
    ensures long { OnOk result (length table.old.items ≤ length table.new.items) }
    ensures places { OnOk result ((y : ℕ) → at_of table.new.items y ≡ at_place (at_of table.old.items) variable place y) }
{
    while table.len() <= variable as usize {
        table.push(0)?;
    }
    table[variable as usize] = place;
    Ok(())
}

fn place_at(places: &[u32], i: usize) -> u32
    ensures { result ≡ at_of places.now i }
{
    match places.get(i) {
        Some(place) => *place,
        None => 0,
    }
}

/// Puts the places that a body begins with into the table.
pub(crate) fn load(
    table: &mut Vec<u32>,
    variables: &[Variable],
    places: &[u32],
) -> Result<(), NoMemory>
    ensures long { OnOk result (length table.old.items ≤ length table.new.items) }
    ensures places { OnOk result ((there : Places) → places.now ≡ map there variables.now → (x : ℕ) → IsAmong x variables.now → at_of table.new.items x ≡ there x) }
{
    for i in 0..variables.len() {
        put(table, variables[i], place_at(places, i))?;
    }
    Ok(())
}

/// The places of these variables.
pub(crate) fn places_of(
    alloc: Global,
    table: &[u32],
    variables: &[Variable],
) -> Result<Vec<u32>, NoMemory>
    ensures { IfOk result (λ v. v.items ≡ map (at_of table.now) variables.now) }
{
    let mut places = Vec::new(alloc);
    for variable in variables {
        places.push(at(table, *variable))?;
    }
    Ok(places)
}

// The body of this number begins with the places of the table.
fn begin_part(
    alloc: Global,
    n: u32,
    table: &[u32],
    lives: &[Row<u32>],
    entries: &mut Vec<Row<u32>>,
) -> Result<(), NoMemory>
    requires { n < length entries.old.items }
    ensures len { OnOk result (length entries.new.items ≡ length entries.old.items) }
    ensures here { OnOk result (HasPlaces lives.now entries.new.items n (at_of table.now)) }
    ensures others { OnOk result ((c : ℕ) → (c ≡ n → ⊥) → row_at entries.new.items c ≡ row_at entries.old.items c) }
{
    let places = places_of(alloc, table, row(lives, n))?;
    entries[n as usize] = Row::from_vec(places);
    Ok(())
}

fn begin_rules(
    alloc: Global,
    rules: &[Rule],
    table: &[u32],
    lives: &[Row<u32>],
    entries: &mut Vec<Row<u32>>,
) -> Result<(), NoMemory>
    requires { AllByRecursion (λ n. n < length entries.old.items) (map (λ r. r.body) rules.now) }
    ensures len { OnOk result (length entries.new.items ≡ length entries.old.items) }
    ensures parts { OnOk result (AllByRecursion (λ n. HasPlaces lives.now entries.new.items n (at_of table.now)) (map (λ r. r.body) rules.now)) }
    ensures others { OnOk result ((c : ℕ) → (IsAmong c (map (λ r. r.body) rules.now) → ⊥) → row_at entries.new.items c ≡ row_at entries.old.items c) }
{
    for rule in rules {
        begin_part(alloc, rule.body, table, lives, entries)?;
    }
    Ok(())
}

/// The bodies that the end of a body names begin with the places of the table.
pub(crate) fn begin_parts(
    alloc: Global,
    end: &End,
    table: &[u32],
    lives: &[Row<u32>],
    entries: &mut Vec<Row<u32>>,
) -> Result<(), NoMemory>
    requires { AllByRecursion (λ n. n < length entries.old.items) (end_parts end.now) }
    ensures len { OnOk result (length entries.new.items ≡ length entries.old.items) }
    ensures parts { OnOk result (AllByRecursion (λ n. HasPlaces lives.now entries.new.items n (at_of table.now)) (end_parts end.now)) }
    ensures others { OnOk result ((c : ℕ) → (IsAmong c (end_parts end.now) → ⊥) → row_at entries.new.items c ≡ row_at entries.old.items c) }
{
    match end {
        End::Match {
            rules,
            otherwise,
            ..
        } => {
            begin_rules(alloc, rules.items(), table, lives, entries)?;
            begin_part(alloc, *otherwise, table, lives, entries)
        }
        _ => Ok(()),
    }
}
