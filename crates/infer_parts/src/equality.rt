//! Which datatypes of a declaration admit equality.

ghost use Rattle.std.specs.Prelude.{◌≡◌, ◌<◌, ℕ, Bool, length, IfOk};
ghost use Rattle.std.specs.List.{AllByRecursion};
ghost use Rattle.sml_types.specs.Equality.{choose, IsGreatest};
ghost use Rattle.infer_parts.specs.Rounds.{eq_set, argument_held, held_all, name_fails, fails, struck_one, struck_all, any_struck, all_chosen, AreArgumentsThere};

use crate::held::{admitting, held_at};
use sml_types::{ConRow, Equality, Tables, TypeName, Types};
use smlc_base::{NoMemory, Row};
use std::alloc::Global;

fn set_equality(names: &mut [TypeName], number: u32, eq: Equality)
    ensures { names.new ≡ eq_set names.old number eq }
{
    if (number as usize) < names.len() {
        names[number as usize].eq = eq;
    }
}

fn argument_held(table: &[bool], con: &ConRow) -> bool
    ensures { result ≡ argument_held table.now con.now }
{
    match con.arg {
        Some(ty) => held_at(0, table, ty),
        None => true,
    }
}

fn held_all(table: &[bool], cons: &[ConRow]) -> bool
    ensures { result ≡ held_all table.now cons.now }
{
    cons.iter().all(|con| argument_held(table, con))
}

// Whether a datatype is taken to admit equality, and has an argument that does not.
fn name_fails(table: &[bool], name: &TypeName) -> bool
    ensures { result ≡ name_fails table.now name.now }
{
    match name.eq {
        Equality::Parts => !held_all(table, name.cons.items()),
        Equality::Never | Equality::Always => false,
    }
}

fn fails(names: &[TypeName], table: &[bool], number: u32) -> bool
    ensures { result ≡ fails names.now table.now number }
{
    match names.get(number as usize) {
        Some(name) => name_fails(table, name),
        None => false,
    }
}

fn strike_one(names: &mut [TypeName], table: &[bool], number: u32) -> bool
    ensures struck { names.new ≡ struck_one table.now number names.old }
    ensures is { result ≡ fails names.old table.now number }
{
    if fails(names, table, number) {
        set_equality(names, number, Equality::Never);
        true
    } else {
        false
    }
}

// Strikes out the datatypes with an argument that admits no equality; whether there was one.
fn strike(names: &mut [TypeName], table: &[bool], group: &[u32]) -> bool
    ensures struck { names.new ≡ struck_all table.now group.now names.old }
    ensures is { result ≡ any_struck table.now group.now names.old }
{
    let mut struck = false;
    'each: for number in group {
        if strike_one(names, table, *number) {
            struck = true;
        }
    }
    struck
}

fn choose_all(names: &mut [TypeName], group: &[u32])
    ensures { names.new ≡ all_chosen group.now names.old }
{
    'each: for number in group {
        set_equality(names, *number, Equality::Parts);
    }
}

/// The tables, in which the datatypes of one declaration admit equality by the greatest choice that is allowed: all that can.
pub fn equality(
    alloc: Global,
    types: &Types,
    tables: Tables,
    group: &[u32],
) -> Result<Tables, NoMemory>
    requires group { AllByRecursion (λ n. n < length tables.names) group.now }
    requires arguments { AreArgumentsThere types.now tables.names }
    ensures greatest { IfOk result (λ after. IsGreatest types.now after.names group.now) }
    ensures others { IfOk result (λ after. (choice : ℕ → Bool) × (after.names ≡ choose group.now choice 0 tables.names)) }
{
    let mut names = tables.names.into_vec();
    choose_all(&mut names, group);
    let mut going = true;
    'rounds: while going {
        let table = admitting(alloc, types, &names, 0)?;
        going = strike(&mut names, &table, group);
    }
    Ok(Tables {
        names: Row::from_vec(names),
    })
}
