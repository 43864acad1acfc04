//! Places of variables, and the least that is free.

ghost use Rattle.std.specs.Prelude.{◌≡◌, ◌<◌, ◌∷◌, [], length, map, cond, Some, None, IfOk, OnOk};
ghost use Rattle.place_laws.specs.Live.{is_in, without, without_all};
ghost use Rattle.place_laws.specs.Place.{home_of, least_free, place_beside};
ghost use Rattle.closed_live.specs.Same.{AreSame};
ghost use Rattle.place_bodies.specs.Steps.{at_of, one_table};

use closed_live::insert;
use closure_ir::Variable;
use placed_ir::Home;
use smlc_base::NoMemory;
use std::alloc::Global;
use std::collections::BTreeSet;

/// The place of a variable.
pub(crate) fn at(table: &[u32], variable: Variable) -> u32
    ensures { result ≡ at_of table.now variable }
{
    match table.get(variable as usize) {
        Some(place) => *place,
        None => 0,
    }
}

/// What stands at a place.
pub(crate) fn home(place: u32) -> Home
    ensures { result ≡ home_of place }
{
    if place < 20 {
        Home::Register(place)
    } else {
        Home::Spill(place - 20)
    }
}

// Puts the place of a variable in, unless it is one of these.
fn take_unless(
    taken: &mut BTreeSet<u32>,
    table: &[u32],
    variable: Variable,
    gone: &[Variable],
) -> Result<(), NoMemory>
    ensures { OnOk result (AreSame taken.new.keys (cond (is_in variable gone.now) taken.old.keys (at_of table.now variable ∷ taken.old.keys))) }
{
    if gone.contains(&variable) {
        Ok(())
    } else {
        insert(taken, at(table, variable))
    }
}

/// The places of the variables that live on beside those that are bound.
pub(crate) fn taken_beside(
    alloc: Global,
    table: &[u32],
    alive: &[Variable],
    gone: &[Variable],
) -> Result<BTreeSet<u32>, NoMemory>
    ensures { IfOk result (λ taken. AreSame taken.keys (map (at_of table.now) (without_all gone.now alive.now))) }
{
    let mut taken = BTreeSet::new(alloc);
    for variable in alive {
        take_unless(&mut taken, table, *variable, gone)?;
    }
    Ok(taken)
}

/// The least place that isn't taken.
pub(crate) fn least_place(taken: &BTreeSet<u32>) -> Result<u32, NoMemory>
    ensures { IfOk result (λ place. place ≡ least_free taken.now.keys) }
{
    let mut place = 0;
    while taken.contains(&place) {
        if place == 4_294_967_295 {
            return Err(NoMemory);
        }
        place += 1;
    }
    Ok(place)
}

// The home at a place, where the variable lives on.
fn home_if(place: u32, variable: Variable, alive: &[Variable]) -> Option<Home>
    ensures { result ≡ cond (is_in variable alive.now) (Some (home_of place)) None }
{
    if alive.contains(&variable) {
        Some(home(place))
    } else {
        None
    }
}

/// Gives a variable that is bound its place, and answers its home if it lives on.
pub(crate) fn place_one(
    alloc: Global,
    table: &mut Vec<u32>,
    variable: Variable,
    alive: &[Variable],
) -> Result<Option<Home>, NoMemory>
    requires { variable < length table.old.items }
    ensures table { OnOk result (table.new.items ≡ one_table table.old.items variable alive.now) }
    ensures home { IfOk result (λ home. home ≡ cond (is_in variable alive.now) (Some (home_of (place_beside (at_of table.old.items) (without variable alive.now)))) None) }
{
    let taken = taken_beside(alloc, table.as_slice(), alive, &[variable])?;
    let place = least_place(&taken)?;
    table[variable as usize] = place;
    Ok(home_if(place, variable, alive))
}
