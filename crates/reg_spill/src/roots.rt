//! The places with which the bodies of functions begin.

ghost use Rattle.std.specs.Prelude.{◌≡◌, ◌<◌, ◌==◌, ◌∷◌, length, map, cond, IfOk, OnOk};
ghost use Rattle.std.specs.List.{AllByRecursion};
ghost use Rattle.sml_tree.specs.IsBare.{IsDistinct};
ghost use Rattle.place_laws.specs.Place.{at_params, nowhere};
ghost use Rattle.place_bodies.specs.Whole.{HasPlaces};

use crate::entries::places_of;
use crate::words::sum;
use closed_live::row;
use closure_ir::{Function, Variable};
use smlc_base::{NoMemory, Row};
use std::alloc::Global;

// The later of two parameters of one name counts.
fn param_or(param: Variable, variable: Variable, place: u32, found: u32) -> u32
    ensures { result ≡ cond (variable == param) place found }
{
    if variable == param { place } else { found }
}

// Parameters come in the first places, and any other variable is taken to be in the first.
fn param_place(params: &[Variable], variable: Variable) -> Result<u32, NoMemory>
    ensures { IfOk result (λ p. p ≡ at_params params.now 0 nowhere variable) }
{
    let mut place = 0;
    let mut found = 0;
    for param in params {
        found = param_or(*param, variable, place, found);
        place = sum(place, 1)?;
    }
    Ok(found)
}

fn param_places(
    alloc: Global,
    params: &[Variable],
    variables: &[Variable],
) -> Result<Vec<u32>, NoMemory>
    ensures { IfOk result (λ v. v.items ≡ map (at_params params.now 0 nowhere) variables.now) }
{
    let mut places = Vec::new(alloc);
    for variable in variables {
        places.push(param_place(params, *variable)?)?;
    }
    Ok(places)
}

// All variables in the first place.
fn begin_none(alloc: Global, lives: &[Row<u32>]) -> Result<Vec<Row<u32>>, NoMemory>
    ensures { IfOk result (λ v. v.items ≡ map (map nowhere) lives.now) }
{
    let mut entries = Vec::new(alloc);
    for live in lives {
        let places = param_places(alloc, &[], live.items())?;
        entries.push(Row::from_vec(places))?;
    }
    Ok(entries)
}

/// What is run first begins with no places, and the body of a function with those of its parameters.
pub fn begin(
    alloc: Global,
    functions: &[Function],
    lives: &[Row<u32>],
) -> Result<Vec<Row<u32>>, NoMemory>
    requires apart { IsDistinct (0 ∷ map (λ f. f.body) functions.now) }
    requires stand { AllByRecursion (λ f. f.body < length lives.now) functions.now }
    ensures len { IfOk result (λ v. length v.items ≡ length lives.now) }
    ensures main { IfOk result (λ v. HasPlaces lives.now v.items 0 nowhere) }
    ensures functions { IfOk result (λ v. AllByRecursion (λ f. HasPlaces lives.now v.items f.body (at_params f.params 0 nowhere)) functions.now) }
{
    let mut entries = begin_none(alloc, lives)?;
    for function in functions {
        let places = param_places(alloc, function.params.items(), row(lives, function.body))?;
        entries[function.body as usize] = Row::from_vec(places);
    }
    Ok(entries)
}
