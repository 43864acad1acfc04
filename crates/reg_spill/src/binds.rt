//! Steps of bindings.

ghost use Rattle.std.specs.Prelude.{◌≡◌, ◌<◌, ◌+◌, suc, [], ◌∷◌, ◌++◌, length, map, cond, slice_set, OnOk, IfOk};
ghost use Rattle.std.specs.List.{AllByRecursion};
ghost use Rattle.closure_ir.specs.declared.body.Bind.TheVariants as bind;
ghost use Rattle.placed_ir.specs.declared.body.Step.TheVariants as step;
ghost use Rattle.place_laws.specs.Live.{is_in, names_of};
ghost use Rattle.place_laws.specs.Place.{least_free, home_of, maker_length};
ghost use Rattle.closed_live.specs.Same.{AreSame};
ghost use Rattle.place_bodies.specs.Steps.{at_of, name_steps, group_table, bind_steps, bind_table};
ghost use Rattle.place_bodies.proofs.Binds.{Fits};
ghost use Rattle.reg_spill.specs.Homed.{homed};

use crate::homes::{home, least_place, place_one, taken_beside};
use crate::sources::{buildings, source, sources};
use crate::words::{sum, words};
use closed_live::insert;
use closure_ir::{Bind, Maker, Operand, Variable};
use placed_ir::{Home, Source, Step};
use smlc_base::{NoMemory, Primitive};
use std::alloc::Global;
use std::collections::BTreeSet;

fn let_step(steps: &mut Vec<Step>, home: Option<Home>, value: Source) -> Result<(), NoMemory>
    ensures { OnOk result (steps.new.items ≡ steps.old.items ++ homed (λ h. step.Let h value) home) }
{
    match home {
        Some(home) => Ok(steps.push(Step::Let { home, value })?),
        None => Ok(()),
    }
}

fn take_step(steps: &mut Vec<Step>, home: Option<Home>) -> Result<(), NoMemory>
    ensures { OnOk result (steps.new.items ≡ steps.old.items ++ homed step.Take home) }
{
    match home {
        Some(home) => Ok(steps.push(Step::Take(home))?),
        None => Ok(()),
    }
}

fn handler_step(steps: &mut Vec<Step>, home: Option<Home>) -> Result<(), NoMemory>
    ensures { OnOk result (steps.new.items ≡ steps.old.items ++ homed step.Handler home) }
{
    match home {
        Some(home) => Ok(steps.push(Step::Handler(home))?),
        None => Ok(()),
    }
}

fn place_let(
    alloc: Global,
    variable: Variable,
    value: &Operand,
    alive: &[Variable],
    table: &mut Vec<u32>,
    steps: &mut Vec<Step>,
) -> Result<(), NoMemory>
    requires { variable < length table.old.items }
    ensures table { OnOk result (table.new.items ≡ bind_table table.old.items (bind.Let variable value.now) alive.now) }
    ensures steps { OnOk result (steps.new.items ≡ steps.old.items ++ bind_steps (at_of table.old.items) (bind.Let variable value.now) alive.now) }
{
    let value = source(alloc, table.as_slice(), &[], value)?;
    let home = place_one(alloc, table, variable, alive)?;
    let_step(steps, home, value)
}

fn place_prim(
    alloc: Global,
    variable: Variable,
    primitive: Primitive,
    operands: &[Operand],
    alive: &[Variable],
    table: &mut Vec<u32>,
    steps: &mut Vec<Step>,
) -> Result<(), NoMemory>
    requires { variable < length table.old.items }
    ensures table { OnOk result (table.new.items ≡ bind_table table.old.items (bind.Prim variable primitive operands.now) alive.now) }
    ensures steps { OnOk result (steps.new.items ≡ steps.old.items ++ bind_steps (at_of table.old.items) (bind.Prim variable primitive operands.now) alive.now) }
{
    let sources = sources(alloc, table.as_slice(), &[], operands)?;
    steps.push(Step::Prim { primitive, sources })?;
    let home = place_one(alloc, table, variable, alive)?;
    take_step(steps, home)
}

fn place_handler(
    alloc: Global,
    variable: Variable,
    alive: &[Variable],
    table: &mut Vec<u32>,
    steps: &mut Vec<Step>,
) -> Result<(), NoMemory>
    requires { variable < length table.old.items }
    ensures table { OnOk result (table.new.items ≡ bind_table table.old.items (bind.Handler variable) alive.now) }
    ensures steps { OnOk result (steps.new.items ≡ steps.old.items ++ bind_steps (at_of table.old.items) (bind.Handler variable) alive.now) }
{
    let home = place_one(alloc, table, variable, alive)?;
    handler_step(steps, home)
}

// Names a block of the group, if its variable lives on.
fn name_one(
    maker: &Maker,
    offset: u32,
    alive: &[Variable],
    taken: &mut BTreeSet<u32>,
    table: &mut Vec<u32>,
    steps: &mut Vec<Step>,
) -> Result<(), NoMemory>
    requires { maker.now.var < length table.old.items }
    ensures taken { OnOk result (AreSame taken.new.keys (cond (is_in maker.now.var alive.now) (least_free taken.old.keys ∷ taken.old.keys) taken.old.keys)) }
    ensures table { OnOk result (table.new.items ≡ cond (is_in maker.now.var alive.now) (slice_set table.old.items maker.now.var (least_free taken.old.keys)) table.old.items) }
    ensures steps { OnOk result (steps.new.items ≡ steps.old.items ++ cond (is_in maker.now.var alive.now) (step.Name (home_of (least_free taken.old.keys)) offset ∷ []) []) }
{
    if alive.contains(&maker.var) {
        let place = least_place(taken)?;
        insert(taken, place)?;
        table[maker.var as usize] = place;
        steps.push(Step::Name {
            home: home(place),
            offset,
        })?;
    }
    Ok(())
}

// Names the blocks of a group that live on, one after another.
fn name_all(
    makers: &[Maker],
    alive: &[Variable],
    taken: &mut BTreeSet<u32>,
    table: &mut Vec<u32>,
    steps: &mut Vec<Step>,
) -> Result<(), NoMemory>
    requires { AllByRecursion (λ m. m.var < length table.old.items) makers.now }
    ensures table { OnOk result (table.new.items ≡ group_table alive.now makers.now taken.old.keys table.old.items) }
    ensures steps { OnOk result (steps.new.items ≡ steps.old.items ++ name_steps alive.now makers.now 0 taken.old.keys) }
{
    let mut offset = 0;
    for maker in makers {
        name_one(maker, offset, alive, taken, table, steps)?;
        offset = sum(offset, words(maker)?)?;
    }
    Ok(())
}

fn names(alloc: Global, makers: &[Maker]) -> Result<Vec<Variable>, NoMemory>
    ensures { IfOk result (λ all. all.items ≡ names_of makers.now) }
{
    let mut all = Vec::new(alloc);
    for maker in makers {
        all.push(maker.var)?;
    }
    Ok(all)
}

fn place_group(
    alloc: Global,
    makers: &[Maker],
    alive: &[Variable],
    table: &mut Vec<u32>,
    steps: &mut Vec<Step>,
) -> Result<(), NoMemory>
    requires { AllByRecursion (λ m. m.var < length table.old.items) makers.now }
    ensures table { OnOk result (table.new.items ≡ bind_table table.old.items (bind.Make makers.now) alive.now) }
    ensures steps { OnOk result (steps.new.items ≡ steps.old.items ++ bind_steps (at_of table.old.items) (bind.Make makers.now) alive.now) }
{
    let buildings = buildings(alloc, table.as_slice(), makers)?;
    steps.push(Step::Make(buildings))?;
    let names = names(alloc, makers)?;
    let mut taken = taken_beside(alloc, table.as_slice(), alive, names.as_slice())?;
    name_all(makers, alive, &mut taken, table, steps)
}

fn place_set_handler(
    alloc: Global,
    value: &Operand,
    alive: &[Variable],
    table: &[u32],
    steps: &mut Vec<Step>,
) -> Result<(), NoMemory>
    ensures { OnOk result (steps.new.items ≡ steps.old.items ++ bind_steps (at_of table.now) (bind.SetHandler value.now) alive.now) }
{
    let value = source(alloc, table, &[], value)?;
    steps.push(Step::SetHandler(value))?;
    Ok(())
}

/// The steps of a binding, where these variables live behind it.
pub(crate) fn place_bind(
    alloc: Global,
    bind: &Bind,
    alive: &[Variable],
    table: &mut Vec<u32>,
    steps: &mut Vec<Step>,
) -> Result<(), NoMemory>
    requires { Fits (length table.old.items) bind.now }
    ensures table { OnOk result (table.new.items ≡ bind_table table.old.items bind.now alive.now) }
    ensures steps { OnOk result (steps.new.items ≡ steps.old.items ++ bind_steps (at_of table.old.items) bind.now alive.now) }
{
    match bind {
        Bind::Make(makers) => place_group(alloc, makers.items(), alive, table, steps),
        Bind::Let { var, value } => place_let(alloc, *var, value, alive, table, steps),
        Bind::Prim {
            var,
            primitive,
            operands,
        } => place_prim(
            alloc,
            *var,
            *primitive,
            operands.items(),
            alive,
            table,
            steps,
        ),
        Bind::Handler(var) => place_handler(alloc, *var, alive, table, steps),
        Bind::SetHandler(value) => place_set_handler(alloc, value, alive, table.as_slice(), steps),
    }
}
