//! What frames do with the values that they await.

ghost use Rattle.std.specs.Prelude.{◌≡◌, ℕ, Bool, false, List, IfOk};
ghost use Rattle.lambda_ir.specs.declared.term.Term.{Term};
ghost use Rattle.cps_ir.specs.declared.body.Bind.{Bind};
ghost use Rattle.convert_laws.specs.Convert.{apply};
ghost use Rattle.convert_decide.specs.Decide.{item_in};
ghost use Rattle.convert_steps.specs.Codes.{awaits_code};
ghost use Rattle.convert_steps.specs.Source.{IsKnown};
ghost use Rattle.convert_steps.specs.Writes.{Writes};
ghost use Rattle.convert_steps.specs.declared.task.Awaits.TheVariants as awaits;
ghost use Rattle.convert_steps.specs.declared.task.Continuation.TheVariants.{Known, Text};
ghost use Rattle.convert_steps.specs.declared.world.World.{World};

use crate::ends::{atom_by, builtin, construct};
use crate::matches::{match_on, right};
use crate::parts::{part, parts};
use crate::source::Source;
use crate::task::{Awaits, Continuation, Frame, Step};
use crate::world::{World, frame_at};
use cps_ir::{Atom, Bind, Constant, End};
use sml_tree::bare::Con;
use smlc_base::{LibraryExn, NoMemory, Row};
use std::alloc::Global;

// One part more of a tuple is there.
fn next_part(
    source: Source,
    world: &mut World,
    binds: &mut Row<Bind>,
    tuple: u32,
    before: Row<Atom>,
    value: Atom,
    scope: u32,
    continuation: Continuation,
    next: u32,
) -> Result<Step, NoMemory>
    requires { IsKnown source.terms.now source.facts.now }
    ensures { IfOk result (λ s. Writes (item_in false source.entry.own.now) source.entry.terms.now world.old binds.old world.new binds.new (λ σ κ. awaits_code (item_in false source.entry.own.now) source.entry.terms.now (awaits.Part tuple before) σ κ value next) scope continuation s) }
{
    let mut there = before;
    there.push(value)?;
    let task = parts(
        source,
        world,
        binds,
        tuple,
        there,
        scope,
        continuation,
        next,
    )?;
    Ok(Step::Go(task))
}

// The function is there, and the argument is next.
fn next_argument(
    source: Source,
    world: &mut World,
    binds: &mut Row<Bind>,
    argument: u32,
    function: Atom,
    scope: u32,
    continuation: Continuation,
    next: u32,
) -> Result<Step, NoMemory>
    requires { IsKnown source.terms.now source.facts.now }
    ensures { IfOk result (λ s. Writes (item_in false source.entry.own.now) source.entry.terms.now world.old binds.old world.new binds.new (λ σ κ. awaits_code (item_in false source.entry.own.now) source.entry.terms.now (awaits.Function argument) σ κ function next) scope continuation s) }
{
    let frame = Frame {
        awaits: Awaits::Argument { function },
        scope,
        continuation,
    };
    let task = part(source, world, binds, argument, frame, next)?;
    Ok(Step::Go(task))
}

// A function is called, with its continuation.
fn call(
    alloc: Global,
    function: Atom,
    argument: Atom,
    scope: u32,
    continuation: Continuation,
    next: u32,
) -> Result<Step, NoMemory>
    ensures { IfOk result (λ s. (own : ℕ → Bool) (terms : List Term) (w : World) (bs : List Bind) → Writes own terms w bs w bs (λ σ κ. awaits_code own terms (awaits.Argument function) σ κ argument next) scope continuation s) }
{
    let mut atoms = Row::new(alloc);
    atoms.push(argument)?;
    atoms.push(atom_by(continuation))?;
    Ok(Step::Stop(End::Call { function, atoms }))
}

// A constructor of a value, in a scope.
fn constructed(
    alloc: Global,
    world: &mut World,
    binds: &mut Row<Bind>,
    made: Con,
    value: Atom,
    scope: u32,
    continuation: Continuation,
    next: u32,
) -> Result<Step, NoMemory>
    ensures { IfOk result (λ s. (own : ℕ → Bool) (terms : List Term) → Writes own terms world.old binds.old world.new binds.new (λ σ κ. awaits_code own terms (awaits.Constructor made) σ κ value next) scope continuation s) }
{
    world.scopes.go(scope)?;
    let task = construct(alloc, &world.scopes, binds, made, value, continuation, next)?;
    Ok(Step::Go(task))
}

/// A value comes to a frame.
///
/// # Errors
///
/// Want of memory.
pub fn resume(
    source: Source,
    world: &mut World,
    binds: &mut Row<Bind>,
    frame: Frame,
    value: Atom,
    next: u32,
) -> Result<Step, NoMemory>
    requires { IsKnown source.terms.now source.facts.now }
    ensures { IfOk result (λ s. Writes (item_in false source.entry.own.now) source.entry.terms.now world.old binds.old world.new binds.new (λ σ κ. awaits_code (item_in false source.entry.own.now) source.entry.terms.now frame.awaits σ κ value next) frame.scope frame.continuation s) }
{
    let Frame {
        awaits,
        scope,
        continuation,
    } = frame;
    match awaits {
        Awaits::End => Ok(Step::Stop(End::Halt)),
        Awaits::Part { tuple, before } => next_part(
            source,
            world,
            binds,
            tuple,
            before,
            value,
            scope,
            continuation,
            next,
        ),
        Awaits::Function { argument } => next_argument(
            source,
            world,
            binds,
            argument,
            value,
            scope,
            continuation,
            next,
        ),
        Awaits::Argument { function } => {
            call(source.alloc, function, value, scope, continuation, next)
        }
        Awaits::Builtin(operation) => builtin(
            source.alloc,
            binds,
            operation,
            value,
            scope,
            continuation,
            next,
        ),
        Awaits::Constructor(made) => constructed(
            source.alloc,
            world,
            binds,
            made,
            value,
            scope,
            continuation,
            next,
        ),
        Awaits::Subject { term } => match_on(
            source,
            world,
            term,
            value,
            Atom::Constant(Constant::Library(LibraryExn::MatchExn)),
            scope,
            continuation,
            next,
        ),
        Awaits::Packet => Ok(Step::Stop(End::Throw(value))),
        Awaits::Right {
            declaration,
            at,
            body,
        } => right(
            source,
            world,
            declaration,
            at,
            body,
            value,
            scope,
            continuation,
            next,
        ),
    }
}

// The text of a frame goes on with a value.
fn resume_at(
    source: Source,
    world: &mut World,
    binds: &mut Row<Bind>,
    at: u32,
    value: Atom,
    scope: u32,
    next: u32,
) -> Result<Step, NoMemory>
    requires { IsKnown source.terms.now source.facts.now }
    ensures { IfOk result (λ s. Writes (item_in false source.entry.own.now) source.entry.terms.now world.old binds.old world.new binds.new (λ σ κ. apply κ value next) scope (Text at) s) }
{
    let frame = frame_at(source.alloc, world.frames.items(), at)?;
    resume(source, world, binds, frame, value, next)
}

// A function is called with a value.
fn call_known(
    alloc: Global,
    function: Atom,
    value: Atom,
    scope: u32,
    next: u32,
) -> Result<Step, NoMemory>
    ensures { IfOk result (λ s. (own : ℕ → Bool) (terms : List Term) (w : World) (bs : List Bind) → Writes own terms w bs w bs (λ σ κ. apply κ value next) scope (Known function) s) }
{
    let mut atoms = Row::new(alloc);
    atoms.push(value)?;
    Ok(Step::Stop(End::Call { function, atoms }))
}

/// The continuation gets a value.
///
/// # Errors
///
/// Want of memory.
pub fn give(
    source: Source,
    world: &mut World,
    binds: &mut Row<Bind>,
    value: Atom,
    scope: u32,
    continuation: Continuation,
    next: u32,
) -> Result<Step, NoMemory>
    requires { IsKnown source.terms.now source.facts.now }
    ensures { IfOk result (λ s. Writes (item_in false source.entry.own.now) source.entry.terms.now world.old binds.old world.new binds.new (λ σ κ. apply κ value next) scope continuation s) }
{
    match continuation {
        Continuation::Known(function) => call_known(source.alloc, function, value, scope, next),
        Continuation::Text(at) => resume_at(source, world, binds, at, value, scope, next),
    }
}
