//! Terms.

ghost use Rattle.std.specs.Prelude.{◌≡◌, false, IfOk, Some, slice_get};
ghost use Rattle.convert_decide.specs.Decide.{item_in};
ghost use Rattle.convert_steps.specs.Codes.{conv};
ghost use Rattle.convert_steps.specs.Source.{IsKnown};
ghost use Rattle.convert_steps.specs.Writes.{Writes};
ghost use Rattle.convert_steps.specs.declared.task.Step.TheVariants.{Go};
ghost use Rattle.convert_terms.specs.Terms.{term_code, tuple_code};

use crate::applications::apply;
use crate::declarations::declare;
use crate::leaves::give_leaf;
use convert_steps::functions::closure;
use convert_steps::handles::handle;
use convert_steps::parts::{part, parts};
use convert_steps::source::{Source, parts_at};
use convert_steps::task::{Awaits, Continuation, Frame, Step, Task, Work};
use convert_steps::world::World;
use cps_ir::{Atom, Bind, Constant, End};
use lambda_ir::Term;
use smlc_base::{NoMemory, Row};

// A tuple, whose parts are evaluated one after another.
fn tuple(
    source: Source,
    world: &mut World,
    binds: &mut Row<Bind>,
    term: u32,
    scope: u32,
    continuation: Continuation,
    next: u32,
) -> Result<Task, NoMemory>
    requires { IsKnown source.terms.now source.facts.now }
    ensures { IfOk result (λ t. Writes (item_in false source.entry.own.now) source.entry.terms.now world.old binds.old world.new binds.new (tuple_code (item_in false source.entry.own.now) source.entry.terms.now term next) scope continuation (Go t)) }
{
    if parts_at(source.terms, term).is_empty() {
        return Ok(Task {
            work: Work::Give(Atom::Constant(Constant::Nothing)),
            scope,
            continuation,
            next,
        });
    }
    parts(
        source,
        world,
        binds,
        term,
        Row::new(source.alloc),
        scope,
        continuation,
        next,
    )
}

// A term of one form.
fn form(
    source: Source,
    world: &mut World,
    binds: &mut Row<Bind>,
    at: u32,
    term: &Term,
    scope: u32,
    continuation: Continuation,
    next: u32,
) -> Result<Step, NoMemory>
    requires known { IsKnown source.terms.now source.facts.now }
    requires stands { slice_get source.terms.now at ≡ Some term.now }
    ensures { IfOk result (λ s. Writes (item_in false source.entry.own.now) source.entry.terms.now world.old binds.old world.new binds.new (term_code (item_in false source.entry.own.now) source.entry.terms.now at term.now next) scope continuation s) }
{
    match term {
        Term::Tuple(_) => {
            let task = tuple(source, world, binds, at, scope, continuation, next)?;
            Ok(Step::Go(task))
        }
        Term::App(function, argument) => {
            let task = apply(
                source,
                world,
                binds,
                *function,
                *argument,
                scope,
                continuation,
                next,
            )?;
            Ok(Step::Go(task))
        }
        Term::Match(subject, _) => {
            let awaits = Awaits::Subject { term: at };
            let frame = Frame {
                awaits,
                scope,
                continuation,
            };
            let task = part(source, world, binds, *subject, frame, next)?;
            Ok(Step::Go(task))
        }
        Term::Fn(_) => {
            let task = closure(source, world, binds, at, scope, continuation, next)?;
            Ok(Step::Go(task))
        }
        Term::Raise(packet) => {
            let awaits = Awaits::Packet;
            let frame = Frame {
                awaits,
                scope,
                continuation,
            };
            let task = part(source, world, binds, *packet, frame, next)?;
            Ok(Step::Go(task))
        }
        Term::Handle(inner, _) => {
            let task = handle(source, world, binds, at, *inner, scope, continuation, next)?;
            Ok(Step::Go(task))
        }
        Term::Same(inner) => Ok(Step::Go(Task {
            work: Work::Term(*inner),
            scope,
            continuation,
            next,
        })),
        Term::Let(declaration, body) => declare(
            source,
            world,
            binds,
            *declaration,
            *body,
            scope,
            continuation,
            next,
        ),
        _ => give_leaf(world, term, scope, continuation, next),
    }
}

/// A term. Nothing goes on where there is none of the number.
///
/// # Errors
///
/// Want of memory.
pub fn term(
    source: Source,
    world: &mut World,
    binds: &mut Row<Bind>,
    at: u32,
    scope: u32,
    continuation: Continuation,
    next: u32,
) -> Result<Step, NoMemory>
    requires { IsKnown source.terms.now source.facts.now }
    ensures { IfOk result (λ s. Writes (item_in false source.entry.own.now) source.entry.terms.now world.old binds.old world.new binds.new (λ σ κ. conv (item_in false source.entry.own.now) source.entry.terms.now at σ κ next) scope continuation s) }
{
    match source.terms.get(at as usize) {
        Some(term) => form(source, world, binds, at, term, scope, continuation, next),
        None => Ok(Step::Stop(End::Halt)),
    }
}
