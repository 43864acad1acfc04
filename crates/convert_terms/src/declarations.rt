//! Declarations in front of a body.

ghost use Rattle.std.specs.Prelude.{◌≡◌, false, IfOk, Some, slice_get};
ghost use Rattle.convert_decide.specs.Decide.{item_in};
ghost use Rattle.convert_steps.specs.Source.{IsKnown};
ghost use Rattle.convert_steps.specs.Writes.{Writes};
ghost use Rattle.convert_terms.specs.Terms.{declared_code};

use convert_groups::bind_group;
use convert_steps::exceptions::{new_exception, same_exception};
use convert_steps::scoped::bindings;
use convert_steps::source::Source;
use convert_steps::task::{Continuation, Step, Task, Work};
use convert_steps::world::World;
use cps_ir::{Bind, End};
use lambda_ir::Term;
use smlc_base::{NoMemory, Row};

// A declaration of one form.
fn form(
    source: Source,
    world: &mut World,
    binds: &mut Row<Bind>,
    declaration: u32,
    term: &Term,
    body: u32,
    scope: u32,
    continuation: Continuation,
    next: u32,
) -> Result<Step, NoMemory>
    requires known { IsKnown source.terms.now source.facts.now }
    requires stands { slice_get source.terms.now declaration ≡ Some term.now }
    ensures { IfOk result (λ s. Writes (item_in false source.entry.own.now) source.entry.terms.now world.old binds.old world.new binds.new (declared_code (item_in false source.entry.own.now) source.entry.terms.now declaration body (Some term.now) next) scope continuation s) }
{
    match term {
        Term::Binds(_) => {
            let task = bindings(
                source,
                world,
                binds,
                declaration,
                0,
                body,
                scope,
                continuation,
                next,
            )?;
            Ok(Step::Go(task))
        }
        Term::Group(group) => {
            let task = bind_group(
                source,
                world,
                binds,
                group.items(),
                declaration,
                body,
                scope,
                continuation,
                next,
            )?;
            Ok(Step::Go(task))
        }
        Term::NewExn(name) => {
            let task = new_exception(
                source.alloc,
                world,
                binds,
                *name,
                body,
                scope,
                continuation,
                next,
            )?;
            Ok(Step::Go(task))
        }
        Term::SameExn(name, constructor) => {
            let task = same_exception(world, *name, *constructor, body, scope, continuation, next)?;
            Ok(Step::Go(task))
        }
        Term::Nothing => Ok(Step::Go(Task {
            work: Work::Term(body),
            scope,
            continuation,
            next,
        })),
        _ => Ok(Step::Stop(End::Halt)),
    }
}

/// A declaration in front of a body. Nothing goes on behind what is no declaration.
///
/// # Errors
///
/// Want of memory.
pub fn declare(
    source: Source,
    world: &mut World,
    binds: &mut Row<Bind>,
    declaration: u32,
    body: u32,
    scope: u32,
    continuation: Continuation,
    next: u32,
) -> Result<Step, NoMemory>
    requires { IsKnown source.terms.now source.facts.now }
    ensures { IfOk result (λ s. Writes (item_in false source.entry.own.now) source.entry.terms.now world.old binds.old world.new binds.new (declared_code (item_in false source.entry.own.now) source.entry.terms.now declaration body (slice_get source.entry.terms.now declaration) next) scope continuation s) }
{
    match source.terms.get(declaration as usize) {
        Some(term) => form(
            source,
            world,
            binds,
            declaration,
            term,
            body,
            scope,
            continuation,
            next,
        ),
        None => Ok(Step::Stop(End::Halt)),
    }
}
