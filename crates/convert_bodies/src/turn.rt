//! One step of what is left to be written.

ghost use Rattle.std.specs.Prelude.{◌≡◌, false, IfOk};
ghost use Rattle.convert_decide.specs.Decide.{item_in};
ghost use Rattle.convert_steps.specs.Codes.{work_code};
ghost use Rattle.convert_steps.specs.Source.{IsKnown};
ghost use Rattle.convert_steps.specs.Writes.{Writes};

use convert_steps::frames::give;
use convert_steps::handles::{caught, popped};
use convert_steps::matches::match_on;
use convert_steps::scoped::{bindings, bound, rule};
use convert_steps::source::Source;
use convert_steps::task::{Continuation, Step, Task, Work};
use convert_steps::world::World;
use convert_terms::term;
use cps_ir::{Bind, End};
use smlc_base::{NoMemory, Row};

/// One step of a task.
///
/// # Errors
///
/// Want of memory.
pub fn turn(
    source: Source,
    world: &mut World,
    binds: &mut Row<Bind>,
    task: Task,
) -> Result<Step, NoMemory>
    requires { IsKnown source.terms.now source.facts.now }
    ensures { IfOk result (λ s. Writes (item_in false source.entry.own.now) source.entry.terms.now world.old binds.old world.new binds.new (λ σ κ. work_code (item_in false source.entry.own.now) source.entry.terms.now task.work σ κ task.next) task.scope task.continuation s) }
{
    let Task {
        work,
        scope,
        continuation,
        next,
    } = task;
    match work {
        Work::Term(at) => term(source, world, binds, at, scope, continuation, next),
        Work::Give(value) => give(source, world, binds, value, scope, continuation, next),
        Work::Rule { term, at, subject } => {
            let task = rule(
                source,
                world,
                binds,
                term,
                at,
                subject,
                scope,
                continuation,
                next,
            )?;
            Ok(Step::Go(task))
        }
        Work::Rules {
            term,
            subject,
            thrown,
        } => match_on(
            source,
            world,
            term,
            subject,
            thrown,
            scope,
            continuation,
            next,
        ),
        Work::Caught { term } => caught(source, world, binds, term, scope, continuation, next),
        Work::Popped => popped(source.alloc, binds, scope, continuation, next),
        Work::Throw(packet) => Ok(Step::Stop(End::Throw(packet))),
        Work::Bound {
            declaration,
            at,
            body,
            subject,
        } => {
            let task = bound(
                source,
                world,
                binds,
                declaration,
                at,
                body,
                subject,
                scope,
                continuation,
                next,
            )?;
            Ok(Step::Go(task))
        }
        Work::Bindings {
            declaration,
            at,
            body,
        } => {
            let task = bindings(
                source,
                world,
                binds,
                declaration,
                at,
                body,
                scope,
                continuation,
                next,
            )?;
            Ok(Step::Go(task))
        }
    }
}
