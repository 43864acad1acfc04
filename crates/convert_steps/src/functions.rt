//! Functions of the program.

ghost use Rattle.std.specs.Prelude.{◌≡◌, ◌∷◌, [], ◌++◌, false, length, IfOk};
ghost use Rattle.convert_decide.specs.Decide.{item_in};
ghost use Rattle.convert_steps.specs.Functions.{function_task, function_entry, closure_code};
ghost use Rattle.convert_steps.specs.Source.{IsKnown};
ghost use Rattle.convert_steps.specs.Writes.{Writes};
ghost use Rattle.convert_steps.specs.declared.task.Step.TheVariants.{Go};

use crate::source::{Source, cases_at};
use crate::task::{Continuation, Task, Work};
use crate::world::{World, begin};
use convert_decide::sizes::{cases_size, sum};
use cps_ir::{Atom, Bind, Constant, Function};
use smlc_base::{LibraryExn, NoMemory, Point, PointKind, Row};

/// Begins the function of a term, with its parameter and its continuation as the next variables.
///
/// # Errors
///
/// Want of memory.
pub fn function(
    source: Source,
    world: &mut World,
    name: u32,
    term: u32,
    scope: u32,
    next: u32,
) -> Result<Function, NoMemory>
    ensures tasks { IfOk result (λ f. world.new ≡ record world.old { tasks = world.old.tasks ++ function_task term scope next ∷ [] }) }
    ensures is { IfOk result (λ f. f ≡ function_entry name term next (length world.old.tasks)) }
{
    let returned = sum(next, 1)?;
    let inside = sum(next, 2)?;
    let body = begin(
        world,
        Task {
            work: Work::Rules {
                term,
                subject: Atom::Var(next),
                thrown: Atom::Constant(Constant::Library(LibraryExn::MatchExn)),
            },
            scope,
            continuation: Continuation::Known(Atom::Var(returned)),
            next: inside,
        },
    )?;
    let mut params = Row::new(source.alloc);
    params.push(next)?;
    params.push(returned)?;
    Ok(Function {
        name,
        point: Point {
            node: term,
            kind: PointKind::Fn,
        },
        params,
        body,
    })
}

/// A function is the value.
///
/// # Errors
///
/// Want of memory.
pub fn closure(
    source: Source,
    world: &mut World,
    binds: &mut Row<Bind>,
    term: u32,
    scope: u32,
    continuation: Continuation,
    next: u32,
) -> Result<Task, NoMemory>
    requires { IsKnown source.terms.now source.facts.now }
    ensures { IfOk result (λ t. Writes (item_in false source.entry.own.now) source.entry.terms.now world.old binds.old world.new binds.new (closure_code (item_in false source.entry.own.now) source.entry.terms.now term next) scope continuation (Go t)) }
{
    let first = sum(next, 1)?;
    let size = cases_size(source.facts, cases_at(source.terms, term))?;
    let later = sum(sum(next, 3)?, size)?;
    let mut functions = Row::new(source.alloc);
    functions.push(function(source, world, next, term, scope, first)?)?;
    binds.push(Bind::Fix(functions))?;
    Ok(Task {
        work: Work::Give(Atom::Var(next)),
        scope,
        continuation,
        next: later,
    })
}
