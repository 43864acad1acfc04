//! The parts that frames await.

ghost use Rattle.std.specs.Prelude.{◌≡◌, false, IfOk};
ghost use Rattle.convert_decide.specs.Decide.{item_in};
ghost use Rattle.convert_steps.specs.Codes.{owned_code, part_code, parts_code};
ghost use Rattle.convert_steps.specs.Functions.{one_function};
ghost use Rattle.convert_steps.specs.Source.{IsKnown};
ghost use Rattle.convert_steps.specs.Writes.{Writes};
ghost use Rattle.convert_steps.specs.declared.task.Step.TheVariants.{Go};

use crate::ends::make;
use crate::source::{Source, is_own, parts_at};
use crate::task::{Awaits, Continuation, Frame, Task, Work};
use crate::world::{World, begin, text_of};
use convert_decide::sizes::sum;
use convert_decide::table::fact_in;
use convert_pieces::in_slots;
use cps_ir::{Atom, Bind, Function, Shape};
use smlc_base::{NoMemory, Point, PointKind, Row};
use std::alloc::Global;

fn one_function(
    alloc: Global,
    name: u32,
    point: Point,
    value: u32,
    body: u32,
) -> Result<Bind, NoMemory>
    ensures { IfOk result (λ b. b ≡ one_function name point value body) }
{
    let mut params = Row::new(alloc);
    params.push(value)?;
    let mut functions = Row::new(alloc);
    functions.push(Function {
        name,
        point,
        params,
        body,
    })?;
    Ok(Bind::Fix(functions))
}

// The part's value comes to a function of its own, which is bound here.
fn own_part(
    source: Source,
    world: &mut World,
    binds: &mut Row<Bind>,
    term: u32,
    scope: u32,
    continuation: Continuation,
    next: u32,
) -> Result<Task, NoMemory>
    requires { IsKnown source.terms.now source.facts.now }
    ensures { IfOk result (λ t. Writes (item_in false source.entry.own.now) source.entry.terms.now world.old binds.old world.new binds.new (owned_code (item_in false source.entry.own.now) source.entry.terms.now term next) scope continuation (Go t)) }
{
    let value = sum(next, 1)?;
    let inside = sum(next, 2)?;
    let behind = sum(inside, fact_in(source.facts, term).size)?;
    let body = begin(
        world,
        Task {
            work: Work::Give(Atom::Var(value)),
            scope,
            continuation,
            next: behind,
        },
    )?;
    let point = Point {
        node: term,
        kind: PointKind::Ret,
    };
    binds.push(one_function(source.alloc, next, point, value, body)?)?;
    Ok(Task {
        work: Work::Term(term),
        scope,
        continuation: Continuation::Known(Atom::Var(next)),
        next: inside,
    })
}

/// Goes on with a part under its frame.
///
/// # Errors
///
/// Want of memory.
pub fn part(
    source: Source,
    world: &mut World,
    binds: &mut Row<Bind>,
    term: u32,
    frame: Frame,
    next: u32,
) -> Result<Task, NoMemory>
    requires { IsKnown source.terms.now source.facts.now }
    ensures { IfOk result (λ t. Writes (item_in false source.entry.own.now) source.entry.terms.now world.old binds.old world.new binds.new (part_code (item_in false source.entry.own.now) source.entry.terms.now term frame.awaits next) frame.scope frame.continuation (Go t)) }
{
    let scope = frame.scope;
    let continuation = text_of(world, frame)?;
    if is_own(source.own, term) {
        own_part(source, world, binds, term, scope, continuation, next)
    } else {
        Ok(Task {
            work: Work::Term(term),
            scope,
            continuation,
            next,
        })
    }
}

/// The parts of a tuple that are left, and then the tuple.
///
/// # Errors
///
/// Want of memory.
pub fn parts(
    source: Source,
    world: &mut World,
    binds: &mut Row<Bind>,
    tuple: u32,
    before: Row<Atom>,
    scope: u32,
    continuation: Continuation,
    next: u32,
) -> Result<Task, NoMemory>
    requires { IsKnown source.terms.now source.facts.now }
    ensures { IfOk result (λ t. Writes (item_in false source.entry.own.now) source.entry.terms.now world.old binds.old world.new binds.new (parts_code (item_in false source.entry.own.now) source.entry.terms.now tuple before next) scope continuation (Go t)) }
{
    let all = parts_at(source.terms, tuple);
    let done = before.len();
    if done >= all.len() {
        let atoms = in_slots(source.alloc, all, before.items())?;
        return make(binds, Shape::Tuple, atoms, scope, continuation, next);
    }
    let term = all[done].node;
    let awaits = Awaits::Part { tuple, before };
    let frame = Frame {
        awaits,
        scope,
        continuation,
    };
    part(source, world, binds, term, frame, next)
}
