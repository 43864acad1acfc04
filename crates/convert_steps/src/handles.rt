//! Handlers.

ghost use Rattle.std.specs.Prelude.{◌≡◌, ℕ, Bool, false, List, IfOk};
ghost use Rattle.lambda_ir.specs.declared.term.Term.{Term};
ghost use Rattle.convert_decide.specs.Decide.{item_in};
ghost use Rattle.convert_steps.specs.Handles.{handler_names, entry_of, handler_functions, handle_code};
ghost use Rattle.convert_steps.specs.Source.{IsKnown};
ghost use Rattle.convert_steps.specs.Writes.{Writes};
ghost use Rattle.convert_steps.specs.Codes.{work_code};
ghost use Rattle.convert_steps.specs.declared.task.Work.TheVariants as work;
ghost use Rattle.convert_steps.specs.declared.world.World.{World};
ghost use Rattle.convert_steps.specs.declared.task.Step.TheVariants.{Go};

use crate::ends::atom_by;
use crate::matches::match_on;
use crate::source::{Source, cases_at};
use crate::task::{Continuation, Step, Task, Work};
use crate::world::{World, begin};
use convert_decide::sizes::{cases_size, sum};
use cps_ir::{Atom, Bind, End, Function};
use smlc_base::{NoMemory, Point, PointKind, Row};
use std::alloc::Global;

/// The variables of a `handle`, behind that of the old handler: the function that catches, and the one that a value comes back to, each with what it takes.
#[derive(Clone, Copy)]
pub struct HandlerNames {
    pub catching: u32,
    pub popping: u32,
    pub packet: u32,
    pub value: u32,
}

fn handler_names(next: u32) -> Result<HandlerNames, NoMemory>
    ensures { IfOk result (λ h. h ≡ handler_names next) }
{
    let catching = sum(next, 1)?;
    let popping = sum(next, 2)?;
    let packet = sum(next, 3)?;
    let value = sum(next, 4)?;
    Ok(HandlerNames {
        catching,
        popping,
        packet,
        value,
    })
}

fn one_of(
    alloc: Global,
    name: u32,
    term: u32,
    kind: PointKind,
    value: u32,
    body: u32,
) -> Result<Function, NoMemory>
    ensures { IfOk result (λ f. f ≡ entry_of name term kind value body) }
{
    let mut params = Row::new(alloc);
    params.push(value)?;
    Ok(Function {
        name,
        point: Point { node: term, kind },
        params,
        body,
    })
}

fn handler_functions(
    alloc: Global,
    term: u32,
    names: HandlerNames,
    caught: u32,
    popped: u32,
) -> Result<Row<Function>, NoMemory>
    ensures { IfOk result (λ r. r ≡ handler_functions term names caught popped) }
{
    let mut functions = Row::new(alloc);
    functions.push(one_of(
        alloc,
        names.catching,
        term,
        PointKind::Caught,
        names.packet,
        caught,
    )?)?;
    functions.push(one_of(
        alloc,
        names.popping,
        term,
        PointKind::Popped,
        names.value,
        popped,
    )?)?;
    Ok(functions)
}

/// A term under a handler.
///
/// # Errors
///
/// Want of memory.
pub fn handle(
    source: Source,
    world: &mut World,
    binds: &mut Row<Bind>,
    term: u32,
    inner: u32,
    scope: u32,
    continuation: Continuation,
    next: u32,
) -> Result<Task, NoMemory>
    requires { IsKnown source.terms.now source.facts.now }
    ensures { IfOk result (λ t. Writes (item_in false source.entry.own.now) source.entry.terms.now world.old binds.old world.new binds.new (handle_code (item_in false source.entry.own.now) source.entry.terms.now term inner next) scope continuation (Go t)) }
{
    let names = handler_names(next)?;
    let size = cases_size(source.facts, cases_at(source.terms, term))?;
    let inside = sum(sum(next, 5)?, size)?;
    let caught = begin(
        world,
        Task {
            work: Work::Caught { term },
            scope,
            continuation,
            next,
        },
    )?;
    let popped = begin(
        world,
        Task {
            work: Work::Popped,
            scope,
            continuation,
            next,
        },
    )?;
    let functions = handler_functions(source.alloc, term, names, caught, popped)?;
    binds.push(Bind::Handler(next))?;
    binds.push(Bind::Fix(functions))?;
    binds.push(Bind::SetHandler(Atom::Var(names.catching)))?;
    Ok(Task {
        work: Work::Term(inner),
        scope,
        continuation: Continuation::Known(Atom::Var(names.popping)),
        next: inside,
    })
}

/// The function that catches a packet: it sets the old handler, and the rules are tried.
///
/// # Errors
///
/// Want of memory.
pub fn caught(
    source: Source,
    world: &mut World,
    binds: &mut Row<Bind>,
    term: u32,
    scope: u32,
    continuation: Continuation,
    next: u32,
) -> Result<Step, NoMemory>
    requires { IsKnown source.terms.now source.facts.now }
    ensures { IfOk result (λ s. Writes (item_in false source.entry.own.now) source.entry.terms.now world.old binds.old world.new binds.new (λ σ κ. work_code (item_in false source.entry.own.now) source.entry.terms.now (work.Caught term) σ κ next) scope continuation s) }
{
    let packet = sum(next, 3)?;
    let inside = sum(next, 5)?;
    binds.push(Bind::SetHandler(Atom::Var(next)))?;
    match_on(
        source,
        world,
        term,
        Atom::Var(packet),
        Atom::Var(packet),
        scope,
        continuation,
        inside,
    )
}

/// The function that a value comes back to: it sets the old handler, and the continuation gets the value.
///
/// # Errors
///
/// Want of memory.
pub fn popped(
    alloc: Global,
    binds: &mut Row<Bind>,
    scope: u32,
    continuation: Continuation,
    next: u32,
) -> Result<Step, NoMemory>
    ensures { IfOk result (λ s. (own : ℕ → Bool) (terms : List Term) (w : World) → Writes own terms w binds.old w binds.new (λ σ κ. work_code own terms work.Popped σ κ next) scope continuation s) }
{
    let value = sum(next, 4)?;
    binds.push(Bind::SetHandler(Atom::Var(next)))?;
    let mut atoms = Row::new(alloc);
    atoms.push(Atom::Var(value))?;
    Ok(Step::Stop(End::Call {
        function: atom_by(continuation),
        atoms,
    }))
}
