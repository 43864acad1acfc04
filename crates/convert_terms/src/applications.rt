//! Applications.

ghost use Rattle.std.specs.Prelude.{◌≡◌, false, IfOk};
ghost use Rattle.convert_laws.specs.Needs.{head_at};
ghost use Rattle.convert_decide.specs.Decide.{item_in};
ghost use Rattle.convert_steps.specs.Source.{IsKnown};
ghost use Rattle.convert_steps.specs.Writes.{Writes};
ghost use Rattle.convert_steps.specs.declared.task.Step.TheVariants.{Go};
ghost use Rattle.convert_terms.specs.Terms.{applied_code, first_part, awaited};

use convert_decide::table::fact_in;
use convert_laws::Head;
use convert_steps::parts::part;
use convert_steps::source::Source;
use convert_steps::task::{Awaits, Continuation, Frame, Task};
use convert_steps::world::World;
use cps_ir::Bind;
use smlc_base::{NoMemory, Row};

// The part of an application that is evaluated first: the argument, where the function part is no value.
fn first_part(head: Head, function: u32, argument: u32) -> u32
    ensures { result ≡ first_part head function argument }
{
    match head {
        Head::Computed => function,
        Head::Builtin(_) => argument,
        Head::Constructor(_) => argument,
    }
}

// What is done with it.
fn awaited(head: Head, argument: u32) -> Awaits
    ensures { result ≡ awaited head argument }
{
    match head {
        Head::Computed => Awaits::Function { argument },
        Head::Builtin(primitive) => Awaits::Builtin(primitive),
        Head::Constructor(constructor) => Awaits::Constructor(constructor),
    }
}

/// An application of a function part to an argument.
///
/// # Errors
///
/// Want of memory.
pub fn apply(
    source: Source,
    world: &mut World,
    binds: &mut Row<Bind>,
    function: u32,
    argument: u32,
    scope: u32,
    continuation: Continuation,
    next: u32,
) -> Result<Task, NoMemory>
    requires { IsKnown source.terms.now source.facts.now }
    ensures { IfOk result (λ t. Writes (item_in false source.entry.own.now) source.entry.terms.now world.old binds.old world.new binds.new (applied_code (item_in false source.entry.own.now) source.entry.terms.now (head_at source.entry.terms.now function) function argument next) scope continuation (Go t)) }
{
    let head = fact_in(source.facts, function).head;
    let frame = Frame {
        awaits: awaited(head, argument),
        scope,
        continuation,
    };
    let first = first_part(head, function, argument);
    part(source, world, binds, first, frame, next)
}
