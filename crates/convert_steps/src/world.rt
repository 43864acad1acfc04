//! The scopes, frames and bodies of a conversion, by number. They only become more.

ghost use Rattle.std.specs.Prelude.{◌≡◌, [], ◌∷◌, ◌++◌, ℕ, IfOk, Some, length, slice_get};
ghost use Rattle.convert_steps.specs.declared.task.Continuation.TheVariants.{Text};

use crate::task::{Awaits, Continuation, Frame, Task};
use convert_scopes::Scopes;
use cps_ir::Atom;
use smlc_base::{NoMemory, Row};
use std::alloc::Global;

/// All scopes, frames, and the tasks that bodies begin with, by the numbers of the bodies.
#[derive(Drop)]
pub struct World {
    pub scopes: Scopes,
    pub frames: Row<Frame>,
    pub tasks: Row<Task>,
}

fn number(count: usize) -> Result<u32, NoMemory>
    ensures { IfOk result (λ n. n ≡ count) }
{
    match u32::try_from(count) {
        Ok(n) => Ok(n),
        Err(_) => Err(NoMemory),
    }
}

/// A body is to begin with a task. Answers its number.
///
/// # Errors
///
/// Want of memory.
pub fn begin(world: &mut World, task: Task) -> Result<u32, NoMemory>
    ensures number { IfOk result (λ b. b ≡ length world.old.tasks) }
    ensures tasks { IfOk result (λ b. world.new ≡ record world.old { tasks = world.old.tasks ++ task ∷ [] }) }
{
    let body = number(world.tasks.len())?;
    world.tasks.push(task)?;
    Ok(body)
}

/// The continuation that is the text of a frame.
///
/// # Errors
///
/// Want of memory.
pub fn text_of(world: &mut World, frame: Frame) -> Result<Continuation, NoMemory>
    ensures number { IfOk result (λ k. k ≡ Text (length world.old.frames)) }
    ensures frames { IfOk result (λ k. world.new ≡ record world.old { frames = world.old.frames ++ frame ∷ [] }) }
{
    let at = number(world.frames.len())?;
    world.frames.push(frame)?;
    Ok(Continuation::Text(at))
}

fn copy_atoms(alloc: Global, atoms: &[Atom]) -> Result<Row<Atom>, NoMemory>
    ensures { IfOk result (λ r. r ≡ atoms.now) }
{
    let copied = Vec::from_slice(alloc, atoms)?;
    Ok(Row::from_vec(copied))
}

fn copy_awaits(alloc: Global, awaits: &Awaits) -> Result<Awaits, NoMemory>
    ensures { IfOk result (λ w. w ≡ awaits.now) }
{
    match awaits {
        Awaits::End => Ok(Awaits::End),
        Awaits::Part { tuple, before } => {
            let before = copy_atoms(alloc, before.items())?;
            Ok(Awaits::Part {
                tuple: *tuple,
                before,
            })
        }
        Awaits::Function { argument } => Ok(Awaits::Function {
            argument: *argument,
        }),
        Awaits::Argument { function } => Ok(Awaits::Argument {
            function: *function,
        }),
        Awaits::Builtin(primitive) => Ok(Awaits::Builtin(*primitive)),
        Awaits::Constructor(constructor) => Ok(Awaits::Constructor(*constructor)),
        Awaits::Subject { term } => Ok(Awaits::Subject { term: *term }),
        Awaits::Packet => Ok(Awaits::Packet),
        Awaits::Right {
            declaration,
            at,
            body,
        } => Ok(Awaits::Right {
            declaration: *declaration,
            at: *at,
            body: *body,
        }),
    }
}

fn copy_frame(alloc: Global, frame: &Frame) -> Result<Frame, NoMemory>
    ensures { IfOk result (λ f. f ≡ frame.now) }
{
    let awaits = copy_awaits(alloc, &frame.awaits)?;
    Ok(Frame {
        awaits,
        scope: frame.scope,
        continuation: frame.continuation,
    })
}

/// The frame of a number.
///
/// # Errors
///
/// Want of memory, also where there is none.
pub fn frame_at(alloc: Global, frames: &[Frame], at: u32) -> Result<Frame, NoMemory>
    ensures { IfOk result (λ f. slice_get frames.now at ≡ Some f) }
{
    match frames.get(at as usize) {
        Some(frame) => copy_frame(alloc, frame),
        None => Err(NoMemory),
    }
}
