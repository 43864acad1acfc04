//! Declarations of exception names.

ghost use Rattle.std.specs.Prelude.{ℕ, suc, Bool, List, [], IfOk};
ghost use Rattle.lambda_ir.specs.declared.term.Term.{Term};
ghost use Rattle.cps_ir.specs.declared.body.Bind.{Bind};
ghost use Rattle.convert_steps.specs.Exceptions.{new_code, same_code};
ghost use Rattle.convert_steps.specs.Writes.{Writes};
ghost use Rattle.convert_steps.specs.declared.task.Step.TheVariants.{Go};

use crate::task::{Continuation, Task, Work};
use crate::world::World;
use convert_decide::sizes::sum;
use convert_pieces::con_atom;
use cps_ir::{Atom, Bind, Shape};
use sml_tree::bare::Con;
use smlc_base::{Name, NoMemory, Row};
use std::alloc::Global;

/// A new exception name, in front of a body.
///
/// # Errors
///
/// Want of memory.
pub fn new_exception(
    alloc: Global,
    world: &mut World,
    binds: &mut Row<Bind>,
    name: Name,
    body: u32,
    scope: u32,
    continuation: Continuation,
    next: u32,
) -> Result<Task, NoMemory>
    ensures { IfOk result (λ t. (own : ℕ → Bool) (terms : List Term) → Writes own terms world.old binds.old world.new binds.new (new_code own terms name.0 body next) scope continuation (Go t)) }
{
    binds.push(Bind::Make {
        var: next,
        shape: Shape::ExnName(name.0),
        atoms: Row::new(alloc),
    })?;
    let later = sum(next, 1)?;
    world.scopes.go(scope)?;
    world.scopes.bind(name, Atom::Var(next))?;
    Ok(Task {
        work: Work::Term(body),
        scope: world.scopes.present(),
        continuation,
        next: later,
    })
}

/// Another name of an exception, in front of a body.
///
/// # Errors
///
/// Want of memory.
pub fn same_exception(
    world: &mut World,
    name: Name,
    constructor: Con,
    body: u32,
    scope: u32,
    continuation: Continuation,
    next: u32,
) -> Result<Task, NoMemory>
    ensures { IfOk result (λ t. (own : ℕ → Bool) (terms : List Term) (bs : List Bind) → Writes own terms world.old bs world.new bs (same_code own terms name.0 constructor body next) scope continuation (Go t)) }
{
    world.scopes.go(scope)?;
    let _ = world.scopes.present();
    let atom = con_atom(&world.scopes, constructor);
    world.scopes.bind(name, atom)?;
    Ok(Task {
        work: Work::Term(body),
        scope: world.scopes.present(),
        continuation,
        next,
    })
}
