//! A group of functions in front of a body.

ghost use Rattle.std.specs.Prelude.{◌≡◌, ◌+◌, false, IfOk, length};
ghost use Rattle.convert_decide.specs.Decide.{item_in};
ghost use Rattle.convert_steps.specs.Source.{IsKnown};
ghost use Rattle.convert_steps.specs.Writes.{Writes};
ghost use Rattle.convert_steps.specs.declared.task.Step.TheVariants.{Go};
ghost use Rattle.convert_groups.specs.Groups.{group_code};

use crate::functions::begin_group;
use convert_decide::sizes::sum;
use convert_decide::table::fact_in;
use convert_pieces::{bind_all, group_names};
use convert_steps::source::Source;
use convert_steps::task::{Continuation, Task, Work};
use convert_steps::world::World;
use cps_ir::Bind;
use sml_tree::bare::RecBinding;
use smlc_base::{NoMemory, Row};

fn number(count: usize) -> Result<u32, NoMemory>
    ensures { IfOk result (λ n. n ≡ count) }
{
    match u32::try_from(count) {
        Ok(n) => Ok(n),
        Err(_) => Err(NoMemory),
    }
}

/// The functions of a declaration, in front of a body.
///
/// # Errors
///
/// Want of memory.
pub fn bind_group(
    source: Source,
    world: &mut World,
    binds: &mut Row<Bind>,
    bindings: &[RecBinding],
    declaration: u32,
    body: u32,
    scope: u32,
    continuation: Continuation,
    next: u32,
) -> Result<Task, NoMemory>
    requires { IsKnown source.terms.now source.facts.now }
    ensures { IfOk result (λ t. Writes (item_in false source.entry.own.now) source.entry.terms.now world.old binds.old world.new binds.new (group_code (item_in false source.entry.own.now) source.entry.terms.now bindings.now declaration body next) scope continuation (Go t)) }
{
    let first = sum(next, number(bindings.len())?)?;
    let later = sum(next, fact_in(source.facts, declaration).size)?;
    let names = group_names(source.alloc, bindings, next)?;
    world.scopes.go(scope)?;
    bind_all(&mut world.scopes, names.items())?;
    let inside = world.scopes.present();
    let functions = begin_group(source, world, bindings, inside, next, first)?;
    binds.push(Bind::Fix(functions))?;
    Ok(Task {
        work: Work::Term(body),
        scope: inside,
        continuation,
        next: later,
    })
}
