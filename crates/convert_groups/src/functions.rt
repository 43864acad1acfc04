//! The functions of a group, each begun with a body.

ghost use Rattle.std.specs.Prelude.{false, IfOk, OnOk};
ghost use Rattle.cps_ir.specs.Code.{NoFunction};
ghost use Rattle.convert_laws.specs.Convert.{group_of};
ghost use Rattle.convert_decide.specs.Decide.{item_in};
ghost use Rattle.convert_steps.specs.Codes.{conv};
ghost use Rattle.convert_steps.specs.Source.{IsKnown};
ghost use Rattle.convert_groups.specs.Groups.{Begun, IsBegun};

use crate::named::function_number;
use convert_decide::sizes::sum;
use convert_decide::table::fact_in;
use convert_steps::functions::function;
use convert_steps::source::Source;
use convert_steps::world::World;
use cps_ir::Function;
use sml_tree::bare::RecBinding;
use smlc_base::{NoMemory, Row};

// Begins a function, if it is one.
fn begin_one(
    source: Source,
    world: &mut World,
    functions: &mut Row<Function>,
    term: Option<u32>,
    name: u32,
    scope: u32,
    next: u32,
) -> Result<(), NoMemory>
    ensures { OnOk result (IsBegun world.old world.new functions.old functions.new name scope next term) }
{
    if let Some(term) = term {
        functions.push(function(source, world, name, term, scope, next)?)?;
    }
    Ok(())
}

/// Begins the functions of a group in a scope, named from one variable on, with what else they take from another on.
///
/// # Errors
///
/// Want of memory.
pub fn begin_group(
    source: Source,
    world: &mut World,
    bindings: &[RecBinding],
    scope: u32,
    first: u32,
    next: u32,
) -> Result<Row<Function>, NoMemory>
    requires { IsKnown source.terms.now source.facts.now }
    ensures { IfOk result (λ fs. Begun (item_in false source.entry.own.now) source.entry.terms.now world.old world.new scope fs (λ σ. group_of (item_in false source.entry.own.now) source.entry.terms.now (conv (item_in false source.entry.own.now) source.entry.terms.now) bindings.now first σ next) (λ σ. NoFunction)) }
{
    let mut functions = Row::new(source.alloc);
    let mut name = first;
    let mut later = next;
    for binding in bindings {
        let term = function_number(source.terms, binding.right);
        begin_one(source, world, &mut functions, term, name, scope, later)?;
        name = sum(name, 1)?;
        later = sum(later, fact_in(source.facts, binding.right).size)?;
    }
    Ok(functions)
}
