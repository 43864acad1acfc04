//! Bindings of one variable.

ghost use Rattle.std.specs.Prelude.{◌≡◌, ◌≤◌, ◌∷◌, [], length, IfOk, OnOk};
ghost use Rattle.closure_ir.specs.declared.body.Bind.TheVariants as bind;
ghost use Rattle.close_laws.specs.Lower.{operand_of, operands_of, beyond, shape_of};
ghost use Rattle.close_scopes.specs.Scopes.{Grows};
ghost use Rattle.close_steps.specs.Visible.{visible, places_in};
ghost use Rattle.close_steps.specs.Lowered.{with_itself};

use crate::atoms::{beyond, operand, operands, shape};
use crate::decisions::Decisions;
use crate::environment::Environment;
use close_scopes::{Bound, Found, Scopes};
use closure_ir::{Bind, Maker, Variable};
use cps_ir::{Atom, Shape};
use smlc_base::{NoMemory, Primitive, Row};
use std::alloc::Global;

/// What a body sees behind the binding of a variable.
///
/// # Errors
///
/// Want of memory.
pub fn see_itself(
    scopes: &mut Scopes,
    environment: Environment,
    variable: Variable,
) -> Result<Environment, NoMemory>
    requires stands { environment.variables.innermost ≤ length scopes.old }
    requires records { environment.records.innermost ≤ length scopes.old }
    ensures grown { OnOk result (Grows scopes.old scopes.new) }
    ensures variables { IfOk result (λ e. e.variables.innermost ≤ length scopes.new) }
    ensures records { IfOk result (λ e. e.records.innermost ≤ length scopes.new) }
    ensures seen { IfOk result (λ e. visible scopes.new e ≡ with_itself (visible scopes.old environment) variable) }
{
    let bound = Bound {
        key: variable,
        found: Found::Here(variable),
    };
    let variables = scopes.bind(environment.variables, bound)?;
    Ok(Environment {
        variables,
        ..environment
    })
}

fn one(alloc: Global, maker: Maker) -> Result<Row<Maker>, NoMemory>
    ensures { IfOk result (λ r. r ≡ maker ∷ []) }
{
    let mut makers = Row::new(alloc);
    makers.push(maker)?;
    Ok(makers)
}

/// What closing leaves of a new block.
///
/// # Errors
///
/// Want of memory.
pub fn lower_make(
    alloc: Global,
    decisions: &Decisions,
    scopes: &Scopes,
    environment: Environment,
    var: Variable,
    kind: Shape,
    atoms: &[Atom],
) -> Result<Bind, NoMemory>
    ensures { IfOk result (λ b. b ≡ bind.Make (record { var = var; shape = shape_of kind; fields = operands_of (places_in decisions.now (visible scopes.now environment)) atoms.now } ∷ [])) }
{
    let fields = operands(alloc, decisions, scopes, environment, atoms)?;
    let maker = Maker {
        var,
        shape: shape(kind),
        fields,
    };
    let makers = one(alloc, maker)?;
    Ok(Bind::Make(makers))
}

/// What closing leaves of a field that is read.
///
/// # Errors
///
/// Want of memory.
pub fn lower_pick(
    alloc: Global,
    decisions: &Decisions,
    scopes: &Scopes,
    environment: Environment,
    var: Variable,
    field: u32,
    of: Atom,
) -> Result<Bind, NoMemory>
    ensures { IfOk result (λ b. b ≡ bind.Let var (beyond (operand_of (places_in decisions.now (visible scopes.now environment)) of) field)) }
{
    let block = operand(alloc, decisions, scopes, environment, of)?;
    let value = beyond(block, field)?;
    Ok(Bind::Let { var, value })
}

/// What closing leaves of the result of a primitive.
///
/// # Errors
///
/// Want of memory.
pub fn lower_prim(
    alloc: Global,
    decisions: &Decisions,
    scopes: &Scopes,
    environment: Environment,
    var: Variable,
    primitive: Primitive,
    atoms: &[Atom],
) -> Result<Bind, NoMemory>
    ensures { IfOk result (λ b. b ≡ bind.Prim var primitive (operands_of (places_in decisions.now (visible scopes.now environment)) atoms.now)) }
{
    let operands = operands(alloc, decisions, scopes, environment, atoms)?;
    Ok(Bind::Prim {
        var,
        primitive,
        operands,
    })
}

/// What closing leaves of the handler register that is set.
///
/// # Errors
///
/// Want of memory.
pub fn lower_set_handler(
    alloc: Global,
    decisions: &Decisions,
    scopes: &Scopes,
    environment: Environment,
    handler: Atom,
) -> Result<Bind, NoMemory>
    ensures { IfOk result (λ b. b ≡ bind.SetHandler (operand_of (places_in decisions.now (visible scopes.now environment)) handler)) }
{
    let value = operand(alloc, decisions, scopes, environment, handler)?;
    Ok(Bind::SetHandler(value))
}
