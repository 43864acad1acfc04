//! Bindings.

ghost use Rattle.std.specs.Prelude.{◌≡◌, ◌≤◌, ◌++◌, ◌∷◌, [], length, IfOk, OnOk};
ghost use Rattle.closure_ir.specs.declared.body.Bind.TheVariants as bind;
ghost use Rattle.close_scopes.specs.Scopes.{Grows};
ghost use Rattle.close_steps.specs.Visible.{visible};
ghost use Rattle.close_steps.specs.Lowered.{with_itself};
ghost use Rattle.close_groups.specs.Group.{behind, makers_in};
ghost use Rattle.close_bodies.specs.Bodies.{is_none, group_bind, bind_lowered, seen_behind};

use close_groups::lower_group;
use close_scopes::Scopes;
use close_steps::{
    Decisions, Environment, lower_make, lower_pick, lower_prim, lower_set_handler, see_itself,
};
use closure_ir::{Bind, Maker, Variable};
use cps_ir::Function;
use smlc_base::{NoMemory, Row};
use std::alloc::Global;

fn is_none(makers: &[Maker]) -> bool
    ensures { result ≡ is_none makers.now }
{
    match makers {
        [] => true,
        _ => false,
    }
}

fn push_group(binds: &mut Row<Bind>, makers: Row<Maker>) -> Result<(), NoMemory>
    ensures { OnOk result (binds.new ≡ binds.old ++ group_bind makers) }
{
    if is_none(makers.items()) {
        Ok(())
    } else {
        binds.push(Bind::Make(makers))
    }
}

// A binding of one variable, behind others, and what is seen behind it.
fn push_bind(
    scopes: &mut Scopes,
    environment: Environment,
    binds: &mut Row<Bind>,
    bind: Bind,
    var: Variable,
) -> Result<Environment, NoMemory>
    requires stands { environment.variables.innermost ≤ length scopes.old }
    requires records { environment.records.innermost ≤ length scopes.old }
    ensures grown { OnOk result (Grows scopes.old scopes.new) }
    ensures variables { IfOk result (λ e. e.variables.innermost ≤ length scopes.new) }
    ensures records { IfOk result (λ e. e.records.innermost ≤ length scopes.new) }
    ensures seen { IfOk result (λ e. visible scopes.new e ≡ with_itself (visible scopes.old environment) var) }
    ensures binds { OnOk result (binds.new ≡ binds.old ++ bind ∷ []) }
{
    binds.push(bind)?;
    see_itself(scopes, environment, var)
}

fn push_functions(
    alloc: Global,
    decisions: &Decisions,
    scopes: &mut Scopes,
    environment: Environment,
    functions: &[Function],
    binds: &mut Row<Bind>,
) -> Result<Environment, NoMemory>
    requires stands { environment.variables.innermost ≤ length scopes.old }
    requires records { environment.records.innermost ≤ length scopes.old }
    ensures grown { OnOk result (Grows scopes.old scopes.new) }
    ensures variables { IfOk result (λ e. e.variables.innermost ≤ length scopes.new) }
    ensures records { IfOk result (λ e. e.records.innermost ≤ length scopes.new) }
    ensures seen { IfOk result (λ e. visible scopes.new e ≡ behind decisions.now (visible scopes.old environment) functions.now) }
    ensures binds { OnOk result (binds.new ≡ binds.old ++ group_bind (makers_in decisions.now (visible scopes.old environment) functions.now)) }
{
    let group = lower_group(alloc, decisions, scopes, environment, functions)?;
    let environment = group.environment;
    push_group(binds, group.makers)?;
    Ok(environment)
}

/// What closing leaves of a binding, behind others, and what is seen behind it.
///
/// # Errors
///
/// Want of memory.
pub(crate) fn lower_bind(
    alloc: Global,
    decisions: &Decisions,
    scopes: &mut Scopes,
    environment: Environment,
    bind: &cps_ir::Bind,
    binds: &mut Row<Bind>,
) -> Result<Environment, NoMemory>
    requires stands { environment.variables.innermost ≤ length scopes.old }
    requires records { environment.records.innermost ≤ length scopes.old }
    ensures grown { OnOk result (Grows scopes.old scopes.new) }
    ensures variables { IfOk result (λ e. e.variables.innermost ≤ length scopes.new) }
    ensures records { IfOk result (λ e. e.records.innermost ≤ length scopes.new) }
    ensures seen { IfOk result (λ e. visible scopes.new e ≡ seen_behind decisions.now (visible scopes.old environment) bind.now) }
    ensures binds { OnOk result (binds.new ≡ binds.old ++ bind_lowered decisions.now (visible scopes.old environment) bind.now) }
{
    match bind {
        cps_ir::Bind::Make { var, shape, atoms } => {
            let made = lower_make(
                alloc,
                decisions,
                scopes,
                environment,
                *var,
                *shape,
                atoms.items(),
            )?;
            push_bind(scopes, environment, binds, made, *var)
        }
        cps_ir::Bind::Pick { var, field, of } => {
            let read = lower_pick(alloc, decisions, scopes, environment, *var, *field, *of)?;
            push_bind(scopes, environment, binds, read, *var)
        }
        cps_ir::Bind::Prim {
            var,
            primitive,
            atoms,
        } => {
            let done = lower_prim(
                alloc,
                decisions,
                scopes,
                environment,
                *var,
                *primitive,
                atoms.items(),
            )?;
            push_bind(scopes, environment, binds, done, *var)
        }
        cps_ir::Bind::Fix(functions) => {
            push_functions(
                alloc,
                decisions,
                scopes,
                environment,
                functions.items(),
                binds,
            )
        }
        cps_ir::Bind::Handler(var) => {
            push_bind(scopes, environment, binds, Bind::Handler(*var), *var)
        }
        cps_ir::Bind::SetHandler(handler) => {
            let set = lower_set_handler(alloc, decisions, scopes, environment, *handler)?;
            binds.push(set)?;
            Ok(environment)
        }
    }
}
