//! A body.

ghost use Rattle.std.specs.Prelude.{◌≡◌, ◌≤◌, length, [], ◌++◌, IfOk, OnOk};
ghost use Rattle.close_scopes.specs.Scopes.{Grows};
ghost use Rattle.close_steps.specs.Visible.{visible};
ghost use Rattle.close_bodies.specs.Bodies.{binds_lowered, seen_at_end, body_lowered};

use crate::binds::lower_bind;
use close_scopes::Scopes;
use close_steps::{Decisions, Environment, lower_end};
use closure_ir::{Bind, Body};
use smlc_base::{NoMemory, Row};
use std::alloc::Global;

/// A body, and what is seen at its end.
#[derive(Drop)]
pub struct Lowered {
    pub body: Body,
    pub environment: Environment,
}

fn lower_binds(
    alloc: Global,
    decisions: &Decisions,
    scopes: &mut Scopes,
    environment: Environment,
    all: &[cps_ir::Bind],
    binds: &mut Row<Bind>,
) -> Result<Environment, NoMemory>
    requires empty { binds.old ≡ [] }
    requires stands { environment.variables.innermost ≤ length scopes.old }
    requires records { environment.records.innermost ≤ length scopes.old }
    ensures grown { OnOk result (Grows scopes.old scopes.new) }
    ensures variables { IfOk result (λ e. e.variables.innermost ≤ length scopes.new) }
    ensures records { IfOk result (λ e. e.records.innermost ≤ length scopes.new) }
    ensures seen { IfOk result (λ e. visible scopes.new e ≡ seen_at_end decisions.now (visible scopes.old environment) all.now) }
    ensures binds { OnOk result (binds.new ≡ binds_lowered decisions.now (visible scopes.old environment) all.now) }
{
    let mut environment = environment;
    for bind in all {
        environment = lower_bind(alloc, decisions, scopes, environment, bind, binds)?;
    }
    Ok(environment)
}

/// What closing leaves of a body, by what it sees at its beginning.
///
/// # Errors
///
/// Want of memory.
pub fn lower_body(
    alloc: Global,
    decisions: &Decisions,
    scopes: &mut Scopes,
    environment: Environment,
    body: &cps_ir::Body,
) -> Result<Lowered, NoMemory>
    requires stands { environment.variables.innermost ≤ length scopes.old }
    requires records { environment.records.innermost ≤ length scopes.old }
    ensures grown { OnOk result (Grows scopes.old scopes.new) }
    ensures variables { IfOk result (λ l. l.environment.variables.innermost ≤ length scopes.new) }
    ensures records { IfOk result (λ l. l.environment.records.innermost ≤ length scopes.new) }
    ensures seen { IfOk result (λ l. visible scopes.new l.environment ≡ seen_at_end decisions.now (visible scopes.old environment) body.now.binds) }
    ensures body { IfOk result (λ l. l.body ≡ body_lowered decisions.now (visible scopes.old environment) body.now) }
{
    let mut binds = Row::new(alloc);
    let environment = lower_binds(
        alloc,
        decisions,
        scopes,
        environment,
        body.binds.items(),
        &mut binds,
    )?;
    let end = lower_end(alloc, decisions, scopes, environment, &body.end)?;
    Ok(Lowered {
        body: Body { binds, end },
        environment,
    })
}
