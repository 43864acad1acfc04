//! All bodies of a program.

ghost use Rattle.std.specs.Prelude.{◌≡◌, ◌≤◌, length, map, IfOk};
ghost use Rattle.close_bodies.specs.Bodies.{body_lowered};
ghost use Rattle.close_seen.specs.Seen.{seen_in, table_behind, closed_from, all_closed, functions_of};
ghost use Rattle.close_all.specs.Begins.{AllStand, all_visible};

use crate::begins::{begin, enter_all, no_begins, put_end};
use close_bodies::lower_body;
use close_scopes::Scopes;
use close_steps::{Decisions, Environment};
use closure_ir::Body;
use cps_ir::Function;
use smlc_base::{NoMemory, Row};
use std::alloc::Global;

// The body of a number, and what the bodies of its rules come to see.
fn close_next(
    alloc: Global,
    decisions: &Decisions,
    scopes: &mut Scopes,
    begins: &mut Vec<Environment>,
    number: usize,
    body: &cps_ir::Body,
) -> Result<Body, NoMemory>
    requires { AllStand scopes.old begins.old.items }
    ensures stand { IfOk result (λ b. AllStand scopes.new begins.new.items) }
    ensures seen { IfOk result (λ b. all_visible scopes.new begins.new.items ≡ table_behind decisions.now (all_visible scopes.old begins.old.items) number body.now) }
    ensures body { IfOk result (λ b. b ≡ body_lowered decisions.now (seen_in (all_visible scopes.old begins.old.items) number) body.now) }
{
    let environment = begin(begins.as_slice(), number);
    let lowered = lower_body(alloc, decisions, scopes, environment, body)?;
    put_end(begins, &body.end, lowered.environment);
    Ok(lowered.body)
}

fn close_from(
    alloc: Global,
    decisions: &Decisions,
    scopes: &mut Scopes,
    begins: &mut Vec<Environment>,
    bodies: &[cps_ir::Body],
) -> Result<Row<Body>, NoMemory>
    requires { AllStand scopes.old begins.old.items }
    ensures { IfOk result (λ v. v ≡ closed_from decisions.now (all_visible scopes.old begins.old.items) 0 bodies.now) }
{
    let mut closed = Row::new(alloc);
    for i in 0..bodies.len() {
        closed.push(close_next(alloc, decisions, scopes, begins, i, &bodies[i])?)?;
    }
    Ok(closed)
}

/// The closed bodies, by number, of bodies with these functions.
///
/// # Errors
///
/// Want of memory.
pub fn close_all(
    alloc: Global,
    decisions: &Decisions,
    bodies: &[cps_ir::Body],
    functions: &[&Function],
) -> Result<Row<Body>, NoMemory>
    requires { map (λ f. f.now) functions.now ≡ functions_of bodies.now }
    ensures { IfOk result (λ v. v ≡ all_closed decisions.now bodies.now) }
{
    let mut scopes = Scopes::new(alloc);
    let mut begins = no_begins(alloc, bodies.len())?;
    enter_all(alloc, decisions, &mut scopes, &mut begins, functions)?;
    close_from(alloc, decisions, &mut scopes, &mut begins, bodies)
}
