//! Rules that were chosen, and the bindings of declarations.

ghost use Rattle.std.specs.Prelude.{◌≡◌, ℕ, Bool, false, List, IfOk};
ghost use Rattle.lambda_ir.specs.declared.term.Term.{Term};
ghost use Rattle.cps_ir.specs.Code.{Code};
ghost use Rattle.convert_laws.specs.Convert.{Scope, Kon, bind_names};
ghost use Rattle.convert_decide.specs.Decide.{item_in};
ghost use Rattle.convert_steps.specs.Codes.{work_code, bindings_code};
ghost use Rattle.convert_steps.specs.Source.{IsKnown};
ghost use Rattle.convert_steps.specs.Writes.{Leads, Writes};
ghost use Rattle.convert_steps.specs.declared.task.Continuation.{Continuation};
ghost use Rattle.convert_steps.specs.declared.task.Step.TheVariants.{Go};
ghost use Rattle.convert_steps.specs.declared.task.Work.TheVariants as work;

use crate::parts::part;
use crate::source::{Source, binds_at, cases_at};
use crate::task::{Awaits, Continuation, Frame, Task, Work};
use crate::world::World;
use convert_decide::sizes::sum;
use convert_pieces::{Picked, bind_all, pick_names};
use cps_ir::{Atom, Bind};
use smlc_base::{Named, NoMemory, Row};
use std::alloc::Global;

/// The names of a rule come into a scope, which is then the present one. Answers the next variable.
///
/// # Errors
///
/// Want of memory.
pub fn enter(
    alloc: Global,
    world: &mut World,
    binds: &mut Row<Bind>,
    names: &[Named],
    subject: Atom,
    scope: u32,
    next: u32,
) -> Result<u32, NoMemory>
    ensures { IfOk result (λ r. (own : ℕ → Bool) (terms : List Term) (k : Continuation) (g : Scope → Kon → ℕ → Code) → Leads own terms world.old binds.old world.new binds.new (λ σ κ. bind_names names.now subject σ (λ τ m. g τ κ m) next) scope k (λ σ κ. g σ κ r) world.new.scopes.present k) }
{
    let Picked { names, next } = pick_names(alloc, binds, names, subject, next)?;
    world.scopes.go(scope)?;
    bind_all(&mut world.scopes, names.items())?;
    Ok(next)
}

/// A rule that was chosen.
///
/// # Errors
///
/// Want of memory.
pub fn rule(
    source: Source,
    world: &mut World,
    binds: &mut Row<Bind>,
    term: u32,
    at: u32,
    subject: Atom,
    scope: u32,
    continuation: Continuation,
    next: u32,
) -> Result<Task, NoMemory>
    ensures { IfOk result (λ t. Writes (item_in false source.entry.own.now) source.entry.terms.now world.old binds.old world.new binds.new (λ σ κ. work_code (item_in false source.entry.own.now) source.entry.terms.now (work.Rule term at subject) σ κ next) scope continuation (Go t)) }
{
    let cases = cases_at(source.terms, term);
    let index = at as usize;
    if index >= cases.len() {
        return Err(NoMemory);
    }
    let case = &cases[index];
    let next = enter(
        source.alloc,
        world,
        binds,
        case.names.items(),
        subject,
        scope,
        next,
    )?;
    Ok(Task {
        work: Work::Term(case.body),
        scope: world.scopes.present(),
        continuation,
        next,
    })
}

/// What is behind a binding whose tests hold.
///
/// # Errors
///
/// Want of memory.
pub fn bound(
    source: Source,
    world: &mut World,
    binds: &mut Row<Bind>,
    declaration: u32,
    at: u32,
    body: u32,
    subject: Atom,
    scope: u32,
    continuation: Continuation,
    next: u32,
) -> Result<Task, NoMemory>
    ensures { IfOk result (λ t. Writes (item_in false source.entry.own.now) source.entry.terms.now world.old binds.old world.new binds.new (λ σ κ. work_code (item_in false source.entry.own.now) source.entry.terms.now (work.Bound declaration at body subject) σ κ next) scope continuation (Go t)) }
{
    let all = binds_at(source.terms, declaration);
    let index = at as usize;
    if index >= all.len() {
        return Err(NoMemory);
    }
    let later = sum(at, 1)?;
    let next = enter(
        source.alloc,
        world,
        binds,
        all[index].names.items(),
        subject,
        scope,
        next,
    )?;
    Ok(Task {
        work: Work::Bindings {
            declaration,
            at: later,
            body,
        },
        scope: world.scopes.present(),
        continuation,
        next,
    })
}

/// The bindings of a declaration from one on, and the body.
///
/// # Errors
///
/// Want of memory.
pub fn bindings(
    source: Source,
    world: &mut World,
    binds: &mut Row<Bind>,
    declaration: u32,
    at: u32,
    body: u32,
    scope: u32,
    continuation: Continuation,
    next: u32,
) -> Result<Task, NoMemory>
    requires { IsKnown source.terms.now source.facts.now }
    ensures { IfOk result (λ t. Writes (item_in false source.entry.own.now) source.entry.terms.now world.old binds.old world.new binds.new (bindings_code (item_in false source.entry.own.now) source.entry.terms.now declaration at body next) scope continuation (Go t)) }
{
    let all = binds_at(source.terms, declaration);
    let index = at as usize;
    if index >= all.len() {
        return Ok(Task {
            work: Work::Term(body),
            scope,
            continuation,
            next,
        });
    }
    let frame = Frame {
        awaits: Awaits::Right {
            declaration,
            at,
            body,
        },
        scope,
        continuation,
    };
    part(source, world, binds, all[index].right, frame, next)
}
