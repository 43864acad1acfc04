//! Matches.

ghost use Rattle.std.specs.Prelude.{◌≡◌, false, List, IfOk};
ghost use Rattle.cps_ir.specs.declared.body.Bind.{Bind};
ghost use Rattle.convert_decide.specs.Decide.{item_in};
ghost use Rattle.convert_steps.specs.Rows.{matching_of, match_code, tested_code};
ghost use Rattle.convert_steps.specs.Codes.{cases_at, awaits_code};
ghost use Rattle.convert_steps.specs.declared.task.Awaits.TheVariants as awaits;
ghost use Rattle.convert_steps.specs.declared.matches.Matching.TheVariants.{Tested};
ghost use Rattle.convert_steps.specs.Source.{IsKnown};
ghost use Rattle.convert_steps.specs.Writes.{Writes};

use crate::rules::{Choices, begin_rules};
use crate::source::{Source, binds_at, cases_at};
use crate::task::{Continuation, Step, Task, Work};
use crate::world::{World, begin};
use convert_pieces::tests;
use cps_ir::{Atom, Constant, End, Rule};
use lambda_ir::Case;
use smlc_base::{LibraryExn, NoMemory, Row, Test};

/// How rules are matched.
#[derive(Clone, Copy)]
pub enum Matching {
    /// There is none.
    Nothing,
    /// The first has no tests.
    Chosen,
    /// The first has tests.
    Tested,
}

fn matching_of(cases: &[Case]) -> Matching
    ensures { result ≡ matching_of cases.now }
{
    match cases {
        [] => Matching::Nothing,
        [case, ..] => match case.tests.items() {
            [] => Matching::Chosen,
            _ => Matching::Tested,
        },
    }
}

fn match_tested(
    source: Source,
    world: &mut World,
    term: u32,
    subject: Atom,
    thrown: Atom,
    scope: u32,
    continuation: Continuation,
    next: u32,
) -> Result<Step, NoMemory>
    requires known { IsKnown source.terms.now source.facts.now }
    requires tested { matching_of (cases_at source.terms.now term) ≡ Tested }
    ensures { IfOk result (λ s. (bs : List Bind) → Writes (item_in false source.entry.own.now) source.entry.terms.now world.old bs world.new bs (match_code (item_in false source.entry.own.now) source.entry.terms.now term subject thrown next) scope continuation s) }
{
    world.scopes.go(scope)?;
    let Choices { rules, otherwise } = begin_rules(
        source,
        world,
        term,
        subject,
        thrown,
        continuation,
        next,
    )?;
    Ok(Step::Stop(End::Match {
        subject,
        rules,
        otherwise,
    }))
}

/// The rules of a term on an atom; where none is chosen, another atom is thrown.
///
/// # Errors
///
/// Want of memory.
pub fn match_on(
    source: Source,
    world: &mut World,
    term: u32,
    subject: Atom,
    thrown: Atom,
    scope: u32,
    continuation: Continuation,
    next: u32,
) -> Result<Step, NoMemory>
    requires { IsKnown source.terms.now source.facts.now }
    ensures { IfOk result (λ s. (bs : List Bind) → Writes (item_in false source.entry.own.now) source.entry.terms.now world.old bs world.new bs (match_code (item_in false source.entry.own.now) source.entry.terms.now term subject thrown next) scope continuation s) }
{
    match matching_of(cases_at(source.terms, term)) {
        Matching::Nothing => Ok(Step::Stop(End::Throw(thrown))),
        Matching::Chosen => Ok(Step::Go(Task {
            work: Work::Rule {
                term,
                at: 0,
                subject,
            },
            scope,
            continuation,
            next,
        })),
        Matching::Tested => match_tested(
            source,
            world,
            term,
            subject,
            thrown,
            scope,
            continuation,
            next,
        ),
    }
}

// A binding with tests.
fn right_tested(
    source: Source,
    world: &mut World,
    tested: &[Test],
    bound: Work,
    subject: Atom,
    scope: u32,
    continuation: Continuation,
    next: u32,
) -> Result<Step, NoMemory>
    ensures { IfOk result (λ s. (bs : List Bind) → Writes (item_in false source.entry.own.now) source.entry.terms.now world.old bs world.new bs (tested_code (item_in false source.entry.own.now) source.entry.terms.now tested.now bound subject next) scope continuation s) }
{
    world.scopes.go(scope)?;
    let _ = world.scopes.present();
    let tests = tests(source.alloc, &world.scopes, tested)?;
    let body = begin(
        world,
        Task {
            work: bound,
            scope,
            continuation,
            next,
        },
    )?;
    let otherwise = begin(
        world,
        Task {
            work: Work::Throw(Atom::Constant(Constant::Library(LibraryExn::BindExn))),
            scope,
            continuation,
            next,
        },
    )?;
    let mut rules = Row::new(source.alloc);
    rules.push(Rule { tests, body })?;
    Ok(Step::Stop(End::Match {
        subject,
        rules,
        otherwise,
    }))
}

/// The right side of a binding is there.
///
/// # Errors
///
/// Want of memory.
pub fn right(
    source: Source,
    world: &mut World,
    declaration: u32,
    at: u32,
    body: u32,
    subject: Atom,
    scope: u32,
    continuation: Continuation,
    next: u32,
) -> Result<Step, NoMemory>
    ensures { IfOk result (λ s. (bs : List Bind) → Writes (item_in false source.entry.own.now) source.entry.terms.now world.old bs world.new bs (λ σ κ. awaits_code (item_in false source.entry.own.now) source.entry.terms.now (awaits.Right declaration at body) σ κ subject next) scope continuation s) }
{
    let all = binds_at(source.terms, declaration);
    let index = at as usize;
    if index >= all.len() {
        return Err(NoMemory);
    }
    let bound = Work::Bound {
        declaration,
        at,
        body,
        subject,
    };
    let binding = &all[index];
    if binding.tests.is_empty() {
        return Ok(Step::Go(Task {
            work: bound,
            scope,
            continuation,
            next,
        }));
    }
    right_tested(
        source,
        world,
        binding.tests.items(),
        bound,
        subject,
        scope,
        continuation,
        next,
    )
}
