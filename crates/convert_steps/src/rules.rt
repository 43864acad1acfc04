//! The rules of a match.

ghost use Rattle.std.specs.Prelude.{◌≡◌, false, IfOk};
ghost use Rattle.convert_decide.specs.Decide.{item_in};
ghost use Rattle.convert_steps.specs.Codes.{cases_at};
ghost use Rattle.convert_steps.specs.Rows.{AreChoices, cases_code};
ghost use Rattle.convert_steps.specs.Source.{IsKnown};

use crate::source::{Source, cases_at};
use crate::task::{Continuation, Task, Work};
use crate::world::{World, begin};
use convert_decide::sizes::{case_size, sum};
use convert_pieces::tests;
use cps_ir::{Atom, Rule};
use smlc_base::{NoMemory, Row};

/// The rules of a match with their bodies, and the body of the last, which has no tests.
#[derive(Drop)]
pub struct Choices {
    pub rules: Row<Rule>,
    pub otherwise: u32,
}

/// Begins the rules of a term for a subject, in the present scope: up to the first without tests, or to where an atom is thrown.
///
/// # Errors
///
/// Want of memory.
pub fn begin_rules(
    source: Source,
    world: &mut World,
    term: u32,
    subject: Atom,
    thrown: Atom,
    continuation: Continuation,
    next: u32,
) -> Result<Choices, NoMemory>
    requires { IsKnown source.terms.now source.facts.now }
    ensures { IfOk result (λ c. AreChoices (item_in false source.entry.own.now) source.entry.terms.now world.old world.new world.old.scopes.present continuation (cases_code (item_in false source.entry.own.now) source.entry.terms.now (cases_at source.entry.terms.now term) subject thrown next) c) }
{
    let scope = world.scopes.present();
    let cases = cases_at(source.terms, term);
    let mut rules = Row::new(source.alloc);
    let mut later = next;
    let mut at = 0;
    for case in cases {
        let body = begin(
            world,
            Task {
                work: Work::Rule { term, at, subject },
                scope,
                continuation,
                next: later,
            },
        )?;
        if case.tests.is_empty() {
            return Ok(Choices {
                rules,
                otherwise: body,
            });
        }
        let tests = tests(source.alloc, &world.scopes, case.tests.items())?;
        rules.push(Rule { tests, body })?;
        later = sum(later, case_size(source.facts, case)?)?;
        at = sum(at, 1)?;
    }
    let otherwise = begin(
        world,
        Task {
            work: Work::Throw(thrown),
            scope,
            continuation,
            next: later,
        },
    )?;
    Ok(Choices { rules, otherwise })
}
