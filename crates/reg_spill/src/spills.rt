//! The words of spill records.

ghost use Rattle.std.specs.Prelude.{◌≡◌, ℕ, IfOk};
ghost use Rattle.placed_ir.specs.Program as placing;
ghost use Rattle.place_laws.specs.Place.{greater, home_spills, spills};
ghost use Rattle.place_bodies.specs.Steps.{at_of};
ghost use Rattle.place_bodies.proofs.Unfold.{AreNumbered};
ghost use Rattle.reg_spill.specs.Spills.{step_spills, steps_spills, rules_spills, end_spills, body_spills};

use crate::homes::at;
use crate::program::zeros;
use crate::words::sum;
use placed_ir::{Body, End, Home, Rule, Step};
use smlc_base::NoMemory;
use std::alloc::Global;

/// The greater of two numbers.
pub(crate) fn greater_of(m: u32, n: u32) -> u32
    ensures { result ≡ greater m n }
{
    if m < n { n } else { m }
}

fn home_words(home: Home) -> Result<u32, NoMemory>
    ensures { IfOk result (λ n. n ≡ home_spills home) }
{
    match home {
        Home::Register(_) => Ok(0),
        Home::Spill(i) => sum(i, 1),
    }
}

fn step_words(step: &Step) -> Result<u32, NoMemory>
    ensures { IfOk result (λ n. n ≡ step_spills step.now) }
{
    match step {
        Step::Name { home, .. } => home_words(*home),
        Step::Let { home, .. } => home_words(*home),
        Step::Take(home) => home_words(*home),
        Step::Handler(home) => home_words(*home),
        Step::Make(_) => Ok(0),
        Step::Prim { .. } => Ok(0),
        Step::SetHandler(_) => Ok(0),
    }
}

fn steps_words(steps: &[Step], last: u32) -> Result<u32, NoMemory>
    ensures { IfOk result (λ n. n ≡ steps_spills steps.now last) }
{
    let mut most = last;
    let mut i = steps.len();
    while i > 0 {
        i -= 1;
        most = greater_of(step_words(&steps[i])?, most);
    }
    Ok(most)
}

fn rules_words(rules: &[Rule], table: &[u32], last: u32) -> u32
    ensures { result ≡ rules_spills (at_of table.now) rules.now last }
{
    let mut most = last;
    let mut i = rules.len();
    while i > 0 {
        i -= 1;
        most = greater_of(at(table, rules[i].body), most);
    }
    most
}

fn end_words(end: &End, table: &[u32]) -> u32
    ensures { result ≡ end_spills (at_of table.now) end.now }
{
    match end {
        End::Match {
            rules,
            otherwise,
            ..
        } => rules_words(rules.items(), table, at(table, *otherwise)),
        _ => 0,
    }
}

fn body_words(body: &Body, table: &[u32]) -> Result<u32, NoMemory>
    ensures { IfOk result (λ n. n ≡ body_spills (at_of table.now) body.now) }
{
    let last = end_words(&body.end, table);
    steps_words(body.steps.items(), last)
}

/// How many words of its spill record each body writes, by number.
pub fn spilled(alloc: Global, bodies: &[Body]) -> Result<Vec<u32>, NoMemory>
    requires { AreNumbered bodies.now }
    ensures { IfOk result (λ v. (i : ℕ) → at_of v.items i ≡ spills (placing.code_at bodies.now i)) }
{
    let mut table = zeros(alloc, bodies.len())?;
    let mut i = bodies.len();
    while i > 0 {
        i -= 1;
        let words = body_words(&bodies[i], table.as_slice())?;
        table[i] = words;
    }
    Ok(table)
}
