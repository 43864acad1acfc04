//! What is asked of each term, by number.

ghost use Rattle.std.specs.Prelude.{◌≡◌, IfOk, length};
ghost use Rattle.convert_laws.specs.Facts.{AreNumbered};
ghost use Rattle.convert_laws.specs.Needs.{is_atom_term, is_tuple_term, head_term, calls, live, in_two, needs_term};
ghost use Rattle.convert_decide.specs.Table.{nothing_known, fact_in, fact_by, AreFacts};

use crate::sizes::term_size;
use convert_laws::Head;
use lambda_ir::{Case, Term};
use smlc_base::{NoMemory, Primitive, Row};
use std::alloc::Global;

/// What is asked of a term.
#[derive(Clone, Copy)]
pub struct Fact {
    /// It is no more than a name or a constant.
    pub is_atom: bool,
    /// It is a written tuple.
    pub is_tuple: bool,
    /// What it is as a function part.
    pub head: Head,
    /// Its continuation is wanted as an atom.
    pub needs: bool,
    /// How many variables it takes at most.
    pub size: u32,
}

// What there is to know of a term that doesn't stand.
fn none_known() -> Fact
    ensures { result ≡ nothing_known }
{
    Fact {
        is_atom: false,
        is_tuple: false,
        head: Head::Computed,
        needs: false,
        size: 0,
    }
}

/// What is known of a term.
pub fn fact_in(facts: &[Fact], term: u32) -> Fact
    ensures { result ≡ fact_in facts.now term }
{
    match facts.get(term as usize) {
        Some(fact) => *fact,
        None => none_known(),
    }
}

fn is_atom(facts: &[Fact], term: &Term) -> bool
    ensures { result ≡ is_atom_term (λ c. (fact_in facts.now c).is_atom) term.now }
{
    match term {
        Term::Int(_) => true,
        Term::Char(_) => true,
        Term::Text(_) => true,
        Term::Var(_) => true,
        Term::Constructor(_) => true,
        Term::Builtin(_) => true,
        Term::Same(e) => fact_in(facts, *e).is_atom,
        _ => false,
    }
}

fn is_tuple(facts: &[Fact], term: &Term) -> bool
    ensures { result ≡ is_tuple_term (λ c. (fact_in facts.now c).is_tuple) term.now }
{
    match term {
        Term::Tuple(_) => true,
        Term::Same(e) => fact_in(facts, *e).is_tuple,
        _ => false,
    }
}

fn head(facts: &[Fact], term: &Term) -> Head
    ensures { result ≡ head_term (λ c. (fact_in facts.now c).head) term.now }
{
    match term {
        Term::Builtin(f) => Head::Builtin(*f),
        Term::Constructor(c) => Head::Constructor(*c),
        Term::Same(e) => fact_in(facts, *e).head,
        _ => Head::Computed,
    }
}

fn calls(head: Head) -> bool
    ensures { result ≡ calls head }
{
    match head {
        Head::Computed => true,
        Head::Builtin(Primitive::Equal) => true,
        Head::Builtin(Primitive::Unequal) => true,
        _ => false,
    }
}

fn rules_need(facts: &[Fact], cases: &[Case]) -> bool
    ensures { result ≡ in_two (λ c. (fact_in facts.now c).needs) (live cases.now) }
{
    match cases {
        [] => false,
        [case] => fact_in(facts, case.body).needs,
        [case, _, ..] => match case.tests.items() {
            [] => fact_in(facts, case.body).needs,
            _ => true,
        },
    }
}

fn needs(facts: &[Fact], term: &Term) -> bool
    ensures { result ≡ needs_term (λ c. (fact_in facts.now c).head) (λ c. (fact_in facts.now c).needs) term.now }
{
    match term {
        Term::App(f, _) => calls(fact_in(facts, *f).head),
        Term::Match(_, cases) => rules_need(facts, cases.items()),
        Term::Handle(_, _) => true,
        Term::Same(e) => fact_in(facts, *e).needs,
        Term::Let(_, body) => fact_in(facts, *body).needs,
        _ => false,
    }
}

// What is known of a term, from what is known of its parts.
fn fact_by(facts: &[Fact], term: &Term) -> Result<Fact, NoMemory>
    ensures { IfOk result (λ f. f ≡ fact_by (fact_in facts.now) term.now) }
{
    let size = term_size(facts, term)?;
    Ok(Fact {
        is_atom: is_atom(facts, term),
        is_tuple: is_tuple(facts, term),
        head: head(facts, term),
        needs: needs(facts, term),
        size,
    })
}

// As many of which nothing is known.
fn none_of(alloc: Global, count: usize) -> Result<Row<Fact>, NoMemory>
    ensures { IfOk result (λ r. length r ≡ count) }
{
    let mut found = Row::new(alloc);
    for _ in 0..count {
        found.push(none_known())?;
    }
    Ok(found)
}

/// What is known of each term, by number.
///
/// # Errors
///
/// Want of memory, also where a program takes more variables than there are numbers for.
pub fn facts(alloc: Global, terms: &[Term]) -> Result<Row<Fact>, NoMemory>
    requires { AreNumbered terms.now }
    ensures { IfOk result (AreFacts terms.now) }
{
    let mut found = none_of(alloc, terms.len())?;
    let mut at = terms.len();
    while at > 0 {
        at -= 1;
        let fact = fact_by(found.items(), &terms[at])?;
        found.set(at, fact);
    }
    Ok(found)
}
