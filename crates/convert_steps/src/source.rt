//! The program that is converted, with what is known of its terms.

ghost use Rattle.std.specs.Prelude.{◌≡◌, false};
ghost use Rattle.convert_laws.specs.Convert.{fields_taken};
ghost use Rattle.convert_decide.specs.Decide.{item_in};
ghost use Rattle.convert_steps.specs.Codes.{cases_at, parts_at, binds_at};

use convert_decide::Fact;
use lambda_ir::{Bind, Case, Part, Term};
use smlc_base::{NoMemory, Primitive};
use std::alloc::Global;

/// The terms of a program, with what is known of each, and whether its value comes to a function of its own.
#[derive(Clone, Copy)]
pub struct Source<'a> {
    pub alloc: Global,
    pub terms: &'a [Term],
    pub facts: &'a [Fact],
    pub own: &'a [bool],
}

/// Whether the value of a term comes to a function of its own.
pub fn is_own(own: &[bool], term: u32) -> bool
    ensures { result ≡ item_in false own.now term }
{
    match own.get(term as usize) {
        Some(flag) => *flag,
        None => false,
    }
}

/// The rules of a term.
pub fn cases_at<'a>(terms: &'a [Term], term: u32) -> &'a [Case]
    ensures { result.now ≡ cases_at terms.now term }
{
    match terms.get(term as usize) {
        Some(Term::Match(_, cases)) => cases.items(),
        Some(Term::Fn(cases)) => cases.items(),
        Some(Term::Handle(_, cases)) => cases.items(),
        _ => &[],
    }
}

/// The parts of a tuple.
pub fn parts_at<'a>(terms: &'a [Term], term: u32) -> &'a [Part]
    ensures { result.now ≡ parts_at terms.now term }
{
    match terms.get(term as usize) {
        Some(Term::Tuple(parts)) => parts.items(),
        _ => &[],
    }
}

/// The bindings of a declaration.
pub fn binds_at<'a>(terms: &'a [Term], term: u32) -> &'a [Bind]
    ensures { result.now ≡ binds_at terms.now term }
{
    match terms.get(term as usize) {
        Some(Term::Binds(binds)) => binds.items(),
        _ => &[],
    }
}

/// How many fields a primitive takes of a tuple.
pub fn fields_taken(primitive: Primitive) -> u32
    ensures { result ≡ fields_taken primitive }
{
    match primitive {
        Primitive::Substring => 3,
        _ => 2,
    }
}
