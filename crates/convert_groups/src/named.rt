//! Which function a term is.

ghost use Rattle.std.specs.Prelude.{◌≡◌};
ghost use Rattle.convert_laws.specs.Facts.{AreNumbered};
ghost use Rattle.convert_groups.specs.Groups.{function_number, stands_for, own_number};

use lambda_ir::Term;

/// The number of the function that a term is, behind terms that stand in its place.
pub fn function_number(terms: &[Term], term: u32) -> Option<u32>
    requires { AreNumbered terms.now }
    ensures { result ≡ function_number terms.now term }
{
    let mut at = term;
    while let Some(inner) = stands_for(terms, at) {
        at = inner;
    }
    own_number(terms, at)
}

// The term that stands in the place of another, if it does.
fn stands_for(terms: &[Term], term: u32) -> Option<u32>
    ensures { result ≡ stands_for terms.now term }
{
    match terms.get(term as usize) {
        Some(Term::Same(inner)) => Some(*inner),
        _ => None,
    }
}

fn own_number(terms: &[Term], term: u32) -> Option<u32>
    ensures { result ≡ own_number terms.now term }
{
    match terms.get(term as usize) {
        Some(Term::Fn(_)) => Some(term),
        _ => None,
    }
}
