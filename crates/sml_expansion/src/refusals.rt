//! The least of the refusals that are found.

ghost use Rattle.std.specs.Prelude.{◌≡◌};
ghost use Rattle.sml_expansion.specs.Refusals.{place_before, same_place, refusal_before, kept};

use smlc_base::{Place, Refusal};

fn place_before(left: Place, right: Place) -> bool
    ensures { result ≡ place_before left right }
{
    left.file < right.file
        || (left.file == right.file
            && (left.line < right.line || (left.line == right.line && left.col < right.col)))
}

fn same_place(left: Place, right: Place) -> bool
    ensures { result ≡ same_place left right }
{
    left.file == right.file && left.line == right.line && left.col == right.col
}

/// Whether a refusal comes before another: by place, then by number.
pub fn refusal_before(left: &Refusal, right: &Refusal) -> bool
    ensures { result ≡ refusal_before left.now right.now }
{
    place_before(left.place(), right.place())
        || (same_place(left.place(), right.place()) && left.number() < right.number())
}

/// The least refusal so far, and one more.
pub fn keep(least: Option<Refusal>, refusal: Refusal) -> Option<Refusal>
    ensures { result ≡ kept least refusal }
{
    match least {
        None => Some(refusal),
        Some(least) => {
            if refusal_before(&refusal, &least) {
                Some(refusal)
            } else {
                Some(least)
            }
        }
    }
}
