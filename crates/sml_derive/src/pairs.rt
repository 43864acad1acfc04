//! Expressions with two parts.

ghost use Rattle.std.specs.Prelude.{◌≡◌, OnOk};
ghost use Rattle.sml_derive.specs.Steps.{marked};
ghost use Rattle.sml_derive.specs.Pairs.{first_of, between, behind_pair, behind_match};

use crate::forms;
use crate::identifiers::Stands;
use sml_expansion::Walk;
use sml_tree::bare::Node;
use smlc_base::{NoMemory, Place};

/// An expression of two expressions.
#[derive(Clone, Copy, PartialEq, Eq, Debug)]
pub(crate) enum Pair {
    Apply,
    Andalso,
    Orelse,
}

/// An expression of an expression and a match.
#[derive(Clone, Copy, PartialEq, Eq, Debug)]
pub(crate) enum Matched {
    Case,
    Handle,
}

/// How the first part stands.
pub(crate) fn first_of(pair: Pair) -> Stands
    ensures { result ≡ first_of pair }
{
    match pair {
        Pair::Apply => Stands::Applied,
        Pair::Andalso => Stands::Elsewhere,
        Pair::Orelse => Stands::Elsewhere,
    }
}

/// Between the parts.
pub(crate) fn between(walk: &mut Walk, pair: Pair, place: Place) -> Result<(), NoMemory>
    ensures { OnOk result (walk.new ≡ marked (between pair place) walk.old) }
{
    match pair {
        Pair::Apply => Ok(()),
        Pair::Andalso => walk.leaf(Node::PatCon(forms::TRUE), place),
        Pair::Orelse => forms::or_true(walk, place),
    }
}

/// Behind the parts.
pub(crate) fn close_pair(walk: &mut Walk, pair: Pair, place: Place) -> Result<(), NoMemory>
    ensures { OnOk result (walk.new ≡ marked (behind_pair pair place) walk.old) }
{
    match pair {
        Pair::Apply => walk.close(Node::App(0, 0), place),
        Pair::Andalso => forms::close_andalso(walk, place),
        Pair::Orelse => forms::close_case(walk, place),
    }
}

/// Behind an expression and its match.
pub(crate) fn close_match(walk: &mut Walk, form: Matched, place: Place) -> Result<(), NoMemory>
    ensures { OnOk result (walk.new ≡ marked (behind_match form place) walk.old) }
{
    match form {
        Matched::Case => forms::close_case(walk, place),
        Matched::Handle => forms::close_handle(walk, place),
    }
}
