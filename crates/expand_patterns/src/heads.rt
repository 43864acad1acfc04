//! Heads of clauses, and their arguments.

ghost use Rattle.std.specs.Prelude.{◌≡◌, IfOk};
ghost use Rattle.sml_expansion.specs.Terms.{Term};
ghost use Rattle.sml_expansion.specs.Sources.{IsAt};
ghost use Rattle.sml_expansion.specs.Patterns.{whole};
ghost use Rattle.sml_expansion.specs.Clauses.{head, first_clause, name_of, patterns_in, arguments_in, infix_argument, arguments};
ghost use Rattle.expand_patterns.specs.Expands.{Expands};

use crate::closing::sum;
use crate::patterns::{once_from, patterns, tuple};
use sml_expansion::{Bound, Parsed, Walk};
use sml_tree::TreeNode;
use smlc_base::NoMemory;

/// The head of a clause.
pub fn head(parsed: &Parsed, at: u32) -> u32
    ensures { (t : Term) → IsAt parsed.now at t → IsAt parsed.now result (head t) }
{
    match parsed.node(at) {
        TreeNode::Clause => parsed.two(at).0,
        TreeNode::TypedClause => parsed.three(at).0,
        _ => at,
    }
}

/// The first clause of a function.
pub fn first_clause(parsed: &Parsed, at: u32) -> u32
    ensures { (t : Term) → IsAt parsed.now at t → IsAt parsed.now result (first_clause t) }
{
    let mut first = at;
    while let TreeNode::MoreClauses = parsed.node(first) {
        first = parsed.two(first).0;
    }
    first
}

/// The name that a head is for.
pub fn name_of(parsed: &Parsed, at: u32) -> u32
    ensures { (t : Term) → IsAt parsed.now at t → IsAt parsed.now result (name_of t) }
{
    match parsed.node(at) {
        TreeNode::Head => parsed.two(at).0,
        TreeNode::InfixHead => parsed.three(at).1,
        TreeNode::ParenHead => parsed.three(at).1,
        TreeNode::ParenHeadArgs => parsed.four(at).1,
        _ => at,
    }
}

/// How many patterns stand in a list.
fn patterns_in(parsed: &Parsed, at: u32) -> Result<u32, NoMemory>
    ensures { IfOk result (λ count. (t : Term) → IsAt parsed.now at t → count ≡ patterns_in t) }
{
    let mut count = 0;
    let mut rest = at;
    while let TreeNode::MoreAtpats = parsed.node(rest) {
        let (first, others) = parsed.two(rest);
        let more = patterns_in(parsed, first)?;
        count = sum(count, more)?;
        rest = others;
    }
    sum(count, 1)
}

/// How many arguments a head has.
pub fn arguments_in(parsed: &Parsed, at: u32) -> Result<u32, NoMemory>
    ensures { IfOk result (λ count. (t : Term) → IsAt parsed.now at t → count ≡ arguments_in t) }
{
    match parsed.node(at) {
        TreeNode::Head => patterns_in(parsed, parsed.two(at).1),
        TreeNode::ParenHeadArgs => {
            let others = patterns_in(parsed, parsed.four(at).3)?;
            sum(1, others)
        }
        _ => Ok(1),
    }
}

/// The argument of an infix head: a pair.
fn infix_argument(
    parsed: &Parsed,
    walk: &mut Walk,
    bound: &mut Vec<Bound>,
    left: u32,
    right: u32,
) -> Result<u32, NoMemory>
    ensures { IfOk result (λ trees. (a b : Term) → IsAt parsed.now left a → IsAt parsed.now right b → Expands parsed.now.names (λ s. infix_argument s a b) trees walk.old walk.new bound.old.items bound.new.items) }
{
    tuple(parsed, walk, bound, parsed.place(left), (left, right))
}

/// The arguments of a head. It answers how many trees they are.
pub fn arguments(
    parsed: &Parsed,
    walk: &mut Walk,
    bound: &mut Vec<Bound>,
    at: u32,
) -> Result<u32, NoMemory>
    ensures { IfOk result (λ trees. (t : Term) → IsAt parsed.now at t → Expands parsed.now.names (λ s. arguments s t) trees walk.old walk.new bound.old.items bound.new.items) }
{
    match parsed.node(at) {
        TreeNode::Head => patterns(parsed, walk, bound, parsed.two(at).1),
        TreeNode::InfixHead => {
            let (left, _, right) = parsed.three(at);
            infix_argument(parsed, walk, bound, left, right)
        }
        TreeNode::ParenHead => {
            let (left, _, right) = parsed.three(at);
            infix_argument(parsed, walk, bound, left, right)
        }
        TreeNode::ParenHeadArgs => {
            let (left, _, right, others) = parsed.four(at);
            let first = infix_argument(parsed, walk, bound, left, right)?;
            let more = patterns(parsed, walk, bound, others)?;
            sum(first, more)
        }
        _ => Ok(0),
    }
}

/// The arguments of a head, in which no name stands twice.
pub fn whole_arguments(
    parsed: &Parsed,
    walk: &mut Walk,
    bound: &mut Vec<Bound>,
    at: u32,
) -> Result<u32, NoMemory>
    ensures { IfOk result (λ trees. (t : Term) → IsAt parsed.now at t → Expands parsed.now.names (λ s. whole (arguments s t)) trees walk.old walk.new bound.old.items bound.new.items) }
{
    let from = bound.len();
    let trees = arguments(parsed, walk, bound, at)?;
    once_from(walk, bound, from)?;
    Ok(trees)
}
