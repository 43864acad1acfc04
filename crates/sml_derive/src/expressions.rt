//! Expressions and matches.

ghost use Rattle.std.specs.Prelude.{◌≡◌, IfOk, OnOk, Bool};
ghost use Rattle.sml_tree.specs.Parts.{parts_of};
ghost use Rattle.sml_expansion.specs.Terms.{Term};
ghost use Rattle.sml_expansion.specs.Sources.{IsAt, node_at};
ghost use Rattle.sml_expansion.specs.Expressions.{expressions, rules, elsewhere};
ghost use Rattle.sml_derive.specs.Forms.{sequence_of, list_of};
ghost use Rattle.sml_derive.specs.Steps.{Writes, scope, position, behind};
ghost use Rattle.sml_derive.specs.Pairs.{is_list, pair_of, match_of};

use crate::declarations::decs;
use crate::forms;
use crate::functions::fn_match;
use crate::identifiers::{Stands, atom, identifier};
use crate::number::{add, one_tree};
use crate::pairs::{self, Matched, Pair};
use crate::parts::{forget, labels, see, type_of, unsee, whole_pattern};
use sml_expansion::once::labels_once;
use sml_expansion::{Parsed, Walk};
use sml_tree::TreeNode;
use sml_tree::bare::Node;
use smlc_base::{NoMemory, Place};

/// The expressions of a list, one for an expression alone.
#[cycle(phrases)]
pub(crate) fn expression(
    parsed: &Parsed,
    walk: &mut Walk,
    stands: Stands,
    at: u32,
) -> Result<u32, NoMemory>
    ensures { IfOk result (λ trees. (t : Term) → IsAt parsed.now at t → Writes (expressions (position stands) (scope parsed.now walk.old) t) walk.old walk.new trees) }
{
    match parsed.node(at) {
        TreeNode::Paren => expression(parsed, walk, stands, parsed.one(at)),
        TreeNode::Row => {
            let (_, inner) = parsed.two(at);
            expression(parsed, walk, Stands::Elsewhere, inner)
        }
        TreeNode::MoreItems => beside(parsed, walk, at),
        TreeNode::MoreRows => beside(parsed, walk, at),
        TreeNode::MoreSeq => beside(parsed, walk, at),
        TreeNode::Andalso => pair(parsed, walk, Pair::Andalso, at),
        TreeNode::Orelse => pair(parsed, walk, Pair::Orelse, at),
        TreeNode::Case => matched(parsed, walk, Matched::Case, at),
        TreeNode::Handle => matched(parsed, walk, Matched::Handle, at),
        TreeNode::Raise => {
            let place = parsed.place(at);
            walk.open()?;
            expression(parsed, walk, Stands::Elsewhere, parsed.one(at))?;
            walk.close(Node::Raise(0), place)?;
            Ok(1)
        }
        TreeNode::Fn => {
            let place = parsed.place(at);
            walk.open()?;
            rules(parsed, walk, parsed.one(at))?;
            forms::close_fn(walk, place)?;
            Ok(1)
        }
        TreeNode::If => {
            let place = parsed.place(at);
            let (condition, first, second) = parsed.three(at);
            walk.open()?;
            expression(parsed, walk, Stands::Elsewhere, condition)?;
            forms::if_true(walk, place)?;
            expression(parsed, walk, Stands::Elsewhere, first)?;
            forms::if_false(walk, place)?;
            expression(parsed, walk, Stands::Elsewhere, second)?;
            forms::close_case(walk, place)?;
            Ok(1)
        }
        TreeNode::Apply => {
            let (function, argument) = parsed.two(at);
            match fn_match(parsed, function) {
                Some(body) => {
                    let place = parsed.place(at);
                    walk.open()?;
                    expression(parsed, walk, Stands::Elsewhere, argument)?;
                    rules(parsed, walk, body)?;
                    forms::close_case(walk, place)?;
                    Ok(1)
                }
                None => pair(parsed, walk, Pair::Apply, at),
            }
        }
        TreeNode::InfixExp => {
            let place = parsed.place(at);
            let (left, operator, right) = parsed.three(at);
            walk.open()?;
            identifier(
                parsed,
                walk,
                Stands::Applied,
                parsed.place(operator),
                parsed.ident(operator),
            )?;
            walk.open()?;
            let trees = expression(parsed, walk, Stands::Elsewhere, left)?;
            let more = expression(parsed, walk, Stands::Elsewhere, right)?;
            let all = add(trees, more)?;
            forms::close_tuple(walk, place, all)?;
            walk.close(Node::App(0, 0), place)?;
            Ok(1)
        }
        TreeNode::Tuple => {
            let place = parsed.place(at);
            let (first, rest) = parsed.two(at);
            walk.open()?;
            let trees = expression(parsed, walk, Stands::Elsewhere, first)?;
            let more = items(parsed, walk, rest)?;
            let all = add(trees, more)?;
            forms::close_tuple(walk, place, all)?;
            Ok(1)
        }
        TreeNode::Record => {
            let place = parsed.place(at);
            let rows = parsed.one(at);
            let labs = labels(parsed, walk, rows)?;
            labels_once(&mut walk.made, &labs)?;
            walk.open()?;
            items(parsed, walk, rows)?;
            forms::close_record(walk, place, labs)?;
            Ok(1)
        }
        TreeNode::List => {
            let place = parsed.place(at);
            list(parsed, walk, place, parsed.one(at))?;
            Ok(1)
        }
        TreeNode::Sequence => {
            let place = parsed.place(at);
            let (first, rest) = parsed.two(at);
            walk.open()?;
            alone(parsed, walk, first)?;
            forms::wild(walk, place)?;
            sequence(parsed, walk, place, rest)?;
            forms::close_case(walk, place)?;
            Ok(1)
        }
        TreeNode::Typed => {
            let place = parsed.place(at);
            let (inner, written) = parsed.two(at);
            let ty = type_of(parsed, walk, written)?;
            walk.open()?;
            expression(parsed, walk, Stands::Elsewhere, inner)?;
            walk.close(Node::Typed(0, ty), place)?;
            Ok(1)
        }
        TreeNode::While => {
            let place = parsed.place(at);
            let (condition, body) = parsed.two(at);
            let name = walk.made.new_name(b"v")?;
            forms::open_while(walk, place)?;
            expression(parsed, walk, Stands::Elsewhere, condition)?;
            forms::begin_turn(walk, place)?;
            alone(parsed, walk, body)?;
            forms::close_while(walk, place, name)?;
            Ok(1)
        }
        TreeNode::Let => {
            let place = parsed.place(at);
            let (declared, body) = parsed.two(at);
            let values = walk.bindings.values.len();
            let types = walk.bindings.types.len();
            let trees = decs(parsed, walk, declared)?;
            sequence(parsed, walk, place, body)?;
            forms::close_lets(walk, place, trees)?;
            forget(walk, values, types);
            Ok(1)
        }
        _ => atom(parsed, walk, stands, at),
    }
}

/// An expression and those behind it.
#[cycle(phrases)]
fn beside(parsed: &Parsed, walk: &mut Walk, at: u32) -> Result<u32, NoMemory>
    requires { is_list (node_at parsed.now at) ≡ Bool.true }
    ensures { IfOk result (λ trees. (t : Term) → IsAt parsed.now at t → Writes (expressions elsewhere (scope parsed.now walk.old) t) walk.old walk.new trees) }
{
    let (first, rest) = parsed.two(at);
    let trees = expression(parsed, walk, Stands::Elsewhere, first)?;
    let more = items(parsed, walk, rest)?;
    add(trees, more)
}

/// The expressions of a list.
#[cycle(phrases)]
fn items(parsed: &Parsed, walk: &mut Walk, at: u32) -> Result<u32, NoMemory>
    ensures { IfOk result (λ trees. (t : Term) → IsAt parsed.now at t → Writes (expressions elsewhere (scope parsed.now walk.old) t) walk.old walk.new trees) }
{
    let mut next = at;
    let mut trees = 0;
    while is_list(parsed.node(next)) {
        let (first, rest) = parsed.two(next);
        let more = expression(parsed, walk, Stands::Elsewhere, first)?;
        trees = add(trees, more)?;
        next = rest;
    }
    let more = expression(parsed, walk, Stands::Elsewhere, next)?;
    add(trees, more)
}

/// An expression, which is one tree.
#[cycle(phrases)]
fn alone(parsed: &Parsed, walk: &mut Walk, at: u32) -> Result<(), NoMemory>
    ensures { OnOk result ((t : Term) → IsAt parsed.now at t → Writes (expressions elsewhere (scope parsed.now walk.old) t) walk.old walk.new 1) }
{
    let trees = expression(parsed, walk, Stands::Elsewhere, at)?;
    one_tree(trees)
}

/// Expressions between semicolons, of which the last is kept.
#[cycle(phrases)]
fn sequence(parsed: &Parsed, walk: &mut Walk, place: Place, at: u32) -> Result<(), NoMemory>
    ensures { OnOk result ((t : Term) → IsAt parsed.now at t → Writes (sequence_of place (expressions elsewhere (scope parsed.now walk.old) t)) walk.old walk.new 1) }
{
    let mut next = at;
    let mut cases = 0;
    while is_list(parsed.node(next)) {
        let (first, rest) = parsed.two(next);
        walk.open()?;
        alone(parsed, walk, first)?;
        forms::wild(walk, place)?;
        cases = add(cases, 1)?;
        next = rest;
    }
    alone(parsed, walk, next)?;
    forms::close_cases(walk, place, cases)
}

/// The items of a list.
#[cycle(phrases)]
fn list(parsed: &Parsed, walk: &mut Walk, place: Place, at: u32) -> Result<(), NoMemory>
    ensures { OnOk result ((t : Term) → IsAt parsed.now at t → Writes (list_of place (expressions elsewhere (scope parsed.now walk.old) t)) walk.old walk.new 1) }
{
    let mut next = at;
    let mut conses = 0;
    while is_list(parsed.node(next)) {
        let (first, rest) = parsed.two(next);
        forms::open_cons(walk, place)?;
        alone(parsed, walk, first)?;
        conses = add(conses, 1)?;
        next = rest;
    }
    forms::open_cons(walk, place)?;
    alone(parsed, walk, next)?;
    forms::close_list(walk, place)?;
    forms::close_conses(walk, place, conses)
}

/// Whether it is an expression and those behind it.
fn is_list(node: TreeNode) -> bool
    ensures { result ≡ is_list node }
{
    match node {
        TreeNode::MoreItems => true,
        TreeNode::MoreRows => true,
        TreeNode::MoreSeq => true,
        _ => false,
    }
}

/// An expression of two expressions.
#[cycle(phrases)]
fn pair(parsed: &Parsed, walk: &mut Walk, form: Pair, at: u32) -> Result<u32, NoMemory>
    requires { parts_of (node_at parsed.now at) ≡ 2 }
    ensures { IfOk result (λ trees. (t : Term) → IsAt parsed.now at t → Writes (pair_of form (scope parsed.now walk.old) t) walk.old walk.new trees) }
{
    let place = parsed.place(at);
    let (first, second) = parsed.two(at);
    walk.open()?;
    expression(parsed, walk, pairs::first_of(form), first)?;
    pairs::between(walk, form, place)?;
    expression(parsed, walk, Stands::Elsewhere, second)?;
    pairs::close_pair(walk, form, place)?;
    Ok(1)
}

/// An expression of an expression and a match.
#[cycle(phrases)]
fn matched(parsed: &Parsed, walk: &mut Walk, form: Matched, at: u32) -> Result<u32, NoMemory>
    requires { parts_of (node_at parsed.now at) ≡ 2 }
    ensures { IfOk result (λ trees. (t : Term) → IsAt parsed.now at t → Writes (match_of form (scope parsed.now walk.old) t) walk.old walk.new trees) }
{
    let place = parsed.place(at);
    let (first, second) = parsed.two(at);
    walk.open()?;
    expression(parsed, walk, Stands::Elsewhere, first)?;
    rules(parsed, walk, second)?;
    pairs::close_match(walk, form, place)?;
    Ok(1)
}

/// The patterns and expressions of a match.
#[cycle(phrases)]
fn rules(parsed: &Parsed, walk: &mut Walk, at: u32) -> Result<(), NoMemory>
    ensures { OnOk result ((t : Term) → IsAt parsed.now at t → walk.new ≡ behind (rules (scope parsed.now walk.old) t) walk.old) }
{
    let mut next = at;
    while let TreeNode::MoreRules = parsed.node(next) {
        let (first, rest) = parsed.two(next);
        rule(parsed, walk, first)?;
        next = rest;
    }
    rule(parsed, walk, next)
}

/// A rule: its pattern binds variables of its expression.
#[cycle(phrases)]
fn rule(parsed: &Parsed, walk: &mut Walk, at: u32) -> Result<(), NoMemory>
    ensures { OnOk result ((t : Term) → IsAt parsed.now at t → walk.new ≡ behind (rules (scope parsed.now walk.old) t) walk.old) }
{
    match parsed.node(at) {
        TreeNode::Rule => {
            let (pattern, body) = parsed.two(at);
            let around = walk.bindings.values.len();
            let vars = whole_pattern(parsed, walk, pattern)?;
            see(walk, &vars)?;
            expression(parsed, walk, Stands::Elsewhere, body)?;
            unsee(walk, around);
            Ok(())
        }
        TreeNode::MoreRules => {
            let (first, rest) = parsed.two(at);
            rule(parsed, walk, first)?;
            rules(parsed, walk, rest)
        }
        _ => Ok(()),
    }
}
