//! Patterns.
//!
//! Patterns nest, so a pattern calls itself for its parts. A list is one item and the rest, and is as long as the text, so its rest is a turn of a loop.

ghost use Rattle.std.specs.Prelude.{◌≡◌, IfOk, OnOk, drop};
ghost use Rattle.sml_expansion.specs.Terms.{Term, one, two, three};
ghost use Rattle.sml_expansion.specs.Sources.{IsAt};
ghost use Rattle.smlc_base.specs.declared.place.Place.{Place};
ghost use Rattle.sml_tree.specs.declared.tree_node.TreeNode.TheVariants as node;
ghost use Rattle.sml_expansion.specs.Patterns.{patterns, single, whole, vars_once};
ghost use Rattle.expand_patterns.specs.Expands.{Expands};
ghost use Rattle.expand_patterns.specs.Opens.{Opens};

use crate::closing::{
    NIL, close_applied, close_layer, close_list, close_rows, close_tuple, close_typed, keep_single,
    lone, sum,
};
use crate::forms::{Form, form_of};
use crate::identifiers::{binds, identifier};
use expand_types::labels::labels;
use expand_types::type_of;
use sml_expansion::once::{labels_once, vars_once};
use sml_expansion::{Bound, Parsed, Walk};
use sml_tree::bare::Node;
use smlc_base::{NoMemory, Place, Row};

/// The patterns of a list, one for a pattern alone. It answers how many trees they are.
#[cycle(patterns)]
pub fn patterns(
    parsed: &Parsed,
    walk: &mut Walk,
    bound: &mut Vec<Bound>,
    at: u32,
) -> Result<u32, NoMemory>
    ensures { IfOk result (λ trees. (t : Term) → IsAt parsed.now at t → Expands parsed.now.names (λ s. patterns s t) trees walk.old walk.new bound.old.items bound.new.items) }
{
    let mut trees = 0;
    let mut rest = at;
    while let Form::More = form_of(parsed.node(rest)) {
        let (first, others) = parsed.two(rest);
        let more = patterns(parsed, walk, bound, first)?;
        trees = sum(trees, more)?;
        rest = others;
    }
    let last = pattern(parsed, walk, bound, rest)?;
    sum(trees, last)
}

/// The patterns of a list, each as an item of a list pattern.
#[cycle(patterns)]
fn items(parsed: &Parsed, walk: &mut Walk, bound: &mut Vec<Bound>, at: u32) -> Result<u32, NoMemory>
    ensures { IfOk result (λ trees. (t : Term) → IsAt parsed.now at t → Opens parsed.now.names (λ s. patterns s t) trees walk.old walk.new bound.old.items bound.new.items) }
{
    let mut trees = 0;
    let mut rest = at;
    while let Form::More = form_of(parsed.node(rest)) {
        let (first, others) = parsed.two(rest);
        let more = items(parsed, walk, bound, first)?;
        trees = sum(trees, more)?;
        rest = others;
    }
    walk.open()?;
    walk.open()?;
    pattern(parsed, walk, bound, rest)?;
    sum(trees, 1)
}

/// A pattern by what its node is.
#[cycle(patterns)]
fn pattern(
    parsed: &Parsed,
    walk: &mut Walk,
    bound: &mut Vec<Bound>,
    at: u32,
) -> Result<u32, NoMemory>
    ensures { IfOk result (λ trees. (t : Term) → IsAt parsed.now at t → Expands parsed.now.names (λ s. patterns s t) trees walk.old walk.new bound.old.items bound.new.items) }
{
    let place = parsed.place(at);
    match form_of(parsed.node(at)) {
        Form::Name => identifier(parsed, walk, bound, place, parsed.ident(at)),
        Form::Int(value) => lone(walk, Node::PatInt(value), place),
        Form::Char(value) => lone(walk, Node::PatChar(value), place),
        Form::Text(text) => lone(walk, Node::PatText(text), place),
        Form::Wild => lone(walk, Node::Wild, place),
        Form::Empty => lone(walk, Node::PatRecord(Row::new(walk.allocator())), place),
        Form::EmptyList => lone(walk, Node::PatCon(NIL), place),
        Form::NamePart => identifier(parsed, walk, bound, place, parsed.ident(parsed.one(at))),
        Form::Inside => inside(parsed, walk, bound, place, parsed.one(at)),
        Form::Row => inside(parsed, walk, bound, place, parsed.two(at).1),
        Form::Items => list(parsed, walk, bound, place, parsed.one(at)),
        Form::Rows => rows(parsed, walk, bound, place, parsed.one(at)),
        Form::More => both(parsed, walk, bound, parsed.two(at)),
        Form::Tuple => tuple(parsed, walk, bound, place, parsed.two(at)),
        Form::Applied => applied(parsed, walk, bound, place, parsed.two(at)),
        Form::Infix => infix(parsed, walk, bound, place, parsed.three(at)),
        Form::Typed => typed(parsed, walk, bound, place, parsed.two(at)),
        Form::TypedRow => typed_row(parsed, walk, bound, place, parsed.two(at)),
        Form::Layered => layered(parsed, walk, bound, place, parsed.two(at)),
        Form::TypedLayered => typed_layered(parsed, walk, bound, place, parsed.three(at)),
    }
}

/// A pattern where the grammar has one.
#[cycle(patterns)]
fn inside(
    parsed: &Parsed,
    walk: &mut Walk,
    bound: &mut Vec<Bound>,
    place: Place,
    at: u32,
) -> Result<u32, NoMemory>
    ensures { IfOk result (λ trees. (a : Term) → IsAt parsed.now at a → Expands parsed.now.names (λ s. single place (patterns s a)) trees walk.old walk.new bound.old.items bound.new.items) }
{
    let from = walk.marks.len();
    let count = patterns(parsed, walk, bound, at)?;
    keep_single(walk, from, place, count)
}

/// `[ pat {, pat} ]`.
#[cycle(patterns)]
fn list(
    parsed: &Parsed,
    walk: &mut Walk,
    bound: &mut Vec<Bound>,
    place: Place,
    at: u32,
) -> Result<u32, NoMemory>
    ensures { IfOk result (λ trees. (a : Term) → IsAt parsed.now at a → Expands parsed.now.names (λ s. patterns s (one node.PatList place a)) trees walk.old walk.new bound.old.items bound.new.items) }
{
    let count = items(parsed, walk, bound, at)?;
    close_list(walk, place, count)
}

/// `{ patrow {, patrow} }`.
#[cycle(patterns)]
fn rows(
    parsed: &Parsed,
    walk: &mut Walk,
    bound: &mut Vec<Bound>,
    place: Place,
    at: u32,
) -> Result<u32, NoMemory>
    ensures { IfOk result (λ trees. (a : Term) → IsAt parsed.now at a → Expands parsed.now.names (λ s. patterns s (one node.PatRecord place a)) trees walk.old walk.new bound.old.items bound.new.items) }
{
    let labs = labels(walk.allocator(), parsed, at)?;
    labels_once(&mut walk.made, &labs)?;
    walk.open()?;
    patterns(parsed, walk, bound, at)?;
    close_rows(walk, place, labs)
}

/// A pattern and those behind it.
#[cycle(patterns)]
fn both(
    parsed: &Parsed,
    walk: &mut Walk,
    bound: &mut Vec<Bound>,
    parts: (u32, u32),
) -> Result<u32, NoMemory>
    ensures { IfOk result (λ trees. (p : Place) (a b : Term) → IsAt parsed.now parts.0 a → IsAt parsed.now parts.1 b → Expands parsed.now.names (λ s. patterns s (two node.MorePats p a b)) trees walk.old walk.new bound.old.items bound.new.items) }
{
    let first = patterns(parsed, walk, bound, parts.0)?;
    let others = patterns(parsed, walk, bound, parts.1)?;
    sum(first, others)
}

/// `( pat , pat {, pat} )`.
#[cycle(patterns)]
pub(crate) fn tuple(
    parsed: &Parsed,
    walk: &mut Walk,
    bound: &mut Vec<Bound>,
    place: Place,
    parts: (u32, u32),
) -> Result<u32, NoMemory>
    ensures { IfOk result (λ trees. (a b : Term) → IsAt parsed.now parts.0 a → IsAt parsed.now parts.1 b → Expands parsed.now.names (λ s. patterns s (two node.PatTuple place a b)) trees walk.old walk.new bound.old.items bound.new.items) }
{
    walk.open()?;
    let count = both(parsed, walk, bound, parts)?;
    close_tuple(walk, place, count)
}

/// `[op] longvid atpat`.
#[cycle(patterns)]
fn applied(
    parsed: &Parsed,
    walk: &mut Walk,
    bound: &mut Vec<Bound>,
    place: Place,
    parts: (u32, u32),
) -> Result<u32, NoMemory>
    ensures { IfOk result (λ trees. (v a : Term) → IsAt parsed.now parts.0 v → IsAt parsed.now parts.1 a → Expands parsed.now.names (λ s. patterns s (two node.ConPat place v a)) trees walk.old walk.new bound.old.items bound.new.items) }
{
    let from = walk.marks.len();
    walk.open()?;
    patterns(parsed, walk, bound, parts.1)?;
    close_applied(parsed, walk, from, place, parsed.ident(parts.0))
}

/// `pat vid pat`.
#[cycle(patterns)]
fn infix(
    parsed: &Parsed,
    walk: &mut Walk,
    bound: &mut Vec<Bound>,
    place: Place,
    parts: (u32, u32, u32),
) -> Result<u32, NoMemory>
    ensures { IfOk result (λ trees. (a v b : Term) → IsAt parsed.now parts.0 a → IsAt parsed.now parts.1 v → IsAt parsed.now parts.2 b → Expands parsed.now.names (λ s. patterns s (three node.InfixPat place a v b)) trees walk.old walk.new bound.old.items bound.new.items) }
{
    let from = walk.marks.len();
    walk.open()?;
    tuple(parsed, walk, bound, place, (parts.0, parts.2))?;
    close_applied(parsed, walk, from, place, parsed.ident(parts.1))
}

/// `pat : ty`.
#[cycle(patterns)]
fn typed(
    parsed: &Parsed,
    walk: &mut Walk,
    bound: &mut Vec<Bound>,
    place: Place,
    parts: (u32, u32),
) -> Result<u32, NoMemory>
    ensures { IfOk result (λ trees. (a t : Term) → IsAt parsed.now parts.0 a → IsAt parsed.now parts.1 t → Expands parsed.now.names (λ s. patterns s (two node.TypedPat place a t)) trees walk.old walk.new bound.old.items bound.new.items) }
{
    let ty = type_of(parsed, &walk.bindings, &mut walk.made, parts.1)?;
    walk.open()?;
    patterns(parsed, walk, bound, parts.0)?;
    close_typed(walk, place, ty)
}

/// `vid : ty` as a row.
fn typed_row(
    parsed: &Parsed,
    walk: &mut Walk,
    bound: &mut Vec<Bound>,
    place: Place,
    parts: (u32, u32),
) -> Result<u32, NoMemory>
    ensures { IfOk result (λ trees. (l t : Term) → IsAt parsed.now parts.0 l → IsAt parsed.now parts.1 t → Expands parsed.now.names (λ s. patterns s (two node.TypedPunRow place l t)) trees walk.old walk.new bound.old.items bound.new.items) }
{
    let ty = type_of(parsed, &walk.bindings, &mut walk.made, parts.1)?;
    walk.open()?;
    identifier(parsed, walk, bound, place, parsed.ident(parts.0))?;
    close_typed(walk, place, ty)
}

/// `[op] vid as pat`.
#[cycle(patterns)]
fn layered(
    parsed: &Parsed,
    walk: &mut Walk,
    bound: &mut Vec<Bound>,
    place: Place,
    parts: (u32, u32),
) -> Result<u32, NoMemory>
    ensures { IfOk result (λ trees. (v a : Term) → IsAt parsed.now parts.0 v → IsAt parsed.now parts.1 a → Expands parsed.now.names (λ s. patterns s (two node.Layered place v a)) trees walk.old walk.new bound.old.items bound.new.items) }
{
    let ident = parsed.ident(parts.0);
    let name = binds(parsed, walk, bound, ident)?;
    walk.open()?;
    patterns(parsed, walk, bound, parts.1)?;
    close_layer(parsed, walk, place, ident, name)
}

/// `[op] vid : ty as pat`.
#[cycle(patterns)]
fn typed_layered(
    parsed: &Parsed,
    walk: &mut Walk,
    bound: &mut Vec<Bound>,
    place: Place,
    parts: (u32, u32, u32),
) -> Result<u32, NoMemory>
    ensures { IfOk result (λ trees. (v t a : Term) → IsAt parsed.now parts.0 v → IsAt parsed.now parts.1 t → IsAt parsed.now parts.2 a → Expands parsed.now.names (λ s. patterns s (three node.TypedLayered place v t a)) trees walk.old walk.new bound.old.items bound.new.items) }
{
    let ident = parsed.ident(parts.0);
    let name = binds(parsed, walk, bound, ident)?;
    walk.open()?;
    typed(parsed, walk, bound, place, (parts.2, parts.1))?;
    close_layer(parsed, walk, place, ident, name)
}

/// The pattern of a rule, in which no name stands twice. It answers how many trees it is.
pub fn whole(
    parsed: &Parsed,
    walk: &mut Walk,
    bound: &mut Vec<Bound>,
    at: u32,
) -> Result<u32, NoMemory>
    ensures { IfOk result (λ trees. (t : Term) → IsAt parsed.now at t → Expands parsed.now.names (λ s. whole (patterns s t)) trees walk.old walk.new bound.old.items bound.new.items) }
{
    let from = bound.len();
    let trees = patterns(parsed, walk, bound, at)?;
    once_from(walk, bound, from)?;
    Ok(trees)
}

/// No variable stands twice among those behind the first so many.
pub fn once_from(walk: &mut Walk, bound: &[Bound], from: usize) -> Result<(), NoMemory>
    ensures { OnOk result (walk.new ≡ record walk.old { made = (vars_once (drop from bound.now) walk.old.made).1 }) }
{
    match bound.get(from..) {
        Some(vars) => vars_once(&mut walk.made, vars),
        None => vars_once(&mut walk.made, &[]),
    }
}
