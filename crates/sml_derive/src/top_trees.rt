//! The declarations of the top level, with whether their variables are shown.

ghost use Rattle.std.specs.Prelude.{◌≡◌, ◌++◌, IfOk, OnOk, [], true, List};
ghost use Rattle.sml_expansion.specs.Terms.{Term};
ghost use Rattle.sml_expansion.specs.Sources.{IsAt};
ghost use Rattle.sml_expansion.specs.Expressions.{decs};
ghost use Rattle.sml_derive.specs.Steps.{scope};
ghost use Rattle.sml_derive.specs.Tops.{so_many, Shows, trees_of, IsTop, IsLibraryTop, AreTops, StandBefore, AreAt};

use crate::declarations::decs;
use crate::parts::hide;
use sml_expansion::{Parsed, Walk};
use sml_tree::TreeNode;
use smlc_base::{NoMemory, Place};
use std::alloc::Global;

/// A declaration tree of the top level: the place of its declaration, whether it is the declaration's first tree, and whether its variables are shown.
#[derive(Clone, Copy, PartialEq, Eq, Debug)]
pub(crate) struct TopTree {
    pub place: Place,
    pub first: bool,
    pub shown: bool,
}

/// The declarations of a program, behind those of the library.
pub(crate) fn tops(
    alloc: Global,
    parsed: &Parsed,
    walk: &mut Walk,
    trees: &mut Vec<TopTree>,
    decs: &[u32],
) -> Result<(), NoMemory>
    ensures { OnOk result ((terms : List Term) → AreAt parsed.now decs.now terms → AreTops parsed.now terms walk.old walk.new trees.old.items trees.new.items) }
{
    for at in decs {
        top(alloc, parsed, walk, trees, *at)?;
    }
    Ok(())
}

/// The declarations of the library.
pub(crate) fn library_tops(
    alloc: Global,
    parsed: &Parsed,
    walk: &mut Walk,
    decs: &[u32],
) -> Result<Vec<TopTree>, NoMemory>
    ensures { IfOk result (λ trees. (terms : List Term) → AreAt parsed.now decs.now terms → StandBefore parsed.now terms walk.old walk.new [] trees.items) }
{
    let mut trees = Vec::new(alloc);
    for at in decs {
        library_top(alloc, parsed, walk, &mut trees, *at)?;
    }
    Ok(trees)
}

/// A declaration of the library: none of its trees is shown.
fn library_top(
    alloc: Global,
    parsed: &Parsed,
    walk: &mut Walk,
    trees: &mut Vec<TopTree>,
    at: u32,
) -> Result<(), NoMemory>
    ensures { OnOk result ((t : Term) → IsAt parsed.now at t → IsLibraryTop parsed.now t walk.old walk.new trees.old.items trees.new.items) }
{
    let place = parsed.place(at);
    let count = decs(parsed, walk, at)?;
    let mut shown = Vec::new(alloc);
    note(&mut shown, count, false)?;
    keep(trees, place, &shown)
}

/// A declaration of the top level.
fn top(
    alloc: Global,
    parsed: &Parsed,
    walk: &mut Walk,
    trees: &mut Vec<TopTree>,
    at: u32,
) -> Result<(), NoMemory>
    ensures { OnOk result ((t : Term) → IsAt parsed.now at t → IsTop parsed.now t walk.old walk.new trees.old.items trees.new.items) }
{
    let place = parsed.place(at);
    let mut shown = Vec::new(alloc);
    shown_dec(parsed, walk, &mut shown, at)?;
    keep(trees, place, &shown)
}

/// The trees of a declaration are kept.
fn keep(trees: &mut Vec<TopTree>, place: Place, shown: &[bool]) -> Result<(), NoMemory>
    ensures { OnOk result (trees.new.items ≡ trees.old.items ++ trees_of true place shown.now) }
{
    let mut first = true;
    for each in shown {
        trees.push(TopTree {
            place,
            first,
            shown: *each,
        })?;
        first = false;
    }
    Ok(())
}

/// The declarations of a sequence, and which of their trees are shown.
#[cycle(shown)]
fn shown_decs(
    parsed: &Parsed,
    walk: &mut Walk,
    shown: &mut Vec<bool>,
    at: u32,
) -> Result<(), NoMemory>
    ensures { OnOk result ((t : Term) → IsAt parsed.now at t → Shows (decs (scope parsed.now walk.old) t) walk.old walk.new shown.old.items shown.new.items) }
{
    let mut next = at;
    while let TreeNode::MoreDecs = parsed.node(next) {
        let (first, rest) = parsed.two(next);
        shown_dec(parsed, walk, shown, first)?;
        next = rest;
    }
    shown_dec(parsed, walk, shown, next)
}

/// A declaration, and which of its trees are shown: of a `local` those of the second part.
#[cycle(shown)]
fn shown_dec(
    parsed: &Parsed,
    walk: &mut Walk,
    shown: &mut Vec<bool>,
    at: u32,
) -> Result<(), NoMemory>
    ensures { OnOk result ((t : Term) → IsAt parsed.now at t → Shows (decs (scope parsed.now walk.old) t) walk.old walk.new shown.old.items shown.new.items) }
{
    match parsed.node(at) {
        TreeNode::MoreDecs => {
            let (first, rest) = parsed.two(at);
            shown_decs(parsed, walk, shown, first)?;
            shown_decs(parsed, walk, shown, rest)
        }
        TreeNode::Local => {
            let (inner, outer) = parsed.two(at);
            let values = walk.bindings.values.len();
            let types = walk.bindings.types.len();
            let trees = decs(parsed, walk, inner)?;
            note(shown, trees, false)?;
            let inner_values = walk.bindings.values.len();
            let inner_types = walk.bindings.types.len();
            shown_decs(parsed, walk, shown, outer)?;
            hide(walk, values, inner_values, types, inner_types)
        }
        _ => {
            let trees = decs(parsed, walk, at)?;
            note(shown, trees, true)
        }
    }
}

/// So many trees are shown, or aren't.
fn note(shown: &mut Vec<bool>, trees: u32, each: bool) -> Result<(), NoMemory>
    ensures { OnOk result (shown.new.items ≡ shown.old.items ++ so_many trees each) }
{
    for _ in 0..trees {
        shown.push(each)?;
    }
    Ok(())
}
