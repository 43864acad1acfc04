//! Where the declarations of the top level stand in the bare tree.

ghost use Rattle.std.specs.Prelude.{◌≡◌, ◌∷◌, ◌++◌, IfOk, OnOk, [], ℕ, List, slice_get, Some, ◌&&◌, if◌then◌else◌};
ghost use Rattle.smlc_base.specs.declared.place.Place.{Place};
ghost use Rattle.sml_tree.specs.declared.bare.Node.TheVariants as bare;
ghost use Rattle.sml_tree.specs.IsBare.{is_value};
ghost use Rattle.sml_expansion.specs.Forests.{numbered};
ghost use Rattle.sml_expansion.specs.Programs.{Top, program, lets, all_shown};
ghost use Rattle.sml_derive.specs.Tops.{all_trees, AreKnown};

use crate::top_trees::TopTree;
use sml_tree::bare::Node;
use smlc_base::{NoMemory, Row};
use std::alloc::Global;

/// The outermost `Let` of each declaration, and the value declarations that are shown.
#[derive(Drop)]
pub(crate) struct Outline {
    pub decs: Row<u32>,
    pub shown: Row<u32>,
}

/// Goes along the nest of the `Let` nodes, of which there is one for each declaration tree.
pub(crate) fn outline_of(
    alloc: Global,
    nodes: &[Node],
    trees: &[TopTree],
) -> Result<Outline, NoMemory>
    ensures { IfOk result (λ outline. (end : Place) (tops : List Top) → AreKnown tops → nodes.now ≡ numbered 0 (program end tops) → trees.now ≡ all_trees tops → (outline.decs ≡ lets 0 tops) × (outline.shown ≡ all_shown 0 tops)) }
{
    let mut decs = Row::new(alloc);
    let mut shown = Row::new(alloc);
    let mut at = 0;
    for tree in trees {
        let (dec, rest) = parts_of_let(nodes, at);
        push_if(&mut decs, tree.first, at)?;
        push_if(&mut shown, is_shown(nodes, tree, dec), dec)?;
        at = rest;
    }
    Ok(Outline { decs, shown })
}

/// The parts of the `Let` of a number.
fn parts_of_let(nodes: &[Node], at: u32) -> (u32, u32)
    ensures { (dec rest : ℕ) → slice_get nodes.now at ≡ Some (bare.Let dec rest) → (result.0 ≡ dec) × (result.1 ≡ rest) }
{
    match nodes.get(at as usize) {
        Some(Node::Let(dec, rest)) => (*dec, *rest),
        _ => (0, 0),
    }
}

/// Whether a declaration tree is shown and is a value declaration.
fn is_shown(nodes: &[Node], tree: &TopTree, dec: u32) -> bool
    ensures { result ≡ (tree.now.shown && is_value (slice_get nodes.now dec)) }
{
    tree.shown && is_value(nodes, dec)
}

/// Whether a node is a value declaration.
fn is_value(nodes: &[Node], at: u32) -> bool
    ensures { result ≡ is_value (slice_get nodes.now at) }
{
    match nodes.get(at as usize) {
        Some(Node::Val(_, _)) => true,
        Some(Node::ValRec(_, _)) => true,
        _ => false,
    }
}

/// The number is put last, if it is wanted.
fn push_if(numbers: &mut Row<u32>, wanted: bool, number: u32) -> Result<(), NoMemory>
    ensures { OnOk result (numbers.new ≡ numbers.old ++ (if wanted then number ∷ [] else [])) }
{
    if wanted {
        numbers.push(number)?;
    }
    Ok(())
}
