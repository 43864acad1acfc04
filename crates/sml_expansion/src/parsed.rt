//! The parse tree with where its trees begin, and what its names stand for before the program.

ghost use Rattle.std.specs.Prelude.{◌≡◌, ◌&&◌, ◌<◌, ◌≤◌, ◌-◌, IfOk, get_or};
ghost use Rattle.smlc_base.specs.declared.place.Place.{Place};
ghost use Rattle.sml_tree.specs.declared.tree_node.TreeNode.{TreeNode};
ghost use Rattle.sml_tree.specs.Parts.{parts_of};
ghost use Rattle.sml_tree.specs.Width.{is_user};
ghost use Rattle.sml_expansion.specs.Terms.{Term, leaf, one, two, three, four, place_at};
ghost use Rattle.sml_expansion.specs.Sources.{IsAt, node_at};
ghost use Rattle.sml_expansion.specs.Starts.{starts_of};
ghost use Rattle.sml_expansion.specs.Scopes.{text_of, equals, key_of, is_long, ident, scope_of, meaning_of, type_meaning_of};

use crate::base::{base_type, base_value};
use crate::meaning::{Meaning, TypeMeaning};
use crate::number::{number, number_at};
use crate::scope::{Bindings, Ident};
use crate::starts::starts;
use sml_tree::{Tree, TreeNode};
use smlc_base::{Name, Names, NoMemory, Place};
use std::alloc::Global;
use std::marker::Model;

/// A parse tree, whose nodes are read by number.
#[derive(Drop)]
pub struct Parsed<'a> {
    tree: &'a Tree,
    /// The names of the program, which go on where the tree's end.
    names: &'a Names,
    /// How many nodes stand before the tree of each node.
    starts_at: Vec<u32>,
    /// The number of `=`.
    equals_key: u32,
}

impl<'a> Model for Parsed<'a> {
    ghost use Rattle.std.specs.Prelude.{◌≡◌};
    ghost use Rattle.sml_expansion.specs.Sources.{Source};

    ghost Value = { Source };

    ghost use Rattle.sml_expansion.specs.Starts.{starts_of};
    ghost use Rattle.sml_expansion.specs.Scopes.{equals};

    ghost view = { λ p. record { names = p.names.now; nodes = p.tree.now.nodes; places = p.tree.now.places } };

    ghost invariant = { λ p. (p.starts_at.items ≡ starts_of p.tree.now.nodes) × (p.equals_key ≡ equals p.names.now) };
}

impl<'a> Parsed<'a> {
    /// A tree, whose names are read in these.
    pub fn new(alloc: Global, tree: &'a Tree, names: &'a Names) -> Result<Parsed<'a>, NoMemory>
        ensures { IfOk result (λ parsed. parsed ≡ record { names = names.now; nodes = tree.now.nodes; places = tree.now.places }) }
    {
        Ok(Parsed {
            tree,
            names,
            starts_at: starts(alloc, tree.nodes.items())?,
            equals_key: equals(names)?,
        })
    }

    /// The node of a number.
    pub fn node(&self, at: u32) -> TreeNode
        ensures { result ≡ node_at self.now at }
    {
        match self.tree.nodes.items().get(at as usize) {
            Some(node) => *node,
            None => TreeNode::NoDecs,
        }
    }

    /// The place of the first token of a tree.
    pub fn place(&self, at: u32) -> Place
        ensures { (t : Term) → IsAt self.now at t → result ≡ place_at t }
    {
        match self.tree.places.items().get(at as usize) {
            Some(place) => *place,
            None => Place {
                file: 0,
                line: 1,
                col: 1,
            },
        }
    }

    /// The part of a tree that has one.
    pub fn one(&self, at: u32) -> u32
        ensures part { (n : TreeNode) (p : Place) (a : Term) → IsAt self.now at (one n p a) → IsAt self.now result a }
        ensures below { parts_of (node_at self.now at) ≡ 1 → result < at }
    {
        let _ = &self.tree;
        at.saturating_sub(1)
    }

    /// The parts of a tree that has two.
    pub fn two(&self, at: u32) -> (u32, u32)
        ensures parts { (n : TreeNode) (p : Place) (a b : Term) → IsAt self.now at (two n p a b) → IsAt self.now result.0 a × IsAt self.now result.1 b }
        ensures below { parts_of (node_at self.now at) ≡ 2 → (result.0 < at) × (result.1 < at) }
    {
        let _ = &self.tree;
        let second = at.saturating_sub(1);
        (self.left_of(second), second)
    }

    /// The parts of a tree that has three.
    pub fn three(&self, at: u32) -> (u32, u32, u32)
        ensures parts { (n : TreeNode) (p : Place) (a b c : Term) → IsAt self.now at (three n p a b c) → IsAt self.now result.0 a × IsAt self.now result.1 b × IsAt self.now result.2 c }
        ensures below { parts_of (node_at self.now at) ≡ 3 → (result.0 < at) × (result.1 < at) × (result.2 < at) }
    {
        let _ = &self.tree;
        let third = at.saturating_sub(1);
        let second = self.left_of(third);
        (self.left_of(second), second, third)
    }

    /// The parts of a tree that has four.
    pub fn four(&self, at: u32) -> (u32, u32, u32, u32)
        ensures parts { (n : TreeNode) (p : Place) (a b c d : Term) → IsAt self.now at (four n p a b c d) → IsAt self.now result.0 a × IsAt self.now result.1 b × IsAt self.now result.2 c × IsAt self.now result.3 d }
        ensures below { parts_of (node_at self.now at) ≡ 4 → (result.0 < at) × (result.1 < at) × (result.2 < at) × (result.3 < at) }
    {
        let _ = &self.tree;
        let fourth = at.saturating_sub(1);
        let third = self.left_of(fourth);
        let second = self.left_of(third);
        (self.left_of(second), second, third, fourth)
    }

    /// The root on the left of a tree.
    fn left_of(&self, at: u32) -> u32
        ensures is { result ≡ get_or (starts_of self.now.nodes) at 0 - 1 }
        ensures behind { result ≤ at }
    {
        number_at(&self.starts_at, at as usize).saturating_sub(1)
    }

    /// The text of a number.
    pub fn text(&self, key: u32) -> &[u8]
        ensures { result.now ≡ text_of self.now.names key }
    {
        if (key as usize) < self.names.len() {
            self.names.text(Name(key))
        } else {
            b"="
        }
    }

    /// The names of the program.
    pub fn names(&self) -> &Names
        ensures { result.now ≡ self.now.names }
    {
        let _ = &self.tree;
        self.names
    }

    /// The identifier at a node, perhaps behind an `op`.
    pub fn ident(&self, at: u32) -> Ident
        ensures { (t : Term) → IsAt self.now at t → result ≡ ident self.now.names t }
    {
        let mut at = at;
        while let TreeNode::Op = self.node(at) {
            at = self.one(at);
        }
        let node = self.node(at);
        let place = self.place(at);
        Ident {
            key: self.key_of(node),
            long: is_barred(node, place),
            place,
        }
    }

    /// The number of the text of an identifier's node.
    fn key_of(&self, node: TreeNode) -> u32
        ensures { result ≡ key_of self.now.names node }
    {
        match node {
            TreeNode::Vid(name) => name.0,
            TreeNode::LongVid(name) => name.0,
            TreeNode::TyCon(name) => name.0,
            TreeNode::LongTyCon(name) => name.0,
            TreeNode::TyVar(name) => name.0,
            TreeNode::Label(name) => name.0,
            _ => self.equals_key,
        }
    }

    /// What a value identifier stands for.
    pub fn value(&self, bindings: &Bindings, key: u32) -> Option<Meaning>
        ensures { result ≡ meaning_of (scope_of self.now.names bindings.now) key }
    {
        match bindings.values.get(key) {
            Some(meaning) => Some(meaning),
            None => base_value(self.text(key)),
        }
    }

    /// What a type constructor stands for.
    pub fn type_meaning(&self, bindings: &Bindings, key: u32) -> Option<TypeMeaning>
        ensures { result ≡ type_meaning_of (scope_of self.now.names bindings.now) key }
    {
        match bindings.types.get(key) {
            Some(meaning) => Some(meaning),
            None => base_type(self.text(key)),
        }
    }
}

/// Whether an identifier's node is that of a long one in a user's file.
fn is_barred(node: TreeNode, place: Place) -> bool
    ensures { result ≡ (is_long node && is_user place) }
{
    is_long(node) && place.file != 0
}

/// Whether an identifier's node is that of a long one.
fn is_long(node: TreeNode) -> bool
    ensures { result ≡ is_long node }
{
    match node {
        TreeNode::LongVid(_) => true,
        TreeNode::LongTyCon(_) => true,
        _ => false,
    }
}

/// The number of `=`.
fn equals(names: &Names) -> Result<u32, NoMemory>
    ensures { IfOk result (λ key. key ≡ equals names.now) }
{
    let count = number(names.len())?;
    for key in 0..count {
        if names.text(Name(key)) == b"=".as_slice() {
            return Ok(key);
        }
    }
    Ok(count)
}
