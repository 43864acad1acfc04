//! Nodes behind their parts. Each call says what holds of the parts and the node for every definition of the parts.

ghost use Rattle.std.specs.Prelude.{◌≡◌, ◌+◌, ◌++◌, ℕ, List, length, take, IfOk, OnOk};
ghost use Rattle.sml_expansion.specs.Forests.{none, grown};
ghost use Rattle.sml_expansion.specs.Bare.{wild_node, tuple_pattern, record_pattern, list_pattern};
ghost use Rattle.sml_expansion.specs.Makings.{Makes, gives};
ghost use Rattle.sml_expansion.specs.Marks.{marks};
ghost use Rattle.sml_expansion.specs.Patterns.{Pattern, plain, layer, typed, single};
ghost use Rattle.sml_expansion.specs.Scopes.{Scope, meaning_of};
ghost use Rattle.sml_expansion.specs.Types.{labs_of};
ghost use Rattle.expand_patterns.specs.Expands.{Expands};
ghost use Rattle.expand_patterns.specs.Opens.{opened, wrapped, at_argument, Opens, item_ends, layer_node};

use crate::identifiers::no_constructor;
use sml_expansion::labels::{fields, tuple_fields};
use sml_expansion::{Bound, Ident, Meaning, Parsed, Walk};
use sml_tree::bare::{Con, Lab, Node};
use smlc_base::{Name, NoMemory, Place};

/// `nil`
pub const NIL: Con = Con::Data {
    type_name: 5,
    number: 0,
    takes: false,
};

/// `::`
const CONS: Con = Con::Data {
    type_name: 5,
    number: 1,
    takes: true,
};

/// Of so many trees and others.
pub fn sum(left: u32, right: u32) -> Result<u32, NoMemory>
    ensures { IfOk result (λ both. both ≡ left + right) }
{
    match left.checked_add(right) {
        Some(both) => Ok(both),
        None => Err(NoMemory),
    }
}

/// A node without parts.
pub fn lone(walk: &mut Walk, node: Node, place: Place) -> Result<u32, NoMemory>
    ensures { IfOk result (λ trees. (names : List (List ℕ)) (bound : List Bound) → Expands names (λ s. gives (plain (grown node place none))) trees walk.old walk.new bound bound) }
{
    walk.leaf(node, place)?;
    Ok(1)
}

/// A node that stands for its parts as they are.
fn close(walk: &mut Walk, node: Node, place: Place) -> Result<u32, NoMemory>
    ensures { IfOk result (λ trees. (names : List (List ℕ)) (f : Scope → Makes Pattern) (n : ℕ) (before first : Walk) (earlier later : List Bound) → first ≡ opened before
        → Expands names f n first walk.old earlier later
        → Expands names (wrapped f (λ s. (grown node place))) trees before walk.new earlier later) }
{
    walk.close(node, place)?;
    Ok(1)
}

/// A tuple of so many patterns.
pub fn close_tuple(walk: &mut Walk, place: Place, count: u32) -> Result<u32, NoMemory>
    ensures { IfOk result (λ trees. (names : List (List ℕ)) (f : Scope → Makes Pattern) (before first : Walk) (earlier later : List Bound) → first ≡ opened before
        → Expands names f count first walk.old earlier later
        → Expands names (wrapped f (λ s. (tuple_pattern place))) trees before walk.new earlier later) }
{
    let fields = tuple_fields(walk.allocator(), count)?;
    close(walk, Node::PatRecord(fields), place)
}

/// A record with these labels.
pub fn close_rows(walk: &mut Walk, place: Place, labs: Vec<(Lab, Place)>) -> Result<u32, NoMemory>
    ensures { IfOk result (λ trees. (names : List (List ℕ)) (f : Scope → Makes Pattern) (n : ℕ) (before first : Walk) (earlier later : List Bound) → first ≡ opened before
        → Expands names f n first walk.old earlier later
        → Expands names (wrapped f (λ s. (record_pattern place (labs_of labs.items)))) trees before walk.new earlier later) }
{
    let fields = fields(walk.allocator(), labs)?;
    close(walk, Node::PatRecord(fields), place)
}

/// A pattern with a type.
pub fn close_typed(walk: &mut Walk, place: Place, ty: u32) -> Result<u32, NoMemory>
    ensures { IfOk result (λ trees. (names : List (List ℕ)) (f : Scope → Makes Pattern) (n : ℕ) (before first : Walk) (earlier later : List Bound) → first ≡ opened before
        → Expands names f n first walk.old earlier later
        → Expands names (wrapped f (λ s. (typed place ty))) trees before walk.new earlier later) }
{
    close(walk, Node::PatTyped(0, ty), place)
}

/// The node of `vid as q`.
fn layer_node(name: Name, meaning: Option<Meaning>) -> Node
    ensures { result ≡ layer_node name.0 meaning }
{
    match meaning {
        Some(Meaning::Constructor(_)) => Node::PatAsCon(name, 0),
        _ => Node::PatAs(name, 0),
    }
}

/// `vid as q` with this variable.
pub fn close_layer(
    parsed: &Parsed,
    walk: &mut Walk,
    place: Place,
    ident: Ident,
    name: Name,
) -> Result<u32, NoMemory>
    ensures { IfOk result (λ trees. (f : Scope → Makes Pattern) (n : ℕ) (before first : Walk) (earlier later : List Bound) → first ≡ opened before
        → Expands parsed.now.names f n first walk.old earlier later
        → Expands parsed.now.names (wrapped f (λ s. (layer place name.0 (meaning_of s ident.key)))) trees before walk.new earlier later) }
{
    let meaning = parsed.value(&walk.bindings, ident.key);
    close(walk, layer_node(name, meaning), place)
}

/// In place of the trees behind the first so many marks, `_`.
fn wild_from(walk: &mut Walk, from: usize, place: Place) -> Result<u32, NoMemory>
    ensures walk { OnOk result (walk.new ≡ record walk.old { marks = take from walk.old.marks ++ marks (wild_node place) }) }
    ensures one { IfOk result (λ trees. trees ≡ 1) }
{
    walk.marks.truncate(from);
    walk.leaf(Node::Wild, place)?;
    Ok(1)
}

/// An identifier at its argument, before which so many marks stand. `_` where it is no constructor.
pub fn close_applied(
    parsed: &Parsed,
    walk: &mut Walk,
    from: usize,
    place: Place,
    ident: Ident,
) -> Result<u32, NoMemory>
    ensures { IfOk result (λ trees. (f : Scope → Makes Pattern) (n : ℕ) (before first : Walk) (earlier later : List Bound) → from ≡ length before.marks → first ≡ opened before
        → Expands parsed.now.names f n first walk.old earlier later
        → Expands parsed.now.names (at_argument f place ident) trees before walk.new earlier later) }
{
    let meaning = parsed.value(&walk.bindings, ident.key);
    match meaning {
        Some(Meaning::Constructor(con)) => close(walk, Node::PatApp(con, 0), place),
        other => {
            walk.made.refuse(no_constructor(other, ident));
            wild_from(walk, from, place)
        }
    }
}

/// A pattern where the grammar has one, before which so many marks stand: one tree.
pub fn keep_single(walk: &mut Walk, from: usize, place: Place, count: u32) -> Result<u32, NoMemory>
    ensures { IfOk result (λ trees. (names : List (List ℕ)) (f : Scope → Makes Pattern) (before : Walk) (earlier later : List Bound) → from ≡ length before.marks
        → Expands names f count before walk.old earlier later
        → Expands names (λ s. single place (f s)) trees before walk.new earlier later) }
{
    if count == 1 {
        Ok(1)
    } else {
        wild_from(walk, from, place)
    }
}

/// The ends of the pairs and of the `::` of a list of so many items.
fn close_items(walk: &mut Walk, place: Place, count: u32) -> Result<(), NoMemory>
    ensures { OnOk result (walk.new ≡ record walk.old { marks = walk.old.marks ++ item_ends place count }) }
{
    for item in 0..count {
        let pair = tuple_fields(walk.allocator(), 2)?;
        walk.close(Node::PatRecord(pair), place)?;
        walk.close(Node::PatApp(CONS, 0), place)?;
    }
    Ok(())
}

/// A list of so many items.
pub fn close_list(walk: &mut Walk, place: Place, count: u32) -> Result<u32, NoMemory>
    ensures { IfOk result (λ trees. (names : List (List ℕ)) (f : Scope → Makes Pattern) (before : Walk) (earlier later : List Bound)
        → Opens names f count before walk.old earlier later
        → Expands names (wrapped f (λ s. list_pattern place)) trees before walk.new earlier later) }
{
    walk.leaf(Node::PatCon(NIL), place)?;
    close_items(walk, place, count)?;
    Ok(1)
}
