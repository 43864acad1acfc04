//! Rules that ask for known types, and that types are the same.

ghost use Rattle.std.specs.Prelude.{◌≡◌, ◌<◌, ◌∷◌, [], ℕ, List, Option, length, IfOk};
ghost use Rattle.sml_tree.specs.declared.bare.Bare.{Bare};
ghost use Rattle.sml_unify.specs.Steps.{AreBelow};
ghost use Rattle.infer_state.specs.declared.declared.Declared.{Declared};
ghost use Rattle.infer_state.specs.declared.settled.Settled.{Settled};
ghost use Rattle.infer_state.specs.Variables.{AreLaidOut, node_var};
ghost use Rattle.infer_nodes.specs.Posed.{pair, StandsFor};
ghost use Rattle.infer_nodes.specs.Asked.{PosesRule, constant_of, asks_nothing};

use crate::make::{CHAR, EXN, INT, STRING, constant, function, unit};
use crate::vars::{name_ty, node_ty};
use infer_state::{Failure, Starts};
use sml_tree::{Bare, Node};
use sml_types::{Ty, Types};
use sml_unify::pair::Pair;
use smlc_base::{NoMemory, Row};
use std::alloc::Global;

pub(crate) fn one_pair(alloc: Global, left: Ty, right: Ty) -> Result<Row<Pair>, NoMemory>
    ensures { IfOk result (λ pairs. pairs ≡ pair left right ∷ []) }
{
    let mut pairs = Row::new(alloc);
    pairs.push(Pair { left, right })?;
    Ok(pairs)
}

fn two_pairs(alloc: Global, first: Ty, second: Ty, to: Ty) -> Result<Row<Pair>, NoMemory>
    ensures { IfOk result (λ pairs. pairs ≡ pair first to ∷ pair second to ∷ []) }
{
    let mut pairs = Row::new(alloc);
    pairs.push(Pair {
        left: first,
        right: to,
    })?;
    pairs.push(Pair {
        left: second,
        right: to,
    })?;
    Ok(pairs)
}

// The type name of a constant.
fn constant_of(node: &Node) -> Option<u32>
    ensures { result ≡ constant_of node.now }
{
    match node {
        Node::Int(_) => Some(INT),
        Node::Char(_) => Some(CHAR),
        Node::Text(_) => Some(STRING),
        Node::PatInt(_) => Some(INT),
        Node::PatChar(_) => Some(CHAR),
        Node::PatText(_) => Some(STRING),
        _ => None,
    }
}

/// The rules of constants.
pub(crate) fn constant_rule(
    alloc: Global,
    types: &mut Types,
    at: Ty,
    node: &Node,
) -> Result<Row<Pair>, Failure>
    ensures { (p : Bare) (d : Declared) (settled : List (Option Settled)) (i next : ℕ) → AreBelow types.old next → StandsFor types.old at (node_var p i) → PosesRule p d settled i node.now next types.old next types.new result }
{
    // Opens the invariant of the types.
    let _ = &types.forms;
    let Some(number) = constant_of(node) else {
        return Err(Failure::NoMemory);
    };
    let made = constant(alloc, types, number)?;
    let pairs = one_pair(alloc, at, made)?;
    Ok(pairs)
}

/// The rule of the end of the program.
pub(crate) fn finish_rule(
    alloc: Global,
    types: &mut Types,
    at: Ty,
    node: &Node,
) -> Result<Row<Pair>, Failure>
    ensures { (p : Bare) (d : Declared) (settled : List (Option Settled)) (i next : ℕ) → AreBelow types.old next → StandsFor types.old at (node_var p i) → PosesRule p d settled i node.now next types.old next types.new result }
{
    // Opens the invariant of the types.
    let _ = &types.forms;
    let Node::Finish = node else {
        return Err(Failure::NoMemory);
    };
    let made = unit(alloc, types)?;
    let pairs = one_pair(alloc, at, made)?;
    Ok(pairs)
}

/// The rules that make no type.
pub(crate) fn same_rule(
    alloc: Global,
    bare: &Bare,
    starts: Starts,
    types: &Types,
    at: Ty,
    node: &Node,
) -> Result<Row<Pair>, Failure>
    requires laid { AreLaidOut bare.now types.now starts }
    ensures { (d : Declared) (settled : List (Option Settled)) (i next : ℕ) → AreBelow types.now next → StandsFor types.now at (node_var bare.now i) → PosesRule bare.now d settled i node.now next types.now next types.now result }
{
    match node {
        Node::Let(_, body) => {
            let body = node_ty(bare, starts, types, *body)?;
            let pairs = one_pair(alloc, body, at)?;
            Ok(pairs)
        }
        Node::PatVar(name) => {
            let name = name_ty(bare, starts, types, *name)?;
            let pairs = one_pair(alloc, name, at)?;
            Ok(pairs)
        }
        Node::PatAs(name, pat) => {
            let name = name_ty(bare, starts, types, *name)?;
            let pat = node_ty(bare, starts, types, *pat)?;
            let pairs = two_pairs(alloc, name, pat, at)?;
            Ok(pairs)
        }
        Node::PatAsCon(_, _) => Err(Failure::Untypable),
        Node::NoException(_) => Err(Failure::Untypable),
        _ => Err(Failure::NoMemory),
    }
}

// Whether a rule asks nothing.
fn asks_nothing(node: &Node) -> bool
    ensures { result ≡ asks_nothing node.now }
{
    match node {
        Node::Wild => true,
        Node::Type(_) => true,
        Node::Datatype(_) => true,
        _ => false,
    }
}

fn no_pairs(alloc: Global) -> Row<Pair>
    ensures { result ≡ [] }
{
    Row::new(alloc)
}

/// The rules that ask nothing.
pub(crate) fn empty_rule(alloc: Global, types: &Types, node: &Node) -> Result<Row<Pair>, Failure>
    ensures { (p : Bare) (d : Declared) (settled : List (Option Settled)) (i next : ℕ) → AreBelow types.now next → PosesRule p d settled i node.now next types.now next types.now result }
{
    // Opens the invariant of the types.
    let _ = &types.forms;
    if !asks_nothing(node) {
        return Err(Failure::NoMemory);
    }
    Ok(no_pairs(alloc))
}

/// The rule of applications.
pub(crate) fn apply_rule(
    alloc: Global,
    bare: &Bare,
    starts: Starts,
    types: &mut Types,
    at: Ty,
    node: &Node,
) -> Result<Row<Pair>, Failure>
    requires laid { AreLaidOut bare.now types.old starts }
    requires at { at.0 < length types.old }
    ensures { (d : Declared) (settled : List (Option Settled)) (i next : ℕ) → AreBelow types.old next → StandsFor types.old at (node_var bare.now i) → PosesRule bare.now d settled i node.now next types.old next types.new result }
{
    // Opens the invariant of the types.
    let _ = &types.forms;
    let Node::App(left, right) = node else {
        return Err(Failure::NoMemory);
    };
    let left = node_ty(bare, starts, types, *left)?;
    let right = node_ty(bare, starts, types, *right)?;
    let made = function(types, right, at)?;
    let pairs = one_pair(alloc, left, made)?;
    Ok(pairs)
}

/// The rule of `raise`.
pub(crate) fn raise_rule(
    alloc: Global,
    bare: &Bare,
    starts: Starts,
    types: &mut Types,
    node: &Node,
) -> Result<Row<Pair>, Failure>
    requires laid { AreLaidOut bare.now types.old starts }
    ensures { (d : Declared) (settled : List (Option Settled)) (i next : ℕ) → AreBelow types.old next → PosesRule bare.now d settled i node.now next types.old next types.new result }
{
    // Opens the invariant of the types.
    let _ = &types.forms;
    let Node::Raise(exn) = node else {
        return Err(Failure::NoMemory);
    };
    let exn = node_ty(bare, starts, types, *exn)?;
    let made = constant(alloc, types, EXN)?;
    let pairs = one_pair(alloc, exn, made)?;
    Ok(pairs)
}
