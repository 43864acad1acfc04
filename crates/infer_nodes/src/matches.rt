//! The rules of matches.

ghost use Rattle.std.specs.Prelude.{◌≡◌, ◌<◌, ℕ, List, Option, length, IfOk};
ghost use Rattle.sml_unify.specs.Steps.{AreBelow};
ghost use Rattle.sml_unify.specs.Solved.{under};
ghost use Rattle.infer_state.specs.declared.declared.Declared.{Declared};
ghost use Rattle.infer_state.specs.declared.settled.Settled.{Settled};
ghost use Rattle.infer_state.specs.Variables.{AreLaidOut, node_var};
ghost use Rattle.infer_nodes.specs.Posed.{StandsFor, Says};
ghost use Rattle.infer_nodes.specs.Asked.{PosesRule, MatchAsks};

use crate::make::{EXN, constant, function};
use crate::vars::node_ty;
use infer_state::{Failure, Starts};
use sml_tree::bare::Rule;
use sml_tree::{Bare, Node};
use sml_types::{Ty, Types};
use sml_unify::pair::Pair;
use smlc_base::{NoMemory, Row};
use std::alloc::Global;

// All patterns have the one type, and all bodies the other.
fn match_pairs(
    alloc: Global,
    bare: &Bare,
    starts: Starts,
    types: &Types,
    rules: &[Rule],
    from: Ty,
    to: Ty,
) -> Result<Row<Pair>, NoMemory>
    requires laid { AreLaidOut bare.now types.now starts }
    requires from { from.0 < length types.now }
    requires to { to.0 < length types.now }
    ensures { IfOk result (λ pairs. Says types.now (λ f. MatchAsks bare.now f rules.now (under types.now f from.0) (under types.now f to.0)) pairs) }
{
    let mut pairs = Row::new(alloc);
    'rules: for rule in rules {
        let pat = node_ty(bare, starts, types, rule.pat)?;
        let body = node_ty(bare, starts, types, rule.body)?;
        pairs.push(Pair {
            left: pat,
            right: from,
        })?;
        pairs.push(Pair {
            left: body,
            right: to,
        })?;
    }
    Ok(pairs)
}

/// The rule of `case`.
pub(crate) fn case_rule(
    alloc: Global,
    bare: &Bare,
    starts: Starts,
    types: &Types,
    at: Ty,
    node: &Node,
) -> Result<Row<Pair>, Failure>
    requires laid { AreLaidOut bare.now types.now starts }
    requires at { at.0 < length types.now }
    ensures { (d : Declared) (settled : List (Option Settled)) (i next : ℕ) → AreBelow types.now next → StandsFor types.now at (node_var bare.now i) → PosesRule bare.now d settled i node.now next types.now next types.now result }
{
    let Node::Case(subject, rules) = node else {
        return Err(Failure::NoMemory);
    };
    let from = node_ty(bare, starts, types, *subject)?;
    let pairs = match_pairs(alloc, bare, starts, types, rules.items(), from, at)?;
    Ok(pairs)
}

/// The rule of `fn`.
pub(crate) fn fn_rule(
    alloc: Global,
    bare: &Bare,
    starts: Starts,
    types: &mut Types,
    at: Ty,
    node: &Node,
) -> Result<Row<Pair>, Failure>
    requires laid { AreLaidOut bare.now types.old starts }
    ensures { (d : Declared) (settled : List (Option Settled)) (i next : ℕ) → AreBelow types.old next → StandsFor types.old at (node_var bare.now i) → PosesRule bare.now d settled i node.now next types.old next types.new result }
{
    // Opens the invariant of the types.
    let _ = &types.forms;
    let Node::Fn(rules) = node else {
        return Err(Failure::NoMemory);
    };
    let rules = rules.items();
    if rules.len() == 0 {
        return Err(Failure::NoMemory);
    }
    let from = node_ty(bare, starts, types, rules[0].pat)?;
    let to = node_ty(bare, starts, types, rules[0].body)?;
    let mut pairs = match_pairs(alloc, bare, starts, types, rules, from, to)?;
    let made = function(types, from, to)?;
    pairs.push(Pair {
        left: at,
        right: made,
    })?;
    Ok(pairs)
}

/// The rule of `handle`.
pub(crate) fn handle_rule(
    alloc: Global,
    bare: &Bare,
    starts: Starts,
    types: &mut Types,
    at: Ty,
    node: &Node,
) -> Result<Row<Pair>, Failure>
    requires laid { AreLaidOut bare.now types.old starts }
    requires at { at.0 < length types.old }
    ensures { (d : Declared) (settled : List (Option Settled)) (i next : ℕ) → AreBelow types.old next → StandsFor types.old at (node_var bare.now i) → PosesRule bare.now d settled i node.now next types.old next types.new result }
{
    // Opens the invariant of the types.
    let _ = &types.forms;
    let Node::Handle(body, rules) = node else {
        return Err(Failure::NoMemory);
    };
    let rules = rules.items();
    if rules.len() == 0 {
        return Err(Failure::NoMemory);
    }
    let from = node_ty(bare, starts, types, rules[0].pat)?;
    let body = node_ty(bare, starts, types, *body)?;
    let mut pairs = match_pairs(alloc, bare, starts, types, rules, from, at)?;
    pairs.push(Pair {
        left: body,
        right: at,
    })?;
    let exn = constant(alloc, types, EXN)?;
    pairs.push(Pair {
        left: from,
        right: exn,
    })?;
    Ok(pairs)
}
