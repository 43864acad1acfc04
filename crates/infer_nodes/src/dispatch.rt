//! The rule of a node is posed, by its form.

ghost use Rattle.std.specs.Prelude.{◌≡◌, Some, slice_get, IfOk};
ghost use Rattle.sml_tree.specs.declared.bare.Node.{Node};
ghost use Rattle.sml_unify.specs.Solved.{ArePairs};
ghost use Rattle.sml_unify.specs.Steps.{AreBelow};
ghost use Rattle.infer_state.specs.Variables.{AreLaidOut, node_var};
ghost use Rattle.infer_state.specs.Fits.{AreThere};
ghost use Rattle.infer_nodes.specs.Good.{AreTypesGood, AreDeclaredIn};
ghost use Rattle.infer_nodes.specs.Posed.{StandsFor, AreAdded};
ghost use Rattle.infer_nodes.specs.Asked.{PosesRule};

use crate::annotated::{exception_rule, typed_rule};
use crate::constructor::{constructor_rule, pat_app_rule, pat_con_rule, same_exception_rule};
use crate::matches::{case_rule, fn_rule, handle_rule};
use crate::open::{builtin_rule, name_rule};
use crate::records::record_rule;
use crate::simple::{apply_rule, constant_rule, empty_rule, finish_rule, raise_rule, same_rule};
use crate::values::value_rule;
use crate::vars::node_ty;
use infer_state::{Declared, Failure, Settled};
use sml_tree::{Bare, Node};
use sml_types::{Ty, Types};
use sml_unify::pair::Pair;
use smlc_base::Row;
use std::alloc::Global;

// The rules of patterns and declarations.
fn other_rule(
    alloc: Global,
    bare: &Bare,
    declared: &Declared,
    settled: &[Option<Settled>],
    types: &mut Types,
    next: &mut u32,
    index: u32,
    at: Ty,
    node: &Node,
) -> Result<Row<Pair>, Failure>
    requires below { AreBelow types.old next.old }
    requires laid { AreLaidOut bare.now types.old declared.now.starts }
    requires types { AreTypesGood bare.now }
    requires declared { AreDeclaredIn types.old declared.now }
    requires at { StandsFor types.old at (node_var bare.now index) }
    ensures { PosesRule bare.now declared.now settled.now index node.now next.old types.old next.new types.new result }
{
    match node {
        Node::Wild => empty_rule(alloc, types, node),
        Node::Type(_) => empty_rule(alloc, types, node),
        Node::Datatype(_) => empty_rule(alloc, types, node),
        Node::PatInt(_) => constant_rule(alloc, types, at, node),
        Node::PatChar(_) => constant_rule(alloc, types, at, node),
        Node::PatText(_) => constant_rule(alloc, types, at, node),
        Node::PatVar(_) => same_rule(alloc, bare, declared.starts, types, at, node),
        Node::PatAs(_, _) => same_rule(alloc, bare, declared.starts, types, at, node),
        Node::PatAsCon(_, _) => same_rule(alloc, bare, declared.starts, types, at, node),
        Node::NoException(_) => same_rule(alloc, bare, declared.starts, types, at, node),
        Node::Val(_, _) => value_rule(alloc, bare, declared.starts, types, node),
        Node::ValRec(_, _) => value_rule(alloc, bare, declared.starts, types, node),
        Node::PatCon(_) => pat_con_rule(alloc, bare, declared, types, next, at, node),
        Node::PatApp(_, _) => pat_app_rule(alloc, bare, declared, types, next, at, node),
        Node::SameException(_, _) => same_exception_rule(alloc, bare, declared, types, next, node),
        Node::PatRecord(_) => record_rule(alloc, bare, declared.starts, types, at, node),
        Node::PatTyped(_, _) => typed_rule(alloc, bare, declared, types, at, node),
        Node::Exception(_, _) => exception_rule(alloc, bare, declared, types, node),
        _ => Err(Failure::NoMemory),
    }
}

// The rules of expressions, and all others.
fn any_rule(
    alloc: Global,
    bare: &Bare,
    declared: &Declared,
    settled: &[Option<Settled>],
    types: &mut Types,
    next: &mut u32,
    index: u32,
    at: Ty,
    node: &Node,
) -> Result<Row<Pair>, Failure>
    requires below { AreBelow types.old next.old }
    requires laid { AreLaidOut bare.now types.old declared.now.starts }
    requires settled { AreThere types.old settled.now }
    requires types { AreTypesGood bare.now }
    requires declared { AreDeclaredIn types.old declared.now }
    requires at { StandsFor types.old at (node_var bare.now index) }
    ensures { PosesRule bare.now declared.now settled.now index node.now next.old types.old next.new types.new result }
{
    match node {
        Node::Int(_) => constant_rule(alloc, types, at, node),
        Node::Char(_) => constant_rule(alloc, types, at, node),
        Node::Text(_) => constant_rule(alloc, types, at, node),
        Node::Constructor(_) => constructor_rule(alloc, bare, declared, types, next, at, node),
        Node::Builtin(_) => builtin_rule(alloc, types, next, at, node),
        Node::Var(_) => name_rule(alloc, bare, declared.starts, settled, types, next, at, node),
        Node::App(_, _) => apply_rule(alloc, bare, declared.starts, types, at, node),
        Node::Case(_, _) => case_rule(alloc, bare, declared.starts, types, at, node),
        Node::Fn(_) => fn_rule(alloc, bare, declared.starts, types, at, node),
        Node::Raise(_) => raise_rule(alloc, bare, declared.starts, types, node),
        Node::Handle(_, _) => handle_rule(alloc, bare, declared.starts, types, at, node),
        Node::Let(_, _) => same_rule(alloc, bare, declared.starts, types, at, node),
        Node::Record(_) => record_rule(alloc, bare, declared.starts, types, at, node),
        Node::Typed(_, _) => typed_rule(alloc, bare, declared, types, at, node),
        Node::Finish => finish_rule(alloc, types, at, node),
        _ => other_rule(alloc, bare, declared, settled, types, next, index, at, node),
    }
}

/// What the rule of a node asks, as pairs of types to be made equal.
///
/// # Errors
///
/// `Untypable` where nothing meets the rule.
pub(crate) fn pose(
    alloc: Global,
    bare: &Bare,
    declared: &Declared,
    settled: &[Option<Settled>],
    types: &mut Types,
    next: &mut u32,
    index: u32,
) -> Result<Row<Pair>, Failure>
    requires below { AreBelow types.old next.old }
    requires laid { AreLaidOut bare.now types.old declared.now.starts }
    requires settled { AreThere types.old settled.now }
    requires types { AreTypesGood bare.now }
    requires declared { AreDeclaredIn types.old declared.now }
    ensures rule { (n : Node) → slice_get bare.now.nodes index ≡ Some n → PosesRule bare.now declared.now settled.now index n next.old types.old next.new types.new result }
    ensures grown { IfOk result (λ pairs. AreAdded next.old types.old next.new types.new × ArePairs types.new pairs) }
{
    if index as usize >= bare.nodes.len() {
        return Err(Failure::NoMemory);
    }
    let node = &bare.nodes.items()[index as usize];
    let at = node_ty(bare, declared.starts, types, index)?;
    any_rule(alloc, bare, declared, settled, types, next, index, at, node)
}
