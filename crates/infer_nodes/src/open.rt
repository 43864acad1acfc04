//! The rules of names and primitives.

ghost use Rattle.std.specs.Prelude.{◌≡◌, ◌<◌, ℕ, List, Option, Some, slice_get, length};
ghost use Rattle.sml_unify.specs.Steps.{AreBelow};
ghost use Rattle.sml_tree.specs.declared.bare.Bare.{Bare};
ghost use Rattle.infer_state.specs.declared.declared.Declared.{Declared};
ghost use Rattle.infer_state.specs.declared.settled.Settled.{Settled};
ghost use Rattle.infer_state.specs.Variables.{AreLaidOut, node_var};
ghost use Rattle.infer_state.specs.Fits.{AreThere, joined_settled};
ghost use Rattle.infer_nodes.specs.Posed.{StandsFor};
ghost use Rattle.infer_nodes.specs.Asked.{PosesRule};

use crate::instance::settled_type;
use crate::primitive::primitive_type;
use crate::simple::one_pair;
use crate::vars::name_ty;
use infer_state::{Failure, Settled, Starts};
use sml_tree::{Bare, Node};
use sml_types::{Ty, Types};
use sml_unify::pair::Pair;
use smlc_base::Row;
use std::alloc::Global;

/// The rule of primitives.
pub(crate) fn builtin_rule(
    alloc: Global,
    types: &mut Types,
    next: &mut u32,
    at: Ty,
    node: &Node,
) -> Result<Row<Pair>, Failure>
    requires below { AreBelow types.old next.old }
    ensures { (p : Bare) (d : Declared) (settled : List (Option Settled)) (i : ℕ) → StandsFor types.old at (node_var p i) → PosesRule p d settled i node.now next.old types.old next.new types.new result }
{
    // Opens the invariant of the types.
    let _ = &types.forms;
    let Node::Builtin(primitive) = node else {
        return Err(Failure::NoMemory);
    };
    let made = primitive_type(alloc, types, next, *primitive)?;
    let pairs = one_pair(alloc, at, made)?;
    Ok(pairs)
}

/// The rule of names.
pub(crate) fn name_rule(
    alloc: Global,
    bare: &Bare,
    starts: Starts,
    settled: &[Option<Settled>],
    types: &mut Types,
    next: &mut u32,
    at: Ty,
    node: &Node,
) -> Result<Row<Pair>, Failure>
    requires below { AreBelow types.old next.old }
    requires laid { AreLaidOut bare.now types.old starts }
    requires settled { AreThere types.old settled.now }
    ensures { (d : Declared) (i : ℕ) → StandsFor types.old at (node_var bare.now i) → PosesRule bare.now d settled.now i node.now next.old types.old next.new types.new result }
{
    // Opens the invariant of the types.
    let _ = &types.forms;
    let Node::Var(name) = node else {
        return Err(Failure::NoMemory);
    };
    if name.0 as usize >= settled.len() {
        return Err(Failure::NoMemory);
    }
    match &settled[name.0 as usize] {
        Some(known) => {
            let made = settled_type(alloc, types, next, known)?;
            let pairs = one_pair(alloc, at, made)?;
            Ok(pairs)
        }
        None => {
            let own = name_ty(bare, starts, types, *name)?;
            let pairs = one_pair(alloc, at, own)?;
            Ok(pairs)
        }
    }
}
