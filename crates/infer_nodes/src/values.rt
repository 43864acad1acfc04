//! The rules of value declarations.

ghost use Rattle.std.specs.Prelude.{◌≡◌, ℕ, List, Option};
ghost use Rattle.sml_unify.specs.Steps.{AreBelow};
ghost use Rattle.std.specs.Prelude.{IfOk};
ghost use Rattle.std.specs.List.{AllByRecursion};
ghost use Rattle.infer_state.specs.declared.declared.Declared.{Declared};
ghost use Rattle.infer_state.specs.declared.settled.Settled.{Settled};
ghost use Rattle.infer_state.specs.Variables.{AreLaidOut, node_var, name_var};
ghost use Rattle.infer_nodes.specs.Posed.{Says};
ghost use Rattle.infer_nodes.specs.Asked.{PosesRule};

use crate::vars::{name_ty, node_ty};
use infer_state::{Failure, Starts};
use sml_tree::bare::{Binding, RecBinding};
use sml_tree::{Bare, Node};
use sml_types::Types;
use sml_unify::pair::Pair;
use smlc_base::{NoMemory, Row};
use std::alloc::Global;

fn val_pairs(
    alloc: Global,
    bare: &Bare,
    starts: Starts,
    types: &Types,
    bindings: &[Binding],
) -> Result<Row<Pair>, NoMemory>
    requires laid { AreLaidOut bare.now types.now starts }
    ensures { IfOk result (λ pairs. Says types.now (λ f. AllByRecursion (λ b. f (node_var bare.now b.right) ≡ f (node_var bare.now b.pat)) bindings.now) pairs) }
{
    let mut pairs = Row::new(alloc);
    'bindings: for binding in bindings {
        let left = node_ty(bare, starts, types, binding.right)?;
        let right = node_ty(bare, starts, types, binding.pat)?;
        pairs.push(Pair { left, right })?;
    }
    Ok(pairs)
}

fn rec_pairs(
    alloc: Global,
    bare: &Bare,
    starts: Starts,
    types: &Types,
    bindings: &[RecBinding],
) -> Result<Row<Pair>, NoMemory>
    requires laid { AreLaidOut bare.now types.now starts }
    ensures { IfOk result (λ pairs. Says types.now (λ f. AllByRecursion (λ b. f (name_var bare.now b.name.0) ≡ f (node_var bare.now b.right)) bindings.now) pairs) }
{
    let mut pairs = Row::new(alloc);
    'bindings: for binding in bindings {
        let left = name_ty(bare, starts, types, binding.name)?;
        let right = node_ty(bare, starts, types, binding.right)?;
        pairs.push(Pair { left, right })?;
    }
    Ok(pairs)
}

/// The rules of value declarations.
pub(crate) fn value_rule(
    alloc: Global,
    bare: &Bare,
    starts: Starts,
    types: &Types,
    node: &Node,
) -> Result<Row<Pair>, Failure>
    requires laid { AreLaidOut bare.now types.now starts }
    ensures { (d : Declared) (settled : List (Option Settled)) (i next : ℕ) → AreBelow types.now next → PosesRule bare.now d settled i node.now next types.now next types.now result }
{
    match node {
        Node::Val(_, bindings) => {
            let pairs = val_pairs(alloc, bare, starts, types, bindings.items())?;
            Ok(pairs)
        }
        Node::ValRec(_, bindings) => {
            let pairs = rec_pairs(alloc, bare, starts, types, bindings.items())?;
            Ok(pairs)
        }
        _ => Err(Failure::NoMemory),
    }
}
