//! The type declarations among nodes, in their order.

ghost use Rattle.std.specs.Prelude.{◌≡◌, ◌≤◌, IfOk, Some, length, take};
ghost use Rattle.std.specs.List.{AllByRecursion};
ghost use Rattle.sml_types.specs.Equality.{IsGreatest};
ghost use Rattle.sml_types.specs.Typing.{made_by, made_below, type_numbers, IsTypeBinding, IsDatBinding};
ghost use Rattle.infer_tables.specs.Known.{IsScope, IsAnswer, Asks};

use crate::bindings::add_bindings;
use crate::group::add_group;
use crate::known::Known;
use crate::renew::{dat_params, renew, type_params};
use sml_tree::Bare;
use sml_tree::bare::{DatBinding, Node, TypeBinding};
use sml_types::Types;
use smlc_base::NoMemory;
use std::alloc::Global;

// The type functions of a `type` declaration, over new forms of its type variables.
fn add_types(
    alloc: Global,
    bare: &Bare,
    types: &mut Types,
    known: Known,
    bindings: &[TypeBinding],
) -> Result<Option<Known>, NoMemory>
    requires scope { IsScope bare.now types.old known }
    ensures { IfOk result (λ o. IsAnswer bare.now (λ t. AllByRecursion (IsTypeBinding bare.now t) bindings.now) 0 types.old known types.new o) }
{
    let numbers = type_params(alloc, bindings)?;
    let renewed = renew(bare, types, known, &numbers)?;
    let added = add_bindings(alloc, bare, types, renewed, bindings)?;
    Ok(added)
}

// The rows of a `datatype` declaration, over new forms of its type variables.
fn add_datatypes(
    alloc: Global,
    bare: &Bare,
    types: &mut Types,
    known: Known,
    bindings: &[DatBinding],
) -> Result<Option<Known>, NoMemory>
    requires scope { IsScope bare.now types.old known }
    ensures { IfOk result (λ o. IsAnswer bare.now (λ t. AllByRecursion (IsDatBinding bare.now t) bindings.now × IsGreatest t.forms t.names (type_numbers bindings.now)) (length (type_numbers bindings.now)) types.old known types.new o) }
{
    let numbers = dat_params(alloc, bindings)?;
    let renewed = renew(bare, types, known, &numbers)?;
    let added = add_group(alloc, bare, types, renewed, bindings)?;
    Ok(added)
}

fn add_node(
    alloc: Global,
    bare: &Bare,
    types: &mut Types,
    known: Known,
    node: &Node,
) -> Result<Option<Known>, NoMemory>
    requires scope { IsScope bare.now types.old known }
    ensures { IfOk result (λ o. IsAnswer bare.now (λ t. Asks bare.now t node.now) (length (made_by (Some node.now))) types.old known types.new o) }
{
    match node {
        Node::Type(bindings) => {
            let added = add_types(alloc, bare, types, known, bindings.items())?;
            Ok(added)
        }
        Node::Datatype(bindings) => {
            let added = add_datatypes(alloc, bare, types, known, bindings.items())?;
            Ok(added)
        }
        _ => Ok(Some(known)),
    }
}

// Where the nodes below `count` end.
fn end_of(nodes: &[Node], count: u32) -> usize
    ensures below { result ≤ length nodes.now }
    ensures same { take result nodes.now ≡ take count nodes.now }
{
    if (count as usize) < nodes.len() {
        count as usize
    } else {
        nodes.len()
    }
}

/// What the nodes below `count` declare.
pub(crate) fn add_nodes(
    alloc: Global,
    bare: &Bare,
    types: &mut Types,
    known: Known,
    count: u32,
) -> Result<Option<Known>, NoMemory>
    requires scope { IsScope bare.now types.old known }
    ensures { IfOk result (λ o. IsAnswer bare.now (λ t. AllByRecursion (Asks bare.now t) (take count bare.now.nodes)) (length (made_below bare.now.nodes count)) types.old known types.new o) }
{
    let nodes = bare.nodes.items();
    let mut known = known;
    let end = end_of(nodes, count);
    'nodes: for at in 0..end {
        match add_node(alloc, bare, types, known, &nodes[at])? {
            Some(next) => known = next,
            None => return Ok(None),
        }
    }
    Ok(Some(known))
}
