//! The rules of records.

ghost use Rattle.std.specs.Prelude.{◌≡◌, ◌<◌, ℕ, List, Option, IsTrue, IfOk, map, length};
ghost use Rattle.std.specs.List.{AllByRecursion};
ghost use Rattle.sml_tree.specs.Sets.{has};
ghost use Rattle.sml_tree.specs.IsBare.{IsDistinct};
ghost use Rattle.sml_unify.specs.Steps.{AreBelow};
ghost use Rattle.infer_parts.specs.Written.{IsTypeRow};
ghost use Rattle.infer_state.specs.declared.declared.Declared.{Declared};
ghost use Rattle.infer_state.specs.declared.settled.Settled.{Settled};
ghost use Rattle.infer_state.specs.Variables.{AreLaidOut, node_var};
ghost use Rattle.infer_nodes.specs.Posed.{StandsFor};
ghost use Rattle.infer_nodes.specs.Asked.{PosesRule};
ghost use Rattle.infer_nodes.specs.Records.{as_written, AreFieldTys, IsRowMade};

use crate::simple::one_pair;
use crate::vars::node_ty;
use infer_parts::copy::label;
use infer_parts::written::record;
use infer_state::{Failure, Starts};
use sml_tree::bare::{Field, TypeField};
use sml_tree::{Bare, Node};
use sml_types::{Ty, Types};
use sml_unify::pair::Pair;
use smlc_base::{NoMemory, Row};
use std::alloc::Global;

fn has(numbers: &[u32], number: u32) -> bool
    ensures { result ≡ has numbers.now number }
{
    numbers.iter().any(|other| number == *other)
}

// Whether no number stands twice.
fn is_distinct(numbers: &[u32]) -> bool
    ensures { IsTrue result → IsDistinct numbers.now }
{
    let mut rest = numbers;
    'numbers: while let [first, others @ ..] = rest {
        if has(others, *first) {
            return false;
        }
        rest = others;
    }
    true
}

fn slots(alloc: Global, fields: &[TypeField]) -> Result<Vec<u32>, NoMemory>
    ensures { IfOk result (λ v. v.items ≡ map (λ f. f.slot) fields.now) }
{
    let found = fields.iter().map(|field| field.slot).collect(alloc)?;
    Ok(found)
}

fn are_slots_below(fields: &[TypeField], count: usize) -> bool
    ensures { IsTrue result → AllByRecursion (λ f. f.slot < count) fields.now }
{
    fields.iter().all(|field| (field.slot as usize) < count)
}

// Whether the fields have the places from 0 on, each once.
fn is_type_row(alloc: Global, fields: &[TypeField]) -> Result<bool, NoMemory>
    ensures { IfOk result (λ is. IsTrue is → IsTypeRow fields.now) }
{
    let slots = slots(alloc, fields)?;
    Ok(is_distinct(&slots) && are_slots_below(fields, fields.len()))
}

// The fields with their nodes in the place of written types.
fn as_written(alloc: Global, fields: &[Field]) -> Result<Vec<TypeField>, NoMemory>
    ensures { IfOk result (λ made. made.items ≡ map as_written fields.now) }
{
    let mut made = Vec::new(alloc);
    'fields: for field in fields {
        made.push(TypeField {
            lab: label(alloc, &field.lab)?,
            slot: field.slot,
            ty: field.node,
        })?;
    }
    Ok(made)
}

// The types of the fields' nodes.
fn field_tys(
    alloc: Global,
    bare: &Bare,
    starts: Starts,
    types: &Types,
    fields: &[Field],
) -> Result<Vec<Ty>, NoMemory>
    requires laid { AreLaidOut bare.now types.now starts }
    ensures { IfOk result (λ tys. AreFieldTys bare.now types.now fields.now tys.items) }
{
    let mut tys = Vec::new(alloc);
    'fields: for field in fields {
        let ty = node_ty(bare, starts, types, field.node)?;
        tys.push(ty)?;
    }
    Ok(tys)
}

fn record_type(
    alloc: Global,
    bare: &Bare,
    starts: Starts,
    types: &mut Types,
    fields: &[Field],
) -> Result<Ty, NoMemory>
    requires laid { AreLaidOut bare.now types.old starts }
    ensures { IfOk result (λ t. IsRowMade bare.now fields.now types.old types.new t) }
{
    let written = as_written(alloc, fields)?;
    let is_row = is_type_row(alloc, &written)?;
    if !is_row {
        return Err(NoMemory);
    }
    let tys = field_tys(alloc, bare, starts, types, fields)?;
    let made = record(alloc, types, &written, &tys)?;
    Ok(made)
}

/// The rules of records.
pub(crate) fn record_rule(
    alloc: Global,
    bare: &Bare,
    starts: Starts,
    types: &mut Types,
    at: Ty,
    node: &Node,
) -> Result<Row<Pair>, Failure>
    requires laid { AreLaidOut bare.now types.old starts }
    ensures { (d : Declared) (settled : List (Option Settled)) (i next : ℕ) → AreBelow types.old next → StandsFor types.old at (node_var bare.now i) → PosesRule bare.now d settled i node.now next types.old next types.new result }
{
    // Opens the invariant of the types.
    let _ = &types.forms;
    match node {
        Node::Record(fields) => {
            let made = record_type(alloc, bare, starts, types, fields.items())?;
            let pairs = one_pair(alloc, at, made)?;
            Ok(pairs)
        }
        Node::PatRecord(fields) => {
            let made = record_type(alloc, bare, starts, types, fields.items())?;
            let pairs = one_pair(alloc, at, made)?;
            Ok(pairs)
        }
        _ => Err(Failure::NoMemory),
    }
}
