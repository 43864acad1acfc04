//! The rules of phrases with written types.

ghost use Rattle.std.specs.Prelude.{◌≡◌, ◌+◌, ◌<◌, ◌^◌, ◌∷◌, [], ℕ, List, Option, Some, Result, length, IfOk};
ghost use Rattle.sml_types.specs.Poly.{Poly};
ghost use Rattle.sml_unify.specs.Steps.{AreBelow};
ghost use Rattle.infer_parts.specs.Written.{AreAbbreviations};
ghost use Rattle.infer_state.specs.declared.settled.Settled.{Settled};
ghost use Rattle.infer_state.specs.Variables.{AreLaidOut, node_var};
ghost use Rattle.infer_nodes.specs.Good.{AreTypesGood, AreDeclaredIn};
ghost use Rattle.infer_nodes.specs.Posed.{pair, StandsFor};
ghost use Rattle.infer_nodes.specs.Made.{IsWrittenAs};
ghost use Rattle.infer_nodes.specs.Records.{AreInRow};
ghost use Rattle.infer_nodes.specs.Asked.{PosesRule};
ghost use Rattle.infer_nodes.specs.Annotated.{IsArgumentMade, PosesTyped};

use crate::make::{EXN, constant, function};
use crate::simple::one_pair;
use crate::vars::{name_ty, node_ty};
use infer_parts::written::written;
use infer_state::{Declared, Failure, Starts};
use sml_tree::{Bare, Node};
use sml_types::{Ty, Types};
use sml_unify::pair::Pair;
use smlc_base::{NoMemory, Row};
use std::alloc::Global;

// The explicit type variables.
fn explicit_tys(alloc: Global, bare: &Bare, starts: Starts) -> Result<Vec<Ty>, NoMemory>
    requires few { starts.explicit + length bare.now.tyvars < 2 ^ 32 }
    ensures count { IfOk result (λ tys. length tys.items ≡ length bare.now.tyvars) }
    ensures row { IfOk result (λ tys. AreInRow starts.explicit tys.items) }
{
    let count = bare.tyvars.len() as u32;
    let mut tys = Vec::new(alloc);
    'vars: for var in 0..count {
        tys.push(Ty(starts.explicit + var))?;
    }
    Ok(tys)
}

// The type that a written type means.
fn written_type(
    alloc: Global,
    bare: &Bare,
    declared: &Declared,
    types: &mut Types,
    exp: u32,
) -> Result<Ty, Failure>
    requires laid { AreLaidOut bare.now types.old declared.now.starts }
    requires types { AreTypesGood bare.now }
    requires declared { AreDeclaredIn types.old declared.now }
    ensures { (abbreviations : ℕ → Poly) → AreAbbreviations types.old declared.now.abbreviations abbreviations → IsWrittenAs bare.now declared.now.tables.names abbreviations exp types.old types.new result }
{
    // Opens the invariant of the types.
    let _ = &types.forms;
    if exp as usize >= bare.types.len() {
        return Err(Failure::NoMemory);
    }
    let stands = explicit_tys(alloc, bare, declared.starts)?;
    let names = declared.tables.names.items();
    let abbreviations = declared.abbreviations.items();
    let made = written(alloc, types, bare, names, &stands, abbreviations, exp)?;
    match made {
        Some(ty) => Ok(ty),
        None => Err(Failure::Untypable),
    }
}

fn annotated(alloc: Global, part: Ty, at: Ty, made: Ty) -> Result<Row<Pair>, NoMemory>
    ensures { IfOk result (λ pairs. pairs ≡ pair part at ∷ pair at made ∷ []) }
{
    let mut pairs = Row::new(alloc);
    pairs.push(Pair {
        left: part,
        right: at,
    })?;
    pairs.push(Pair {
        left: at,
        right: made,
    })?;
    Ok(pairs)
}

// A phrase of a written type has the type of its part.
fn typed_pairs(
    alloc: Global,
    bare: &Bare,
    declared: &Declared,
    types: &mut Types,
    at: Ty,
    part: u32,
    exp: u32,
) -> Result<Row<Pair>, Failure>
    requires laid { AreLaidOut bare.now types.old declared.now.starts }
    requires types { AreTypesGood bare.now }
    requires declared { AreDeclaredIn types.old declared.now }
    ensures { (i next : ℕ) → AreBelow types.old next → StandsFor types.old at (node_var bare.now i) → PosesTyped bare.now declared.now i part exp next types.old types.new result }
{
    // Opens the invariant of the types.
    let _ = &types.forms;
    let left = node_ty(bare, declared.starts, types, part)?;
    match written_type(alloc, bare, declared, types, exp) {
        Ok(made) => {
            let pairs = annotated(alloc, left, at, made)?;
            Ok(pairs)
        }
        Err(failure) => Err(failure),
    }
}

/// The rules of phrases with a written type.
pub(crate) fn typed_rule(
    alloc: Global,
    bare: &Bare,
    declared: &Declared,
    types: &mut Types,
    at: Ty,
    node: &Node,
) -> Result<Row<Pair>, Failure>
    requires laid { AreLaidOut bare.now types.old declared.now.starts }
    requires types { AreTypesGood bare.now }
    requires declared { AreDeclaredIn types.old declared.now }
    ensures { (settled : List (Option Settled)) (i next : ℕ) → AreBelow types.old next → StandsFor types.old at (node_var bare.now i) → PosesRule bare.now declared.now settled i node.now next types.old next types.new result }
{
    match node {
        Node::Typed(part, exp) => typed_pairs(alloc, bare, declared, types, at, *part, *exp),
        Node::PatTyped(part, exp) => typed_pairs(alloc, bare, declared, types, at, *part, *exp),
        _ => Err(Failure::NoMemory),
    }
}

// The type of an exception constructor with an argument of a written type.
fn exception_of(
    alloc: Global,
    bare: &Bare,
    declared: &Declared,
    types: &mut Types,
    exp: u32,
) -> Result<Ty, Failure>
    requires laid { AreLaidOut bare.now types.old declared.now.starts }
    requires types { AreTypesGood bare.now }
    requires declared { AreDeclaredIn types.old declared.now }
    ensures { (abbreviations : ℕ → Poly) → AreAbbreviations types.old declared.now.abbreviations abbreviations → IsArgumentMade bare.now declared.now.tables.names abbreviations (Some exp) types.old types.new result }
{
    match written_type(alloc, bare, declared, types, exp) {
        Ok(from) => {
            let to = constant(alloc, types, EXN)?;
            let made = function(types, from, to)?;
            Ok(made)
        }
        Err(failure) => Err(failure),
    }
}

fn exception_type(
    alloc: Global,
    bare: &Bare,
    declared: &Declared,
    types: &mut Types,
    arg: Option<u32>,
) -> Result<Ty, Failure>
    requires laid { AreLaidOut bare.now types.old declared.now.starts }
    requires types { AreTypesGood bare.now }
    requires declared { AreDeclaredIn types.old declared.now }
    ensures { (abbreviations : ℕ → Poly) → AreAbbreviations types.old declared.now.abbreviations abbreviations → IsArgumentMade bare.now declared.now.tables.names abbreviations arg types.old types.new result }
{
    match arg {
        None => {
            let made = constant(alloc, types, EXN)?;
            Ok(made)
        }
        Some(exp) => exception_of(alloc, bare, declared, types, exp),
    }
}

/// The rule of exception declarations.
pub(crate) fn exception_rule(
    alloc: Global,
    bare: &Bare,
    declared: &Declared,
    types: &mut Types,
    node: &Node,
) -> Result<Row<Pair>, Failure>
    requires laid { AreLaidOut bare.now types.old declared.now.starts }
    requires types { AreTypesGood bare.now }
    requires declared { AreDeclaredIn types.old declared.now }
    ensures { (settled : List (Option Settled)) (i next : ℕ) → AreBelow types.old next → PosesRule bare.now declared.now settled i node.now next types.old next types.new result }
{
    // Opens the invariant of the types.
    let _ = &types.forms;
    let Node::Exception(name, arg) = node else {
        return Err(Failure::NoMemory);
    };
    let own = name_ty(bare, declared.starts, types, *name)?;
    match exception_type(alloc, bare, declared, types, *arg) {
        Ok(made) => {
            let pairs = one_pair(alloc, own, made)?;
            Ok(pairs)
        }
        Err(failure) => Err(failure),
    }
}
