//! The first declaration without a typing.

ghost use Rattle.std.specs.Prelude.{◌≡◌, IfOk, length};
ghost use Rattle.infer_parts.specs.Plain.{IsPlainTable};
ghost use Rattle.sml_types.specs.Typing.{end_of, HasTyping, IsBadDeclaration};
ghost use Rattle.sml_infer.specs.Search.{HasTypingIf, HasNoTyping};
ghost use Rattle.sml_infer.specs.Typing.{IsBadAt, Fails};

use crate::prefix::infer_below;
use infer_state::Failure;
use sml_tree::Bare;
use smlc_base::{CompileError, NoMemory, Place, Refusal};
use std::alloc::Global;

/// How many nodes a program has.
pub(crate) fn node_count(bare: &Bare) -> Result<u32, NoMemory>
    ensures { IfOk result (λ count. count ≡ length bare.now.nodes) }
{
    let count = bare.nodes.len();
    if count > u32::MAX as usize {
        return Err(NoMemory);
    }
    Ok(count as u32)
}

// How many nodes the first declarations have.
fn end_of(bare: &Bare, declarations: usize) -> Result<u32, NoMemory>
    ensures { IfOk result (λ count. count ≡ end_of bare.now declarations) }
{
    if declarations < bare.decs.len() {
        Ok(bare.decs.items()[declarations])
    } else {
        node_count(bare)
    }
}

// Whether the first declarations have a typing.
fn has_typing(
    alloc: Global,
    bare: &Bare,
    plain: &[bool],
    declarations: usize,
) -> Result<bool, NoMemory>
    requires plain { IsPlainTable bare.now.nodes plain.now }
    ensures { IfOk result (HasTypingIf bare.now declarations) }
{
    let count = end_of(bare, declarations)?;
    match infer_below(alloc, bare, plain, count) {
        Ok(_below) => Ok(true),
        Err(Failure::Untypable) => Ok(false),
        Err(Failure::NoMemory) => Err(NoMemory),
    }
}

// The first declaration without a typing, by halves: the declarations before `low` have one, and those before `high` have none.
fn first_bad(alloc: Global, bare: &Bare, plain: &[bool]) -> Result<usize, NoMemory>
    requires plain { IsPlainTable bare.now.nodes plain.now }
    requires untypable { HasNoTyping bare.now (length bare.now.decs) }
    ensures { IfOk result (IsBadDeclaration bare.now) }
{
    if !has_typing(alloc, bare, plain, 0)? {
        return Err(NoMemory);
    }
    let mut low = 0;
    let mut high = bare.decs.len();
    'halves: while high - low > 1 {
        let middle = low + (high - low) / 2;
        if has_typing(alloc, bare, plain, middle)? {
            low = middle;
        } else {
            high = middle;
        }
    }
    Ok(low)
}

// The place of the first declaration without a typing.
fn bad_place(alloc: Global, bare: &Bare, plain: &[bool]) -> Result<Place, NoMemory>
    requires plain { IsPlainTable bare.now.nodes plain.now }
    requires untypable { HasNoTyping bare.now (length bare.now.decs) }
    ensures { IfOk result (IsBadAt bare.now) }
{
    let dec = first_bad(alloc, bare, plain)?;
    let root = bare.decs.items()[dec];
    match bare.places.items().get(root as usize) {
        Some(place) => Ok(*place),
        None => Err(NoMemory),
    }
}

/// Why a program without a typing is refused.
pub(crate) fn refusal(alloc: Global, bare: &Bare, plain: &[bool]) -> CompileError
    requires plain { IsPlainTable bare.now.nodes plain.now }
    requires untypable { HasNoTyping bare.now (length bare.now.decs) }
    ensures { Fails bare.now result }
{
    match bad_place(alloc, bare, plain) {
        Ok(place) => CompileError::Refused(Refusal::BadType(place)),
        Err(NoMemory) => CompileError::NoMemory,
    }
}
