//! The typing of a program.

ghost use Rattle.std.specs.Prelude.{IfOk, IfErr, length};
ghost use Rattle.sml_infer.specs.Below.{IsBelow};
ghost use Rattle.sml_infer.specs.Typing.{IsInferred, Fails};

use crate::below::Below;
use crate::inference::Inference;
use crate::prefix::infer_below;
use crate::schemes::name_schemes;
use crate::search::{node_count, refusal};
use infer_parts::non_expansive;
use infer_state::{Failure, Unknowns};
use sml_tree::Bare;
use sml_types::Typed;
use smlc_base::{CompileError, NoMemory, Row};
use std::alloc::Global;

// Infers all nodes.
fn infer_all(alloc: Global, bare: &Bare) -> Result<Below, CompileError>
    ensures ok { IfOk result (IsBelow bare.now (length bare.now.nodes)) }
    ensures err { IfErr result (Fails bare.now) }
{
    let Ok(count) = node_count(bare) else {
        return Err(CompileError::NoMemory);
    };
    let Ok(plain) = non_expansive(alloc, bare.nodes.items()) else {
        return Err(CompileError::NoMemory);
    };
    match infer_below(alloc, bare, &plain, count) {
        Ok(below) => Ok(below),
        Err(Failure::Untypable) => Err(refusal(alloc, bare, &plain)),
        Err(Failure::NoMemory) => Err(CompileError::NoMemory),
    }
}

// The program with the schemes and tables of what was inferred.
fn typed(alloc: Global, bare: Bare, below: Below) -> Result<Typed, NoMemory>
    requires below { IsBelow bare (length bare.nodes) below }
    ensures { IfOk result (IsInferred bare) }
{
    let Below {
        declared,
        work,
        renames,
    } = below;
    let Inference {
        settled,
        unknowns,
        ..
    } = work;
    let Unknowns {
        mut types,
        subst,
        ..
    } = unknowns;
    let schemes = name_schemes(
        alloc,
        &bare,
        &mut types,
        &subst,
        &declared.starts,
        &settled,
        &renames,
    )?;
    Ok(Typed {
        bare,
        types,
        tables: declared.tables,
        schemes: Row::from_vec(schemes),
    })
}

/// The principal schemes of all names of a program.
///
/// # Errors
///
/// Refused with `BadType` at the first top-level declaration for which there is no typing (The Definition of Standard ML (Revised), section 4), or want of memory. After a refusal the tree is gone.
pub fn infer(alloc: Global, bare: Bare) -> Result<Typed, CompileError>
    ensures ok { IfOk result (IsInferred bare) }
    ensures err { IfErr result (Fails bare) }
{
    let below = match infer_all(alloc, &bare) {
        Ok(below) => below,
        Err(failed) => return Err(failed),
    };
    match typed(alloc, bare, below) {
        Ok(typed) => Ok(typed),
        Err(NoMemory) => Err(CompileError::NoMemory),
    }
}
