//! The types of exceptions.

ghost use Rattle.std.specs.Prelude.{◌≡◌, [], true, List, IfOk};
ghost use Rattle.sml_types.specs.declared.tables.TypeName.{TypeName};
ghost use Rattle.sml_types.specs.Typing.{IsExnTy};
ghost use Rattle.sml_unify.specs.Steps.{AreBelow};
ghost use Rattle.infer_state.specs.Variables.{AreLaidOut, name_var};
ghost use Rattle.infer_nodes.specs.Posed.{IsMade, IsMadeWith};

use crate::make::{EXN, constant, function};
use crate::primitive::new_one;
use crate::vars::name_ty;
use infer_state::Starts;
use sml_tree::Bare;
use sml_types::{Ty, Types};
use sml_unify::pair::Pair;
use smlc_base::{Name, NoMemory, Row};
use std::alloc::Global;

// A type of exceptions with an argument.
fn with_argument(alloc: Global, types: &mut Types, next: &mut u32) -> Result<Ty, NoMemory>
    requires below { AreBelow types.old next.old }
    ensures { IfOk result (λ t. (names : List TypeName) → IsMade names (λ f u. IsExnTy true u) next.old types.old next.new types.new t) }
{
    let arg = new_one(alloc, types, next, false)?;
    let exn = constant(alloc, types, EXN)?;
    function(types, arg, exn)
}

// A type of exceptions with an argument or without one.
fn exn_type(alloc: Global, types: &mut Types, next: &mut u32, takes: bool) -> Result<Ty, NoMemory>
    requires below { AreBelow types.old next.old }
    ensures { IfOk result (λ t. (names : List TypeName) → IsMade names (λ f u. IsExnTy takes u) next.old types.old next.new types.new t) }
{
    // Opens the invariant of the types.
    let _ = &types.forms;
    if takes {
        return with_argument(alloc, types, next);
    }
    constant(alloc, types, EXN)
}

/// The type of the name of an exception, and the pair that makes it one of exceptions.
pub(crate) fn exn_con(
    alloc: Global,
    bare: &Bare,
    starts: Starts,
    types: &mut Types,
    next: &mut u32,
    name: Name,
    takes: bool,
    pairs: &mut Row<Pair>,
) -> Result<Ty, NoMemory>
    requires below { AreBelow types.old next.old }
    requires laid { AreLaidOut bare.now types.old starts }
    requires empty { pairs.old ≡ [] }
    ensures { IfOk result (λ t. (names : List TypeName) → IsMadeWith names (λ f u. IsExnTy takes (f (name_var bare.now name.0)) × (u ≡ f (name_var bare.now name.0))) next.old types.old next.new types.new pairs.new t) }
{
    // Opens the invariant of the types.
    let _ = &types.forms;
    let own = name_ty(bare, starts, types, name)?;
    let made = exn_type(alloc, types, next, takes)?;
    pairs.push(Pair {
        left: own,
        right: made,
    })?;
    Ok(own)
}
