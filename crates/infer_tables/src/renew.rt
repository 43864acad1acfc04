//! The type variables of a declaration.
//!
//! Each use of a constructor or a type function copies the forms from the first to the last of its type. So the variables of a declaration stand for themselves in new forms next to its types, and not in those far in front.

ghost use Rattle.std.specs.Prelude.{IfOk};
ghost use Rattle.infer_tables.specs.Known.{IsScope, IsStep};

use crate::known::Known;
use crate::starts::explicit;
use sml_tree::Bare;
use sml_tree::bare::{DatBinding, TypeBinding};
use sml_types::{TyForm, Types};
use smlc_base::NoMemory;
use std::alloc::Global;

// An explicit type variable stands for itself in a new form.
fn renew_one(bare: &Bare, types: &mut Types, known: Known, number: u32) -> Result<Known, NoMemory>
    requires scope { IsScope bare.now types.old known }
    ensures { IfOk result (IsStep bare.now (λ t. Unit {0}) 0 types.old known types.new) }
{
    // Opens the invariant of the types.
    let _ = &types.forms;
    let at = number as usize;
    if at >= known.stands.len() {
        return Err(NoMemory);
    }
    let mut known = known;
    let stand = types.push(TyForm::Var(explicit(bare, number)))?;
    known.stands.set(at, stand);
    Ok(known)
}

/// Explicit type variables stand for themselves in new forms.
pub(crate) fn renew(
    bare: &Bare,
    types: &mut Types,
    known: Known,
    numbers: &[u32],
) -> Result<Known, NoMemory>
    requires scope { IsScope bare.now types.old known }
    ensures { IfOk result (IsStep bare.now (λ t. Unit {0}) 0 types.old known types.new) }
{
    let mut known = known;
    'numbers: for number in numbers {
        known = renew_one(bare, types, known, *number)?;
    }
    Ok(known)
}

/// The type variables of `type` bindings.
pub(crate) fn type_params(alloc: Global, bindings: &[TypeBinding]) -> Result<Vec<u32>, NoMemory> {
    let mut numbers = Vec::new(alloc);
    'bindings: for binding in bindings {
        numbers.extend_from_slice(binding.params.items())?;
    }
    Ok(numbers)
}

/// The type variables of `datatype` bindings.
pub(crate) fn dat_params(alloc: Global, bindings: &[DatBinding]) -> Result<Vec<u32>, NoMemory> {
    let mut numbers = Vec::new(alloc);
    'bindings: for binding in bindings {
        numbers.extend_from_slice(binding.params.items())?;
    }
    Ok(numbers)
}
