//! Type functions, from `type` bindings.

ghost use Rattle.std.specs.Prelude.{◌≡◌, IfOk, map};
ghost use Rattle.std.specs.List.{AllByRecursion};
ghost use Rattle.sml_tree.specs.IsBare.{IsDistinct};
ghost use Rattle.sml_types.specs.TypeExps.{all_explicit};
ghost use Rattle.sml_types.specs.Typing.{IsTypeBinding};
ghost use Rattle.infer_tables.specs.Known.{IsScope, IsAnswer};

use crate::checks::is_distinct;
use crate::known::Known;
use crate::meaning::covered;
use crate::starts::explicit;
use sml_tree::Bare;
use sml_tree::bare::TypeBinding;
use sml_types::{Scheme, TyVar, Types};
use smlc_base::{NoMemory, Row};
use std::alloc::Global;

fn all_explicit(alloc: Global, bare: &Bare, numbers: &[u32]) -> Result<Row<TyVar>, NoMemory>
    ensures { IfOk result (λ vars. vars ≡ all_explicit bare.now.tyvars numbers.now) }
{
    let mut vars = Row::new(alloc);
    'numbers: for number in numbers {
        vars.push(explicit(bare, *number))?;
    }
    Ok(vars)
}

/// The type variables on the left of a binding, which are different in a bare tree.
pub(crate) fn params(alloc: Global, bare: &Bare, numbers: &[u32]) -> Result<Row<TyVar>, NoMemory>
    ensures is { IfOk result (λ vars. vars ≡ all_explicit bare.now.tyvars numbers.now) }
    ensures apart { IfOk result (λ _. IsDistinct numbers.now) }
{
    if !is_distinct(numbers) {
        return Err(NoMemory);
    }
    all_explicit(alloc, bare, numbers)
}

fn add_binding(
    alloc: Global,
    bare: &Bare,
    types: &mut Types,
    known: Known,
    binding: &TypeBinding,
) -> Result<Option<Known>, NoMemory>
    requires scope { IsScope bare.now types.old known }
    ensures { IfOk result (λ o. IsAnswer bare.now (λ t. IsTypeBinding bare.now t binding.now) 0 types.old known types.new o) }
{
    let mut known = known;
    if binding.number as usize != known.abbreviations.len() {
        return Err(NoMemory);
    }
    let vars = params(alloc, bare, binding.params.items())?;
    let Some(body) = covered(alloc, bare, types, &known, vars.items(), binding.ty)? else {
        return Ok(None);
    };
    known.abbreviations.push(Scheme { vars, body })?;
    Ok(Some(known))
}

/// The type functions of a `type` declaration.
pub(crate) fn add_bindings(
    alloc: Global,
    bare: &Bare,
    types: &mut Types,
    known: Known,
    bindings: &[TypeBinding],
) -> Result<Option<Known>, NoMemory>
    requires scope { IsScope bare.now types.old known }
    ensures { IfOk result (λ o. IsAnswer bare.now (λ t. AllByRecursion (IsTypeBinding bare.now t) bindings.now) 0 types.old known types.new o) }
{
    let mut known = known;
    'bindings: for at in 0..bindings.len() {
        match add_binding(alloc, bare, types, known, &bindings[at])? {
            Some(next) => known = next,
            None => return Ok(None),
        }
    }
    Ok(Some(known))
}
