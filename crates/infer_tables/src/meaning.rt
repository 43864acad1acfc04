//! What written types mean, by what is known.

ghost use Rattle.std.specs.Prelude.{◌≡◌, ◌<◌, IfOk, Some, None, length};
ghost use Rattle.sml_types.specs.Typing.{Covers};
ghost use Rattle.sml_unify.specs.Steps.{IsLonger};
ghost use Rattle.infer_parts.specs.Copies.{AreOldVars};
ghost use Rattle.infer_tables.specs.Known.{IsScope};
ghost use Rattle.infer_tables.specs.Meaning.{IsMeaning, IsMeaningOrNone, IsCovered, IsCoveredOrNone};

use crate::checks::all_cite_below;
use crate::known::Known;
use infer_parts::covers;
use infer_parts::written::written;
use sml_tree::Bare;
use sml_types::{Ty, TyVar, Types};
use smlc_base::NoMemory;
use std::alloc::Global;

/// The type that a written type means: None where it means none in any typing that has what is known.
fn meaning(
    alloc: Global,
    bare: &Bare,
    types: &mut Types,
    known: &Known,
    exp: u32,
) -> Result<Option<Ty>, NoMemory>
    requires scope { IsScope bare.now types.old known.now }
    ensures ok { IfOk result (λ o. IsMeaningOrNone bare.now types.new known.now exp o) }
    ensures longer { IsLonger types.old types.new }
    ensures vars { AreOldVars types.old types.new }
{
    let exps = bare.types.items();
    let names = known.tables.names.items();
    let abbreviations = known.abbreviations.items();
    if exp as usize >= exps.len() || !all_cite_below(names.len(), abbreviations.len(), exps, exp) {
        return Err(NoMemory);
    }
    let stands = known.stands.items();
    let found = written(alloc, types, bare, names, stands, abbreviations, exp)?;
    Ok(found)
}

/// The type that a written type means, if these type variables alone stand in it.
pub(crate) fn covered(
    alloc: Global,
    bare: &Bare,
    types: &mut Types,
    known: &Known,
    vars: &[TyVar],
    exp: u32,
) -> Result<Option<Ty>, NoMemory>
    requires scope { IsScope bare.now types.old known.now }
    ensures ok { IfOk result (λ o. IsCoveredOrNone bare.now types.new known.now vars.now exp o) }
    ensures longer { IsLonger types.old types.new }
    ensures vars { AreOldVars types.old types.new }
{
    let Some(ty) = meaning(alloc, bare, types, known, exp)? else {
        return Ok(None);
    };
    if ty.0 as usize >= types.forms().len() {
        return Err(NoMemory);
    }
    if covers(alloc, types, vars, ty)? {
        Ok(Some(ty))
    } else {
        Ok(None)
    }
}
