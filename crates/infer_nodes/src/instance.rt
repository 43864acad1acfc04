//! Copies of schemes with new variables.

ghost use Rattle.std.specs.Prelude.{◌≡◌, ◌<◌, ℕ, List, Some, length, slice_get, IfOk, IsTrue};
ghost use Rattle.sml_types.specs.declared.types.Ty.{Ty};
ghost use Rattle.sml_types.specs.declared.tables.ConRow.{ConRow};
ghost use Rattle.sml_types.specs.declared.tables.TypeName.{TypeName};
ghost use Rattle.sml_types.specs.Forms.{tree};
ghost use Rattle.sml_types.specs.Poly.{has_num};
ghost use Rattle.sml_types.specs.Schemes.{scheme_poly};
ghost use Rattle.sml_types.specs.Library.{name_types};
ghost use Rattle.sml_types.specs.Typing.{Covers};
ghost use Rattle.sml_unify.specs.Steps.{AreBelow};
ghost use Rattle.sml_unify.specs.Variables.{AreOnce};
ghost use Rattle.infer_parts.specs.Written.{AreThere};
ghost use Rattle.infer_parts.specs.Rounds.{AreArgumentsThere};
ghost use Rattle.infer_state.specs.Rules.{IsCopy, IsDataAt};
ghost use Rattle.infer_state.specs.Fits.{IsThere};
ghost use Rattle.infer_nodes.specs.Posed.{IsMade};
ghost use Rattle.infer_nodes.specs.Made.{AreArgumentsCovered, IsConMade, has_argument};

use crate::make::{applied, function};
use crate::vars::new_vars;
use infer_parts::written::unfolded;
use infer_state::Settled;
use sml_types::{ConRow, Ty, TyVar, TypeName, Types};
use smlc_base::{NoMemory, Row};
use std::alloc::Global;

/// The type of a settled name, with new variables for those of its scheme.
pub(crate) fn settled_type(
    alloc: Global,
    types: &mut Types,
    next: &mut u32,
    settled: &Settled,
) -> Result<Ty, NoMemory>
    requires below { AreBelow types.old next.old }
    requires there { IsThere types.old settled.now }
    ensures { IfOk result (λ t. (names : List TypeName) → IsMade names (λ f u. IsCopy names f (scheme_poly types.old settled.now.scheme) u) next.old types.old next.new types.new t) }
{
    // Opens the invariant of the types.
    let _ = &types.forms;
    let vars = settled.scheme.vars.items();
    if vars.is_empty() {
        return Ok(settled.scheme.body);
    }
    let args = new_vars(alloc, types, next, vars)?;
    unfolded(alloc, types, vars, settled.scheme.body, &args)
}

fn has_num(vars: &[TyVar], num: u32) -> bool
    ensures { result ≡ has_num vars.now num }
{
    vars.iter().any(|var| num == var.num)
}

// Whether no number comes twice.
fn are_once(vars: &[TyVar]) -> bool
    ensures { IsTrue result → AreOnce vars.now }
{
    let mut at = vars.len();
    'vars: while at > 0 {
        at -= 1;
        if has_num(&vars[at + 1..], vars[at].num) {
            return false;
        }
    }
    true
}

// A constructor's type, with new variables for the parameters of its type name.
fn con_type(
    alloc: Global,
    types: &mut Types,
    args: &[Ty],
    number: u32,
    params: &[TyVar],
    con: &ConRow,
) -> Result<Ty, NoMemory>
    requires count { length args.now ≡ length params.now }
    requires there { AreThere types.old args.now }
    requires argument { (a : Ty) → con.now.arg ≡ Some a → a.0 < length types.old }
    ensures { IfOk result (λ t. IsConMade number params.now args.now con.now types.old types.new t) }
{
    let whole = Row::from_vec(Vec::from_slice(alloc, args)?);
    match con.arg {
        None => applied(types, number, whole),
        Some(arg) => {
            let from = unfolded(alloc, types, params, arg, args)?;
            let to = applied(types, number, whole)?;
            function(types, from, to)
        }
    }
}

fn has_argument(con: &ConRow) -> bool
    ensures { result ≡ has_argument con.now.arg }
{
    con.arg.is_some()
}

/// A constructor of a type name, with new variables for its parameters.
pub(crate) fn data_type(
    alloc: Global,
    types: &mut Types,
    next: &mut u32,
    names: &[TypeName],
    number: u32,
    at: u32,
    takes: bool,
) -> Result<Ty, NoMemory>
    requires below { AreBelow types.old next.old }
    requires there { AreArgumentsThere types.old names.now }
    requires covered { AreArgumentsCovered types.old names.now }
    ensures { IfOk result (λ t. IsMade names.now (λ f u. IsDataAt (name_types types.old names.now) names.now number at takes u) next.old types.old next.new types.new t) }
{
    if number as usize >= names.len() {
        return Err(NoMemory);
    }
    let row = &names[number as usize];
    let cons = row.cons.items();
    if at as usize >= cons.len() {
        return Err(NoMemory);
    }
    let con = &cons[at as usize];
    let params = row.params.items();
    if has_argument(con) != takes {
        return Err(NoMemory);
    }
    if !are_once(params) {
        return Err(NoMemory);
    }
    let args = new_vars(alloc, types, next, params)?;
    con_type(alloc, types, &args, number, params, con)
}
