//! What explicit type variables stand for.

ghost use Rattle.std.specs.Prelude.{◌≡◌, ◌<◌, nat_eq, length, IfOk};
ghost use Rattle.std.specs.List.{list_any};
ghost use Rattle.sml_types.specs.TypeExps.{explicit};
ghost use Rattle.sml_unify.specs.Solved.{bound_at, AreBindings, under};
ghost use Rattle.infer_state.specs.Variables.{AreLaidOut};
ghost use Rattle.infer_closing.specs.Closing.{meaning};
ghost use Rattle.infer_checks.specs.Ending.{IsVariableAt, IsFoundAt, AreFoundOr};

use infer_state::{Starts, Unknowns};
use sml_tree::Bare;
use sml_types::{Ty, TyForm, TyVar};
use sml_unify::resolve::Rename;
use smlc_base::{NoMemory, Row};
use std::alloc::Global;

/// The type that a number is bound to.
pub(crate) fn look(bound: &[Option<Ty>], num: u32) -> Option<Ty>
    ensures { result ≡ bound_at bound.now num }
{
    match bound.get(num as usize) {
        Some(found) => *found,
        None => None,
    }
}

// The variable that a type is under what is bound, if it is one.
fn variable_at(unknowns: &Unknowns, ty: Ty) -> Result<Option<TyVar>, NoMemory>
    requires bindings { AreBindings unknowns.now.types unknowns.now.subst.bound }
    requires here { ty.0 < length unknowns.now.types }
    ensures { IfOk result (λ found. IsVariableAt (under unknowns.now.types (meaning unknowns.now) ty.0) found) }
{
    let mut now = ty;
    'chain: for _ in 0..u32::MAX {
        match unknowns.types.form(now) {
            TyForm::Var(var) => match look(unknowns.subst.bound.items(), var.num) {
                Some(next) => now = next,
                None => return Ok(Some(*var)),
            },
            _ => return Ok(None),
        }
    }
    Err(NoMemory)
}

// An explicit type variable in the place of the variable with its mark that it stands for.
fn rename_to(
    bare: &Bare,
    starts: &Starts,
    unknowns: &Unknowns,
    tyvar: u32,
) -> Result<Option<Rename>, NoMemory>
    requires bindings { AreBindings unknowns.now.types unknowns.now.subst.bound }
    requires laid { AreLaidOut bare.now unknowns.now.types starts.now }
    requires there { tyvar < length bare.now.tyvars }
    ensures { IfOk result (λ found. IsFoundAt bare.now (meaning unknowns.now) tyvar found) }
{
    // What holds of all forms.
    let _ = unknowns.types.forms();
    let eq = bare.tyvars.items()[tyvar as usize];
    match variable_at(unknowns, Ty(starts.explicit + tyvar))? {
        Some(var) if var.eq == eq => Ok(Some(Rename {
            from: var.num,
            to: TyVar { num: tyvar, eq },
        })),
        _ => Ok(None),
    }
}

// Whether a rename begins at a number.
fn is_taken(renames: &[Rename], num: u32) -> bool
    ensures { result ≡ list_any (λ r. nat_eq r.from num) renames.now }
{
    renames.iter().any(|rename| rename.from == num)
}

/// The explicit type variables in the places of those that they stand for; none, where two of them stand for the same, or one for something else than a variable with its mark.
pub(crate) fn renames(
    alloc: Global,
    bare: &Bare,
    starts: &Starts,
    unknowns: &Unknowns,
) -> Result<Option<Row<Rename>>, NoMemory>
    requires bindings { AreBindings unknowns.now.types unknowns.now.subst.bound }
    requires laid { AreLaidOut bare.now unknowns.now.types starts.now }
    ensures { IfOk result (λ found. AreFoundOr bare.now (meaning unknowns.now) found) }
{
    let mut renames: Row<Rename> = Row::new(alloc);
    'tyvars: for tyvar in 0..bare.tyvars.len() {
        let Some(rename) = rename_to(bare, starts, unknowns, tyvar as u32)? else {
            return Ok(None);
        };
        if is_taken(renames.items(), rename.from) {
            return Ok(None);
        }
        renames.push(rename)?;
    }
    Ok(Some(renames))
}
