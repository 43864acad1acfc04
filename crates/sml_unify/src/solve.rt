//! One binding after another.

ghost use Rattle.std.specs.Prelude.{◌≡◌, ◌≤◌, Some, length, slice_get, List, Option};
ghost use Rattle.sml_unify.specs.Steps.{IsLogged, IsLonger, AreBelow, AreFreshFrom};
ghost use Rattle.sml_unify.specs.Outcomes.{IsStep, IsUnifiedFrom};
ghost use Rattle.sml_types.specs.declared.types.TyForm.TheVariants.{Var};
ghost use Rattle.sml_types.specs.declared.types.TyVar.{TyVar};
ghost use Rattle.sml_types.specs.declared.types.Ty.{Ty};
ghost use Rattle.sml_unify.specs.Solved.{ArePairs, IsSolved};
ghost use Rattle.sml_unify.specs.Simplified.{IsBinding};

use crate::bind::{bind_logged, fresh};
use crate::error::UnifyError;
use crate::mark::unmarked;
use crate::occurs::stands_in;
use crate::pair::Pair;
use crate::simplify::simplify;
use sml_types::{Ty, TyForm, TyVar, TypeName, Types};
use smlc_base::Row;
use std::alloc::Global;

/// Makes a pair of a variable and another type equal, or marks a variable of the other type.
pub(crate) fn bind_pair(
    alloc: Global,
    bound: &mut Row<Option<Ty>>,
    types: &mut Types,
    next: &mut u32,
    names: &[TypeName],
    pair: Pair,
    log: &mut Vec<u32>,
) -> Result<bool, UnifyError>
    requires solved { IsSolved types.old bound.old }
    requires pair { IsBinding types.old bound.old pair }
    requires below { AreBelow types.old next.old }
    requires short { length bound.old ≤ next.old }
    ensures step { IsStep names.now next.old types.old bound.old pair types.new bound.new result }
    ensures logged { (old : List (Option Ty)) → IsLogged old bound.old log.old.items → IsLogged old bound.new log.new.items }
    ensures longer { IsLonger types.old types.new }
    ensures fresh { AreFreshFrom next.old types.old types.new }
    ensures below { AreBelow types.new next.new }
    ensures short { length bound.new ≤ next.new }
    ensures raised { next.old ≤ next.new }
{
    let var = variable(types.forms(), pair.left);
    if stands_in(alloc, types.forms(), bound.items(), var.num, pair.right)? {
        return Err(UnifyError::Cycle);
    }
    if var.eq {
        match unmarked(alloc, types.forms(), bound.items(), names, pair.right) {
            Err(e) => return Err(e),
            Ok(Some(other)) => {
                let marked = fresh(types, next)?;
                bind_logged(bound, log, other.num, marked)?;
                return Ok(false);
            }
            Ok(None) => {}
        }
    }
    bind_logged(bound, log, var.num, pair.right)?;
    Ok(true)
}

// The variable of a number that is one.
fn variable(forms: &[TyForm], ty: Ty) -> TyVar
    requires { (v : TyVar) × (slice_get forms.now ty.0 ≡ Some (Var v)) }
    ensures { slice_get forms.now ty.0 ≡ Some (Var result) }
{
    match forms.get(ty.0 as usize) {
        Some(TyForm::Var(v)) => *v,
        _ => unreachable!(),
    }
}

/// Makes all pairs equal, the last first.
pub(crate) fn solve(
    alloc: Global,
    bound: &mut Row<Option<Ty>>,
    types: &mut Types,
    next: &mut u32,
    names: &[TypeName],
    work: &mut Vec<Pair>,
    log: &mut Vec<u32>,
) -> Result<(), UnifyError>
    requires solved { IsSolved types.old bound.old }
    requires pairs { ArePairs types.old work.old.items }
    requires below { AreBelow types.old next.old }
    requires short { length bound.old ≤ next.old }
    ensures unified { IsUnifiedFrom names.now next.old types.old bound.old work.old.items types.new bound.new result }
    ensures logged { (old : List (Option Ty)) → IsLogged old bound.old log.old.items → IsLogged old bound.new log.new.items }
    ensures longer { IsLonger types.old types.new }
    ensures fresh { AreFreshFrom next.old types.old types.new }
    ensures below { AreBelow types.new next.new }
    ensures short { length bound.new ≤ next.new }
    ensures raised { next.old ≤ next.new }
{
    'pairs: loop {
        match simplify(alloc, types.forms(), bound.items(), work) {
            Err(e) => return Err(e),
            Ok(None) => return Ok(()),
            Ok(Some(pair)) => match bind_pair(alloc, bound, types, next, names, pair, log) {
                Err(e) => return Err(e),
                Ok(true) => {}
                Ok(false) => work.push(pair)?,
            },
        }
    }
}
