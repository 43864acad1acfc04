//! The numbers of the variables that stand in types at the end.

ghost use Rattle.std.specs.Prelude.{◌≡◌, ◌<◌, true, nat_eq, map, length, IfOk};
ghost use Rattle.std.specs.List.{find};
ghost use Rattle.sml_types.specs.Tree.{inst, occurs};
ghost use Rattle.sml_types.specs.Schemes.{scheme_poly};
ghost use Rattle.sml_unify.specs.Resolve.{renamed, renamed_as, led_to};
ghost use Rattle.sml_unify.specs.Solved.{AreBindings, under};
ghost use Rattle.infer_closing.specs.Closing.{meaning};
ghost use Rattle.infer_checks.specs.Checked.{ending};
ghost use Rattle.infer_checks.specs.Ending.{Lists, IsOpenNumber};

use crate::explicit::look;
use infer_state::{Settled, Unknowns};
use sml_types::{Ty, TyVar};
use sml_unify::Subst;
use sml_unify::resolve::Rename;
use sml_unify::variables::variables;
use smlc_base::NoMemory;
use std::alloc::Global;

// What the first rename of a number leads to.
fn rename_of(renames: &[Rename], num: u32) -> Option<TyVar>
    ensures { result ≡ led_to (find (λ r. nat_eq r.from num) renames.now) }
{
    renames
        .iter()
        .find(|rename| rename.from == num)
        .map(|rename| rename.to)
}

/// What stands for a variable.
pub(crate) fn renamed(renames: &[Rename], var: TyVar) -> TyVar
    ensures { result ≡ renamed_as var (led_to (find (λ r. nat_eq r.from var.num) renames.now)) }
{
    match rename_of(renames, var.num) {
        Some(to) => to,
        None => var,
    }
}

/// The numbers of what stands for variables.
pub(crate) fn numbers_of(
    alloc: Global,
    renames: &[Rename],
    vars: &[TyVar],
) -> Result<Vec<u32>, NoMemory>
    ensures { IfOk result (λ numbers. numbers.items ≡ map (λ v. (renamed_as v (led_to (find (λ r. nat_eq r.from v.num) renames.now))).num) vars.now) }
{
    let numbers = vars
        .iter()
        .map(|var| renamed(renames, *var).num)
        .collect(alloc)?;
    Ok(numbers)
}

/// The numbers of the variables that stand in a type at the end.
pub(crate) fn type_numbers(
    alloc: Global,
    unknowns: &Unknowns,
    renames: &[Rename],
    ty: Ty,
) -> Result<Vec<u32>, NoMemory>
    requires bindings { AreBindings unknowns.now.types unknowns.now.subst.bound }
    requires here { ty.0 < length unknowns.now.types }
    ensures { IfOk result (λ numbers. Lists (λ a. occurs a (inst (renamed renames.now) (under unknowns.now.types (meaning unknowns.now) ty.0)) ≡ true) numbers.items) }
{
    let found = variables(alloc, &unknowns.types, &unknowns.subst, ty)?;
    let numbers = numbers_of(alloc, renames, &found)?;
    Ok(numbers)
}

/// The numbers of the variables that stand in what a variable stands for at the end.
pub(crate) fn variable_numbers(
    alloc: Global,
    unknowns: &Unknowns,
    renames: &[Rename],
    var: TyVar,
) -> Result<Vec<u32>, NoMemory>
    requires { AreBindings unknowns.now.types unknowns.now.subst.bound }
    ensures { IfOk result (λ numbers. Lists (λ a. occurs a (ending unknowns.now renames.now var) ≡ true) numbers.items) }
{
    match look(unknowns.subst.bound.items(), var.num) {
        Some(ty) => {
            let numbers = type_numbers(alloc, unknowns, renames, ty)?;
            Ok(numbers)
        }
        None => {
            let numbers = numbers_of(alloc, renames, &[var])?;
            Ok(numbers)
        }
    }
}
