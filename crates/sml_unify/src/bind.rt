//! Bindings, new variables, and the log of what was bound.

ghost use Rattle.std.specs.Prelude.{◌≡◌, ℕ, ◌+◌, ◌<◌, ◌++◌, true, None, [], ◌∷◌, length, IfOk, OnOk, OnErr, ◌≤◌, slice_get, List, Option};
ghost use Rattle.sml_unify.specs.Steps.{IsLogged, IsUnbound, AreBelow};
ghost use Rattle.sml_types.specs.declared.types.TyForm.TheVariants.{Var};
ghost use Rattle.sml_types.specs.declared.types.Ty.{Ty};
ghost use Rattle.sml_unify.specs.Solved.{next_number, IsBoundTo, bound_at};

use sml_types::{Ty, TyForm, TyVar, Types};
use smlc_base::{NoMemory, Row};

/// The first number above those of all variables.
pub(crate) fn number(forms: &[TyForm], bound: &[Option<Ty>]) -> usize
    ensures { result ≡ next_number forms.now bound.now }
{
    let mut next = bound.len();
    for form in forms {
        if let TyForm::Var(v) = form {
            if next <= v.num as usize {
                next = v.num as usize + 1;
            }
        }
    }
    next
}

/// A new marked variable, numbered from the counter.
pub(crate) fn fresh(types: &mut Types, next: &mut u32) -> Result<Ty, NoMemory>
    requires below { AreBelow types.old next.old }
    ensures ok { IfOk result (λ t. (t.0 ≡ length types.old) × (types.new ≡ types.old ++ Var (record { num = next.old; eq = true }) ∷ [])) }
    ensures err { OnErr result (types.new ≡ types.old) }
    ensures below { AreBelow types.new next.new }
    ensures raised { next.old ≤ next.new }
{
    let num = *next;
    if num == u32::MAX {
        return Err(NoMemory);
    }
    let ty = types.var(TyVar { num, eq: true })?;
    *next = num + 1;
    Ok(ty)
}

/// Binds a number to a type.
pub(crate) fn bind(bound: &mut Row<Option<Ty>>, num: u32, ty: Ty) -> Result<(), NoMemory>
    ensures ok { OnOk result (IsBoundTo bound.old num ty bound.new) }
    ensures longer { length bound.old ≤ length bound.new }
    ensures short { (count : ℕ) → length bound.old ≤ count → num < count → length bound.new ≤ count }
    ensures others { (i : ℕ) → i < length bound.old → (i ≡ num → ⊥) → slice_get bound.new i ≡ slice_get bound.old i }
    ensures same { OnErr result ((i : ℕ) → i < length bound.old → slice_get bound.new i ≡ slice_get bound.old i) }
{
    while bound.len() <= num as usize {
        bound.push(None)?;
    }
    bound.set(num as usize, Some(ty));
    Ok(())
}

/// Binds a number that is not bound, and logs it.
pub(crate) fn bind_logged(
    bound: &mut Row<Option<Ty>>,
    log: &mut Vec<u32>,
    num: u32,
    ty: Ty,
) -> Result<(), NoMemory>
    requires { bound_at bound.old num ≡ None }
    ensures ok { OnOk result (IsBoundTo bound.old num ty bound.new) }
    ensures longer { length bound.old ≤ length bound.new }
    ensures short { (count : ℕ) → length bound.old ≤ count → num < count → length bound.new ≤ count }
    ensures logged { (old : List (Option Ty)) → IsLogged old bound.old log.old.items → IsLogged old bound.new log.new.items }
{
    log.push(num)?;
    bind(bound, num, ty)
}

/// Unbinds what the log names.
pub(crate) fn undo(bound: &mut Row<Option<Ty>>, log: &[u32], count: usize)
    ensures { (old : List (Option Ty)) → count ≡ length old → IsLogged old bound.old log.now → bound.new ≡ old }
{
    for num in log {
        unbind(bound, *num);
    }
    bound.truncate(count);
}

fn unbind(bound: &mut Row<Option<Ty>>, num: u32)
    ensures { IsUnbound bound.old num bound.new }
{
    if (num as usize) < bound.len() {
        bound.set(num as usize, None);
    }
}
