//! What a number leads to through variables that are bound.

ghost use Rattle.std.specs.Prelude.{◌≡◌, ◌<◌, length};
ghost use Rattle.sml_unify.specs.Solved.{bound_at, IsSolved, IsFree, IsSameType};

use sml_types::{Ty, TyForm};

fn look(bound: &[Option<Ty>], num: u32) -> Option<Ty>
    ensures { result ≡ bound_at bound.now num }
{
    match bound.get(num as usize) {
        Some(found) => *found,
        None => None,
    }
}

/// The type that a number leads to through variables that are bound.
pub(crate) fn head(forms: &[TyForm], bound: &[Option<Ty>], ty: Ty) -> Ty
    requires solved { IsSolved forms.now bound.now }
    requires here { ty.0 < length forms.now }
    ensures there { result.0 < length forms.now }
    ensures free { IsFree forms.now bound.now result.0 }
    ensures same { IsSameType forms.now bound.now ty.0 result.0 }
{
    let mut now = ty;
    for _ in 0..bound.len() {
        match &forms[now.0 as usize] {
            TyForm::Var(v) => match look(bound, v.num) {
                Some(next) => now = next,
                None => return now,
            },
            _ => return now,
        }
    }
    now
}
