//! The occurs check.

ghost use Rattle.std.specs.Prelude.{◌≡◌, ◌<◌, None, length, IfOk};
ghost use Rattle.sml_types.specs.Tree.{occurs};
ghost use Rattle.sml_unify.specs.Solved.{bound_at, IsSolved, meant, under};

use crate::head::head;
use crate::parts::parts;
use crate::visit::visit;
use indexmap::IndexSet;
use sml_types::{Ty, TyForm};
use smlc_base::NoMemory;
use std::alloc::Global;

/// Whether the variable of a number stands in a type, under what is bound.
pub(crate) fn stands_in(
    alloc: Global,
    forms: &[TyForm],
    bound: &[Option<Ty>],
    num: u32,
    ty: Ty,
) -> Result<bool, NoMemory>
    requires solved { IsSolved forms.now bound.now }
    requires here { ty.0 < length forms.now }
    requires unbound { bound_at bound.now num ≡ None }
    ensures { IfOk result (λ b. b ≡ occurs num (under forms.now (meant forms.now bound.now) ty.0)) }
{
    let mut seen = IndexSet::new(alloc);
    let mut work = Vec::new(alloc);
    work.push(ty.0)?;
    while let Some(next) = work.pop() {
        let now = head(forms, bound, Ty(next));
        let form = &forms[now.0 as usize];
        match form {
            TyForm::Var(v) => {
                if v.num == num {
                    return Ok(true);
                }
            }
            _ => {
                if visit(&mut seen, now.0)? {
                    let mut found = parts(alloc, form)?;
                    work.append(&mut found)?;
                }
            }
        }
    }
    Ok(false)
}
