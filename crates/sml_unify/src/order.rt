//! Types in an order in which the parts of each come first.

ghost use Rattle.std.specs.Prelude.{◌≡◌, ◌<◌, ◌++◌, length, map, IfOk, OnOk};
ghost use Rattle.sml_types.specs.Forms.{parts_of};
ghost use Rattle.sml_unify.specs.Solved.{IsSolved};
ghost use Rattle.sml_unify.specs.Orders.{IsOrder, opening, reach};

use crate::head::head;
use crate::parts::parts;
use crate::visit::visit;
use indexmap::IndexSet;
use sml_types::{Ty, TyForm};
use smlc_base::NoMemory;
use std::alloc::Global;

/// A type, and the form that it leads to through variables that are bound.
#[derive(Clone, Copy, Drop)]
pub struct Headed {
    pub ty: Ty,
    pub head: Ty,
}

/// To come to a type, or to note one whose parts were come to.
#[derive(Clone, Copy, Drop)]
pub enum Step {
    Reach(Ty),
    Note(Headed),
}

fn reach_parts(alloc: Global, form: &TyForm) -> Result<Vec<Step>, NoMemory>
    ensures { IfOk result (λ v. v.items ≡ map reach (parts_of form.now)) }
{
    let found = parts(alloc, form)?;
    let steps = found
        .iter()
        .map(|part| Step::Reach(Ty(*part)))
        .collect(alloc)?;
    Ok(steps)
}

// Opens a form: its parts are to be come to first.
fn open(alloc: Global, work: &mut Vec<Step>, form: &TyForm, entry: Headed) -> Result<(), NoMemory>
    ensures { OnOk result (work.new.items ≡ work.old.items ++ opening entry form.now) }
{
    let mut steps = reach_parts(alloc, form)?;
    work.push(Step::Note(entry))?;
    work.append(&mut steps)?;
    Ok(())
}

/// The types that stand in a type under what is bound, each behind its parts.
pub(crate) fn order(
    alloc: Global,
    forms: &[TyForm],
    bound: &[Option<Ty>],
    ty: Ty,
) -> Result<Vec<Headed>, NoMemory>
    requires solved { IsSolved forms.now bound.now }
    requires here { ty.0 < length forms.now }
    ensures { IfOk result (λ v. IsOrder forms.now bound.now ty.0 v.items) }
{
    let mut seen = IndexSet::new(alloc);
    let mut order = Vec::new(alloc);
    let mut work = Vec::new(alloc);
    work.push(Step::Reach(ty))?;
    while let Some(step) = work.pop() {
        match step {
            Step::Note(entry) => order.push(entry)?,
            Step::Reach(next) => {
                let now = head(forms, bound, next);
                let entry = Headed {
                    ty: next,
                    head: now,
                };
                let first = visit(&mut seen, now.0)?;
                if first {
                    open(alloc, &mut work, &forms[now.0 as usize], entry)?;
                } else {
                    order.push(entry)?;
                }
            }
        }
    }
    Ok(order)
}
