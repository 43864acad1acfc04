//! Pairs of types are worked off until a variable is to be bound.
//!
//! Two forms that were made equal are linked, and a pair that links join is not taken apart again: so each form is taken apart once, however many types share it.

ghost use Rattle.std.specs.Prelude.{◌≡◌, Some, List, map, slice_get};
ghost use Rattle.sml_types.specs.declared.types.TyForm.TheVariants.{Var};
ghost use Rattle.sml_types.specs.declared.types.TyVar.{TyVar};
ghost use Rattle.sml_unify.specs.declared.task.Task.TheVariants.{Unify};
ghost use Rattle.sml_unify.specs.Solved.{ArePairs, IsSolved, IsPair};
ghost use Rattle.sml_unify.specs.Simplified.{IsSimplified};
ghost use Rattle.sml_unify.specs.Tasks.{pairs_of, AreHeads};
ghost use Rattle.sml_unify.specs.Runs.{IsOpened};

use crate::error::UnifyError;
use crate::head::head;
use crate::link::{find, link};
use crate::pair::Pair;
use crate::parts::{parts, same_head};
use crate::task::{Task, add_pairs, add_parts, tasks_of};
use indexmap::IndexMap;
use sml_types::{Ty, TyForm};
use std::alloc::Global;

/// What the heads of a pair are: one variable, a variable to be bound, or two forms that are none.
#[derive(Clone, Copy, Drop)]
pub enum Heads {
    Same,
    Binds(Pair),
    Forms(Pair),
}

fn heads_of(forms: &[TyForm], bound: &[Option<Ty>], pair: Pair) -> Heads
    requires solved { IsSolved forms.now bound.now }
    requires pair { IsPair forms.now pair }
    ensures { AreHeads forms.now bound.now pair result }
{
    let left = head(forms, bound, pair.left);
    let right = head(forms, bound, pair.right);
    let straight = Pair { left, right };
    let across = Pair {
        left: right,
        right: left,
    };
    match &forms[left.0 as usize] {
        TyForm::Var(x) => match &forms[right.0 as usize] {
            TyForm::Var(y) => {
                if x.num == y.num {
                    Heads::Same
                } else if x.eq && !y.eq {
                    Heads::Binds(across)
                } else {
                    Heads::Binds(straight)
                }
            }
            _ => Heads::Binds(straight),
        },
        _ => match &forms[right.0 as usize] {
            TyForm::Var(_) => Heads::Binds(across),
            _ => Heads::Forms(straight),
        },
    }
}

// Takes two forms apart, if they make the same of equally many parts.
fn open(
    alloc: Global,
    forms: &[TyForm],
    tasks: &mut Vec<Task>,
    pair: Pair,
) -> Result<(), UnifyError>
    requires pair { IsPair forms.now pair }
    requires left { (v : TyVar) → slice_get forms.now pair.left.0 ≡ Some (Var v) → ⊥ }
    requires right { (v : TyVar) → slice_get forms.now pair.right.0 ≡ Some (Var v) → ⊥ }
    ensures { IsOpened forms.now pair tasks.old.items tasks.new.items result }
{
    let f = &forms[pair.left.0 as usize];
    let g = &forms[pair.right.0 as usize];
    if !same_head(f, g) {
        return Err(UnifyError::Clash);
    }
    let xs = parts(alloc, f)?;
    let ys = parts(alloc, g)?;
    tasks.push(Task::Link(pair))?;
    add_parts(tasks, &xs, &ys)?;
    Ok(())
}

// Works off tasks, the last first.
fn run(
    alloc: Global,
    forms: &[TyForm],
    bound: &[Option<Ty>],
    tasks: &mut Vec<Task>,
) -> Result<Option<Pair>, UnifyError>
    requires solved { IsSolved forms.now bound.now }
    requires pairs { (p : List Pair) × (ArePairs forms.now p) × (tasks.old.items ≡ map Unify p) }
    ensures { IsSimplified forms.now bound.now (pairs_of tasks.old.items) (pairs_of tasks.new.items) result }
{
    let mut links = IndexMap::new(alloc);
    'tasks: while let Some(task) = tasks.pop() {
        match task {
            Task::Link(pair) => {
                link(&mut links, pair.left, pair.right)?;
            }
            Task::Unify(pair) => match heads_of(forms, bound, pair) {
                Heads::Same => {}
                Heads::Binds(next) => return Ok(Some(next)),
                Heads::Forms(next) => {
                    let left = find(&links, forms.len(), next.left);
                    let right = find(&links, forms.len(), next.right);
                    if left.0 != right.0 {
                        match open(alloc, forms, tasks, Pair { left, right }) {
                            Err(e) => return Err(e),
                            Ok(()) => {}
                        }
                    }
                }
            },
        }
    }
    Ok(None)
}

/// Works off pairs until one of a variable and another type is on top, and takes that off.
pub(crate) fn simplify(
    alloc: Global,
    forms: &[TyForm],
    bound: &[Option<Ty>],
    work: &mut Vec<Pair>,
) -> Result<Option<Pair>, UnifyError>
    requires solved { IsSolved forms.now bound.now }
    requires here { ArePairs forms.now work.old.items }
    ensures { IsSimplified forms.now bound.now work.old.items work.new.items result }
{
    let mut tasks = tasks_of(alloc, work)?;
    let mut left = Vec::new(alloc);
    let found = match run(alloc, forms, bound, &mut tasks) {
        Err(e) => return Err(e),
        Ok(found) => found,
    };
    add_pairs(&mut left, &tasks)?;
    *work = left;
    Ok(found)
}
