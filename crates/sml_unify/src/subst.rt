//! Unification.

ghost use Rattle.std.specs.Prelude.{◌≡◌, ℕ, ◌<◌, ◌≤◌, [], ◌∷◌, length, OnErr, IfOk, List, Option};
ghost use Rattle.sml_unify.specs.Solved.{AreBindings, Solves, Respects, meant};
ghost use Rattle.sml_types.specs.Forms.{AreApplied};
ghost use Rattle.sml_types.specs.declared.types.TyForm.{TyForm};
ghost use Rattle.sml_unify.specs.Steps.{IsLonger, AreFresh, AreFreshFrom, AreBelow};
ghost use Rattle.sml_unify.specs.Outcomes.{IsUnified, IsUnifiedFrom};

use crate::bind::{number, undo};
use crate::error::UnifyError;
use crate::pair::Pair;
use crate::solve::solve;
use sml_types::{Tables, Ty, Types};
use smlc_base::{NoMemory, Row};
use std::alloc::Global;

/// What type variables are bound to: item i is for the variable of number i.
#[derive(Drop)]
pub struct Subst {
    pub bound: Row<Option<Ty>>,
}

impl Subst {
    /// Binds none.
    pub fn new(alloc: Global) -> Subst
        ensures none { result.bound ≡ [] }
        ensures bindings { (forms : List TyForm) → AreBindings forms result.bound }
    {
        Subst {
            bound: Row::new(alloc),
        }
    }
}

fn first_work(alloc: Global, left: Ty, right: Ty) -> Result<Vec<Pair>, NoMemory>
    ensures { IfOk result (λ v. v.items ≡ record { left = left; right = right } ∷ []) }
{
    let mut work = Vec::new(alloc);
    work.push(Pair { left, right })?;
    Ok(work)
}

/// Makes two types equal: the substitution becomes a most general one that extends the old, keeps the equality marks and makes both equal.
///
/// # Errors
///
/// `Clash`, `Cycle` or `NoEquality` where there is no such substitution, by the first pair of types that cannot be made equal. Pairs are taken from left to right and depth first, under what is bound so far. Two different heads clash; a variable inside the other type is a cycle, also where marks forbid the pair; an equality variable against a type that admits no equality is the third. After an error the substitution is as before. `types` keeps each type under its number, and may have new variables.
pub fn unify(
    subst: &mut Subst,
    types: &mut Types,
    tables: &Tables,
    left: Ty,
    right: Ty,
) -> Result<(), UnifyError>
    requires bindings { AreBindings types.old subst.old.bound }
    requires left { left.0 < length types.old }
    requires right { right.0 < length types.old }
    ensures unified { IsUnified tables.now.names types.old subst.old.bound (record { left = left; right = right } ∷ []) types.new subst.new.bound result }
    ensures unchanged { OnErr result (subst.new.bound ≡ subst.old.bound) }
    ensures longer { IsLonger types.old types.new }
    ensures fresh { AreFresh types.old subst.old.bound types.new }
    ensures bindings { AreBindings types.new subst.new.bound }
    ensures solution { Solves types.new subst.new.bound (meant types.new subst.new.bound) }
    ensures marks { Respects tables.now.names types.old (meant types.old subst.old.bound) → Respects tables.now.names types.new (meant types.new subst.new.bound) }
    ensures applied { AreApplied tables.now.names types.old → AreApplied tables.now.names types.new }
{
    let count = number(types.forms(), subst.bound.items());
    if count > u32::MAX as usize {
        return Err(UnifyError::NoMemory);
    }
    let mut next = count as u32;
    unify_next(subst, types, &mut next, tables, left, right)
}

/// As `unify`, with the numbers of new variables from a counter: `next` is above the numbers of all variables, and where it is at its end there is want of memory. An error leaves the substitution as before, and new variables may stay.
pub fn unify_next(
    subst: &mut Subst,
    types: &mut Types,
    next: &mut u32,
    tables: &Tables,
    left: Ty,
    right: Ty,
) -> Result<(), UnifyError>
    requires bindings { AreBindings types.old subst.old.bound }
    requires left { left.0 < length types.old }
    requires right { right.0 < length types.old }
    requires below { AreBelow types.old next.old }
    requires short { length subst.old.bound ≤ next.old }
    ensures unified { IsUnifiedFrom tables.now.names next.old types.old subst.old.bound (record { left = left; right = right } ∷ []) types.new subst.new.bound result }
    ensures unchanged { OnErr result (subst.new.bound ≡ subst.old.bound) }
    ensures longer { IsLonger types.old types.new }
    ensures fresh { AreFreshFrom next.old types.old types.new }
    ensures bindings { AreBindings types.new subst.new.bound }
    ensures solution { Solves types.new subst.new.bound (meant types.new subst.new.bound) }
    ensures marks { Respects tables.now.names types.old (meant types.old subst.old.bound) → Respects tables.now.names types.new (meant types.new subst.new.bound) }
    ensures applied { AreApplied tables.now.names types.old → AreApplied tables.now.names types.new }
    ensures below { AreBelow types.new next.new }
    ensures short { length subst.new.bound ≤ next.new }
    ensures raised { next.old ≤ next.new }
{
    // Opens the invariant of the types.
    let _ = &types.forms;
    let alloc = subst.bound.allocator();
    let count = subst.bound.len();
    let mut work = first_work(alloc, left, right)?;
    let mut log = Vec::new(alloc);
    match solve(
        alloc,
        &mut subst.bound,
        types,
        next,
        tables.names.items(),
        &mut work,
        &mut log,
    ) {
        Ok(()) => Ok(()),
        Err(e) => {
            undo(&mut subst.bound, &log, count);
            Err(e)
        }
    }
}
