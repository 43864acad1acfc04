//! Types under what is bound, as new forms.

ghost use Rattle.std.specs.Prelude.{◌≡◌, ◌<◌, ◌≤◌, length, IfOk, List};
ghost use Rattle.sml_types.specs.declared.tables.TypeName.{TypeName};
ghost use Rattle.sml_types.specs.Tree.{inst};
ghost use Rattle.sml_types.specs.Forms.{tree, AreApplied};
ghost use Rattle.sml_unify.specs.Solved.{AreBindings, meant, under};
ghost use Rattle.sml_unify.specs.Steps.{IsLonger};
ghost use Rattle.sml_unify.specs.Resolve.{renamed, AreRenames, IsSegment, AreVarsOf};

use crate::copies::copy_all;
use crate::link::linked;
use crate::order::order;
use crate::subst::Subst;
use sml_types::{Ty, TyVar, Types};
use smlc_base::NoMemory;
use std::alloc::Global;

/// A variable that stands in the place of that of another number.
#[derive(Clone, Copy, Drop)]
pub struct Rename {
    pub from: u32,
    pub to: TyVar,
}

/// A type whose forms have all their parts from number `from` on.
#[derive(Clone, Copy, Drop)]
pub struct Resolved {
    pub from: u32,
    pub ty: Ty,
}

/// Writes a type under what is bound as new forms, with its variables renamed.
pub fn resolve(
    alloc: Global,
    types: &mut Types,
    subst: &Subst,
    renames: &[Rename],
    ty: Ty,
) -> Result<Resolved, NoMemory>
    requires bindings { AreBindings types.old subst.now.bound }
    requires here { ty.0 < length types.old }
    requires renames { AreRenames types.old renames.now }
    ensures is { IfOk result (λ r. tree types.new r.ty.0 ≡ inst (renamed renames.now) (under types.old (meant types.old subst.now.bound) ty.0)) }
    ensures segment { IfOk result (λ r. IsSegment types.new r.from r.ty.0) }
    ensures order { IfOk result (λ r. r.from ≤ r.ty.0) }
    ensures there { IfOk result (λ r. r.ty.0 < length types.new) }
    ensures longer { IsLonger types.old types.new }
    ensures vars { AreVarsOf types.old renames.now types.new }
    ensures applied { (names : List TypeName) → AreApplied names types.old → AreApplied names types.new }
{
    let from = types.forms().len();
    if from > u32::MAX as usize {
        return Err(NoMemory);
    }
    let order = order(alloc, types.forms(), subst.bound.items(), ty)?;
    let copies = copy_all(alloc, types, renames, &order)?;
    match linked(&copies, ty) {
        Some(copy) => Ok(Resolved {
            from: from as u32,
            ty: copy,
        }),
        None => unreachable!(),
    }
}
