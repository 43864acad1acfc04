//! Instances of types with variables: copies with new variables.

ghost use Rattle.std.specs.Prelude.{◌≡◌, ◌<◌, ◌≤◌, length, IfOk};
ghost use Rattle.sml_unify.specs.Steps.{IsLonger, AreBelow};
ghost use Rattle.infer_parts.specs.Instances.{IsNewVar, AreNewVars, IsShared, IsFreshCopy, InstancesAlways};
ghost use Rattle.sml_types.specs.Forms.{tree};

use crate::copy::copy;
use crate::given::Given;
use sml_types::{Ty, TyVar, Types};
use smlc_base::NoMemory;
use std::alloc::Global;

/// A new variable; `next` is above the numbers of all variables.
pub fn fresh_var(types: &mut Types, next: &mut u32, eq: bool) -> Result<Ty, NoMemory>
    requires below { AreBelow types.old next.old }
    ensures ok { IfOk result (λ t. IsNewVar next.old eq types.new t) }
    ensures below { AreBelow types.new next.new }
    ensures raised { next.old ≤ next.new }
    ensures longer { IsLonger types.old types.new }
{
    let num = *next;
    if num == u32::MAX {
        return Err(NoMemory);
    }
    let ty = types.var(TyVar { num, eq })?;
    *next = num + 1;
    Ok(ty)
}

/// A new variable for each of these, marked as it is.
fn fresh_vars(
    alloc: Global,
    types: &mut Types,
    next: &mut u32,
    vars: &[TyVar],
) -> Result<Vec<Given>, NoMemory>
    requires below { AreBelow types.old next.old }
    ensures ok { IfOk result (λ given. AreNewVars next.old vars.now types.new given.items) }
    ensures below { AreBelow types.new next.new }
    ensures raised { next.old ≤ next.new }
    ensures longer { IsLonger types.old types.new }
{
    let mut given = Vec::new(alloc);
    'each: for var in vars {
        let ty = fresh_var(types, next, var.eq)?;
        given.push(Given { num: var.num, ty })?;
    }
    Ok(given)
}

/// The type of number `body` with new variables in the place of `vars`, marked as these are. The forms that are copied begin at number `from`.
pub fn instance(
    alloc: Global,
    types: &mut Types,
    next: &mut u32,
    from: u32,
    body: Ty,
    vars: &[TyVar],
) -> Result<Ty, NoMemory>
    requires order { from ≤ body.0 }
    requires there { body.0 < length types.old }
    requires below { AreBelow types.old next.old }
    requires shared { IsShared types.old vars.now from body.0 }
    ensures ok { IfOk result (λ t. IsFreshCopy types.old next.old vars.now body.0 types.new t) }
    ensures always { IfOk result (λ t. InstancesAlways vars.now (tree types.old body.0) types.new t.0) }
    ensures below { AreBelow types.new next.new }
    ensures longer { IsLonger types.old types.new }
{
    if body.0 == u32::MAX {
        return Err(NoMemory);
    }
    let given = fresh_vars(alloc, types, next, vars)?;
    let copies = copy(alloc, types, from, body.0 + 1, &given)?;
    Ok(copies[(body.0 - from) as usize])
}
