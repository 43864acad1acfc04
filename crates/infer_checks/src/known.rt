//! Whether types mention only type names that are there.

ghost use Rattle.std.specs.Prelude.{◌≡◌, ◌+◌, ◌<◌, Some, length, IfOk};
ghost use Rattle.std.specs.List.{AllByRecursion};
ghost use Rattle.sml_types.specs.Escape.{mentions};
ghost use Rattle.sml_types.specs.Poly.{Context};
ghost use Rattle.sml_unify.specs.Solved.{AreBindings, under};
ghost use Rattle.infer_state.specs.Variables.{AreLaidOut};
ghost use Rattle.infer_scopes.specs.Scopes.{contexts_of};
ghost use Rattle.infer_closing.specs.Closing.{meaning};
ghost use Rattle.infer_checks.specs.Ending.{Decides, IsNameKnown, IsKnownIfNamed};

use infer_scopes::Scopes;
use infer_state::{Starts, Unknowns};
use sml_tree::Bare;
use sml_types::Ty;
use sml_unify::type_names::type_names;
use smlc_base::NoMemory;
use std::alloc::Global;

/// Whether a type mentions only type names that are there around a node.
pub(crate) fn is_known(
    alloc: Global,
    scopes: &Scopes,
    unknowns: &Unknowns,
    node: u32,
    ty: Ty,
) -> Result<bool, NoMemory>
    requires bindings { AreBindings unknowns.now.types unknowns.now.subst.bound }
    requires here { ty.0 < length unknowns.now.types }
    ensures { IfOk result (λ known. (c : Context) → contexts_of scopes.now node ≡ Some c → known ≡ mentions c.type_names (under unknowns.now.types (meaning unknowns.now) ty.0)) }
{
    let names = type_names(alloc, &unknowns.types, &unknowns.subst, ty)?;
    Ok(scopes.all_known(node, &names))
}

/// The type of a name.
pub(crate) fn name_ty(bare: &Bare, starts: &Starts, name: u32) -> Result<Ty, NoMemory>
    requires { starts.now.names + length bare.now.names < 4294967296 }
    ensures { IfOk result (λ t. (name < length bare.now.names) × (t.0 ≡ starts.now.names + name)) }
{
    if name as usize >= bare.names.len() {
        return Err(NoMemory);
    }
    Ok(Ty(starts.names + name))
}

/// Whether the types of names mention only type names that are there around a node.
pub(crate) fn are_known(
    alloc: Global,
    bare: &Bare,
    starts: &Starts,
    scopes: &Scopes,
    unknowns: &Unknowns,
    node: u32,
    names: &[u32],
) -> Result<bool, NoMemory>
    requires bindings { AreBindings unknowns.now.types unknowns.now.subst.bound }
    requires laid { AreLaidOut bare.now unknowns.now.types starts.now }
    ensures { IfOk result (λ known. (c : Context) → contexts_of scopes.now node ≡ Some c → Decides (AllByRecursion (IsNameKnown bare.now (meaning unknowns.now) c) names.now) (AllByRecursion (IsKnownIfNamed bare.now (meaning unknowns.now) c) names.now) known) }
{
    // What holds of all forms.
    let _ = unknowns.types.forms();
    'names: for name in names {
        let ty = name_ty(bare, starts, *name)?;
        if !is_known(alloc, scopes, unknowns, node, ty)? {
            return Ok(false);
        }
    }
    Ok(true)
}
