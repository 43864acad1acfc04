//! Names that come into scope.

ghost use Rattle.std.specs.Prelude.{◌≡◌, ℕ, IfOk, OnOk};
ghost use Rattle.cps_ir.specs.declared.atom.Atom.{Atom};
ghost use Rattle.convert_scopes.specs.Scopes.{IsScope};
ghost use Rattle.convert_pieces.specs.Names.{bound_to, group_names};

use crate::names::BoundName;
use convert_decide::sizes::sum;
use convert_scopes::Scopes;
use cps_ir::Atom;
use sml_tree::bare::RecBinding;
use smlc_base::{NoMemory, Row};
use std::alloc::Global;

/// The present scope becomes one with names more, of which the first is seen before the others.
///
/// # Errors
///
/// Want of memory, also where a name isn't below the bound.
pub fn bind_all(scopes: &mut Scopes, names: &[BoundName]) -> Result<(), NoMemory>
    ensures kept { OnOk result ((v : ℕ) (σ : ℕ → Atom) → IsScope scopes.old.bounds v σ → IsScope scopes.new.bounds v σ) }
    ensures bound { OnOk result ((σ : ℕ → Atom) → IsScope scopes.old.bounds scopes.old.present σ → IsScope scopes.new.bounds scopes.new.present (bound_to names.now σ)) }
{
    let mut at = names.len();
    while at > 0 {
        at -= 1;
        scopes.bind(names[at].name, names[at].atom)?;
    }
    Ok(())
}

/// The names of a group, which are variables from a number on.
///
/// # Errors
///
/// Want of memory, also where there are no more numbers for variables.
pub fn group_names(
    alloc: Global,
    bindings: &[RecBinding],
    first: u32,
) -> Result<Row<BoundName>, NoMemory>
    ensures { IfOk result (λ r. r ≡ group_names bindings.now first) }
{
    let mut names = Row::new(alloc);
    let mut variable = first;
    for binding in bindings {
        names.push(BoundName {
            name: binding.name,
            atom: Atom::Var(variable),
        })?;
        variable = sum(variable, 1)?;
    }
    Ok(names)
}
