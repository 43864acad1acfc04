//! Variables in force.

ghost use Rattle.std.specs.Prelude.{◌≡◌, ℕ, List, OnOk};
ghost use Rattle.sml_expansion.specs.Scopes.{scope_of, within};
ghost use Rattle.sml_expansion.specs.Patterns.{env_of};

use sml_expansion::{Bound, Meaning, Walk};
use smlc_base::{Name, NoMemory};

/// Puts variables in force, the last innermost. They are taken back by the number of values before them.
pub fn put_in_force(walk: &mut Walk, bound: &[Bound]) -> Result<(), NoMemory>
    ensures scope { OnOk result ((names : List (List ℕ)) → scope_of names walk.new.bindings ≡ within (scope_of names walk.old.bindings) (env_of bound.now)) }
    ensures made { OnOk result (walk.new.made ≡ walk.old.made) }
    ensures marks { OnOk result (walk.new.marks ≡ walk.old.marks) }
{
    for variable in bound {
        walk.bindings
            .values
            .bind(variable.ident.key, Meaning::Variable(Name(variable.name)))?;
    }
    Ok(())
}
