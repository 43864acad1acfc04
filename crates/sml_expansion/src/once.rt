//! That no name and no label stands twice.

ghost use Rattle.std.specs.Prelude.{◌≡◌, [], nat_eq, map, IfOk, OnOk};
ghost use Rattle.sml_expansion.specs.Labels.{doubles};
ghost use Rattle.sml_expansion.specs.Makings.{Runs, breaks};
ghost use Rattle.sml_expansion.specs.Patterns.{idents_once, vars_once};
ghost use Rattle.sml_expansion.specs.Types.{labels_once};

use crate::labels::slots_placed;
use crate::made::Made;
use crate::scope::{Bound, Ident};
use indexmap::IndexSet;
use sml_tree::bare::Lab;
use smlc_base::{NoMemory, Place, Refusal};

/// No number stands twice.
fn keys_once(made: &mut Made, keys: &[(u32, Place)]) -> Result<(), NoMemory>
    ensures { OnOk result (Runs (breaks (doubles nat_eq [] keys.now)) made.old tt made.new) }
{
    let mut seen = IndexSet::new(made.allocator());
    for (key, place) in keys {
        let (_, new) = seen.insert_full(*key)?;
        made.refuse_if(!new, Refusal::BadBinding(*place));
    }
    Ok(())
}

/// No identifier stands twice.
pub fn idents_once(made: &mut Made, idents: &[Ident]) -> Result<(), NoMemory>
    ensures { OnOk result (Runs (idents_once idents.now) made.old tt made.new) }
{
    let mut keys = Vec::new(made.allocator());
    for ident in idents {
        keys.push((ident.key, ident.place))?;
    }
    keys_once(made, &keys)
}

/// No variable stands twice.
pub fn vars_once(made: &mut Made, vars: &[Bound]) -> Result<(), NoMemory>
    ensures { OnOk result (Runs (vars_once vars.now) made.old tt made.new) }
{
    let mut idents = Vec::new(made.allocator());
    for bound in vars {
        idents.push(bound.ident)?;
    }
    idents_once(made, &idents)
}

/// No label stands twice in a record phrase.
pub fn labels_once(made: &mut Made, labs: &[(Lab, Place)]) -> Result<(), NoMemory>
    ensures { OnOk result (Runs (labels_once labs.now) made.old tt made.new) }
{
    let keys = slots_placed(made.allocator(), labs)?;
    keys_once(made, &keys)
}
