//! Sets of variables that change.

ghost use Rattle.std.specs.Prelude.{[], ◌∷◌, OnOk};
ghost use Rattle.sml_tree.specs.Sets.{union, without};
ghost use Rattle.cps_free.specs.Same.{AreSame};

use smlc_base::NoMemory;
use std::collections::BTreeSet;

pub(crate) fn insert(set: &mut BTreeSet<u32>, x: u32) -> Result<(), NoMemory>
    ensures { OnOk result (AreSame set.new.keys (union (x ∷ []) set.old.keys)) }
{
    set.insert(x)?;
    Ok(())
}

pub(crate) fn remove(set: &mut BTreeSet<u32>, x: u32)
    ensures { AreSame set.new.keys (without set.old.keys (x ∷ [])) }
{
    set.remove(&x);
}

fn insert_unless(set: &mut BTreeSet<u32>, x: u32, gone: &[u32]) -> Result<(), NoMemory>
    ensures { OnOk result (AreSame set.new.keys (union (without (x ∷ []) gone.now) set.old.keys)) }
{
    if gone.contains(&x) {
        Ok(())
    } else {
        insert(set, x)
    }
}

/// All of a list but those of the other.
pub(crate) fn insert_but(set: &mut BTreeSet<u32>, xs: &[u32], gone: &[u32]) -> Result<(), NoMemory>
    ensures { OnOk result (AreSame set.new.keys (union (without xs.now gone.now) set.old.keys)) }
{
    for x in xs {
        insert_unless(set, *x, gone)?;
    }
    Ok(())
}
