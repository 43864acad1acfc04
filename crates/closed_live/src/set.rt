//! Sets of variables that change.

ghost use Rattle.std.specs.Prelude.{◌∷◌, ◌++◌, OnOk};
ghost use Rattle.place_laws.specs.Live.{without};
ghost use Rattle.closed_live.specs.Same.{AreSame};

use smlc_base::NoMemory;
use std::collections::BTreeSet;

/// Puts one in.
pub fn insert(set: &mut BTreeSet<u32>, x: u32) -> Result<(), NoMemory>
    ensures { OnOk result (AreSame set.new.keys (x ∷ set.old.keys)) }
{
    set.insert(x)?;
    Ok(())
}

pub(crate) fn remove(set: &mut BTreeSet<u32>, x: u32)
    ensures { AreSame set.new.keys (without x set.old.keys) }
{
    set.remove(&x);
}

/// Puts all of a list in.
pub(crate) fn insert_all(set: &mut BTreeSet<u32>, xs: &[u32]) -> Result<(), NoMemory>
    ensures { OnOk result (AreSame set.new.keys (xs.now ++ set.old.keys)) }
{
    for x in xs {
        insert(set, *x)?;
    }
    Ok(())
}
