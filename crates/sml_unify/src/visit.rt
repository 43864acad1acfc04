//! The numbers that a walk has come to.

ghost use Rattle.std.specs.Prelude.{IfOk};
ghost use Rattle.sml_unify.specs.Visit.{IsVisit};

use indexmap::IndexSet;
use smlc_base::NoMemory;

/// Whether a walk comes to a number for the first time.
pub(crate) fn visit(seen: &mut IndexSet<u32>, num: u32) -> Result<bool, NoMemory>
    ensures { IfOk result (λ first. IsVisit seen.old.keys num first seen.new.keys) }
{
    let first = seen.insert(num)?;
    Ok(first)
}
