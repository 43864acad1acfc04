//! Pairs of types are made equal, one after another.

ghost use Rattle.sml_unify.specs.Solved.{IsPair, IsEqualPair, ArePairs, AreEqual};
ghost use Rattle.infer_state.specs.Steps.{IsState, IsStep};

use infer_state::{Failure, Unknowns};
use sml_types::Tables;
use sml_unify::pair::Pair;
use sml_unify::{UnifyError, unify_next};

fn equal(unknowns: &mut Unknowns, tables: &Tables, pair: Pair) -> Result<(), Failure>
    requires state { IsState tables.now.names unknowns.old }
    requires there { IsPair unknowns.old.types pair }
    ensures step { IsStep tables.now.names (λ f. IsEqualPair unknowns.old.types f pair) unknowns.old unknowns.new result }
{
    match unify_next(
        &mut unknowns.subst,
        &mut unknowns.types,
        &mut unknowns.next,
        tables,
        pair.left,
        pair.right,
    ) {
        Ok(()) => Ok(()),
        Err(UnifyError::NoMemory) => Err(Failure::NoMemory),
        Err(UnifyError::Clash | UnifyError::Cycle | UnifyError::NoEquality) => {
            Err(Failure::Untypable)
        }
    }
}

/// Makes all pairs equal.
///
/// # Errors
///
/// `Untypable` where no solution does.
pub(crate) fn equal_all(
    unknowns: &mut Unknowns,
    tables: &Tables,
    pairs: &[Pair],
) -> Result<(), Failure>
    requires state { IsState tables.now.names unknowns.old }
    requires there { ArePairs unknowns.old.types pairs.now }
    ensures step { IsStep tables.now.names (λ f. AreEqual unknowns.old.types f pairs.now) unknowns.old unknowns.new result }
{
    // Opens the invariant of the types.
    let _ = &unknowns.types.forms;
    'pairs: for pair in pairs {
        match equal(unknowns, tables, *pair) {
            Ok(()) => {}
            Err(failure) => return Err(failure),
        }
    }
    Ok(())
}
