//! Why inference ends.

use sml_unify::UnifyError;
use smlc_base::NoMemory;
use std::alloc::{AllocError, AllocFailed};

/// There is no typing, or memory is wanting.
#[derive(Clone, Copy, Drop)]
pub enum Failure {
    Untypable,
    NoMemory,
}

impl From<NoMemory> for Failure {
    ghost use Rattle.std.specs.Prelude.{◌≡◌};
    ghost use Rattle.infer_state.specs.declared.failure.Failure.{Failure};

    ghost from_gives = { λ _ r. r ≡ Failure.NoMemory };

    fn from(_e: NoMemory) -> Failure {
        Failure::NoMemory
    }
}

impl From<AllocError> for Failure {
    ghost use Rattle.std.specs.Prelude.{◌≡◌};
    ghost use Rattle.infer_state.specs.declared.failure.Failure.{Failure};

    ghost from_gives = { λ _ r. r ≡ Failure.NoMemory };

    fn from(_e: AllocError) -> Failure {
        Failure::NoMemory
    }
}

impl<T: Drop> From<AllocFailed<T>> for Failure {
    ghost use Rattle.std.specs.Prelude.{◌≡◌};
    ghost use Rattle.infer_state.specs.declared.failure.Failure.{Failure};

    ghost from_gives = { λ _ r. r ≡ Failure.NoMemory };

    fn from(_e: AllocFailed<T>) -> Failure {
        Failure::NoMemory
    }
}
