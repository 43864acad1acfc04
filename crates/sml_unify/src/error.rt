//! Why two types are not made equal.

use smlc_base::NoMemory;
use std::alloc::{AllocError, AllocFailed};
use thiserror::Error;

/// Why no substitution makes two types equal, or want of memory.
#[derive(Clone, Copy, PartialEq, Eq, Debug, Drop, Error)]
pub enum UnifyError {
    #[error("two types differ")]
    Clash,
    #[error("a type variable stands inside its own type")]
    Cycle,
    #[error("a type admits no equality")]
    NoEquality,
    #[error("want of memory")]
    NoMemory,
}

impl From<NoMemory> for UnifyError {
    ghost use Rattle.std.specs.Prelude.{◌≡◌};
    ghost use Rattle.sml_unify.specs.declared.error.UnifyError.{UnifyError};

    ghost from_gives = { λ _ r. r ≡ UnifyError.NoMemory };

    fn from(_e: NoMemory) -> UnifyError {
        UnifyError::NoMemory
    }
}

impl From<AllocError> for UnifyError {
    ghost use Rattle.std.specs.Prelude.{◌≡◌};
    ghost use Rattle.sml_unify.specs.declared.error.UnifyError.{UnifyError};

    ghost from_gives = { λ _ r. r ≡ UnifyError.NoMemory };

    fn from(_e: AllocError) -> UnifyError {
        UnifyError::NoMemory
    }
}

impl<T: Drop> From<AllocFailed<T>> for UnifyError {
    ghost use Rattle.std.specs.Prelude.{◌≡◌};
    ghost use Rattle.sml_unify.specs.declared.error.UnifyError.{UnifyError};

    ghost from_gives = { λ _ r. r ≡ UnifyError.NoMemory };

    fn from(_e: AllocFailed<T>) -> UnifyError {
        UnifyError::NoMemory
    }
}
