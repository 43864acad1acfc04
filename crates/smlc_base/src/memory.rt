//! Want of memory.

use std::alloc::{AllocError, AllocFailed};
use thiserror::Error;

/// Want of memory. It may come wherever something grows, and says nothing else.
#[derive(Clone, Copy, PartialEq, Eq, Debug, Drop, Error)]
#[error("want of memory")]
pub struct NoMemory;

impl From<AllocError> for NoMemory {
    fn from(_e: AllocError) -> NoMemory {
        NoMemory
    }
}

impl<T: Drop> From<AllocFailed<T>> for NoMemory {
    fn from(_e: AllocFailed<T>) -> NoMemory {
        NoMemory
    }
}
