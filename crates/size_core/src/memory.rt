//! The error for running out of memory.

use std::alloc::{AllocError, AllocFailed};
use thiserror::Error;

/// An allocation failed.
#[derive(Clone, Copy, Debug, PartialEq, Eq, Hash, Error)]
#[error("out of memory")]
pub struct NoMemory;

impl From<AllocError> for NoMemory {
    fn from(_: AllocError) -> NoMemory {
        NoMemory
    }
}

impl<T: Drop> From<AllocFailed<T>> for NoMemory {
    fn from(_: AllocFailed<T>) -> NoMemory {
        NoMemory
    }
}
