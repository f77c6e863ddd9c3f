//! The error of a call that finds no memory.

use std::alloc::{AllocError, AllocFailed};
use thiserror::Error;

/// Memory ran out. A count that no machine reaches is answered so, too, and nothing else is.
#[derive(Clone, Copy, Debug, PartialEq, Eq, Error)]
#[error("out of memory")]
pub struct OutOfMemory;

impl From<AllocError> for OutOfMemory {
    fn from(_error: AllocError) -> Self {
        OutOfMemory
    }
}

impl<T: Drop> From<AllocFailed<T>> for OutOfMemory {
    fn from(_error: AllocFailed<T>) -> Self {
        OutOfMemory
    }
}
