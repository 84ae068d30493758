//! Quantities: the fault that memory was refused, for all that plan or count them.

use std::alloc::{AllocError, AllocFailed};
use thiserror::Error;

/// A growth was refused: there was no memory for it.
#[derive(Clone, Copy, Debug, PartialEq, Eq, Error)]
#[error("out of memory")]
pub struct Memory;

impl From<AllocError> for Memory {
    fn from(_refusal: AllocError) -> Memory {
        Memory
    }
}

impl<T: Drop> From<AllocFailed<T>> for Memory {
    fn from(_refusal: AllocFailed<T>) -> Memory {
        Memory
    }
}
