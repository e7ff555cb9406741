use std::alloc::{AllocError, AllocFailed};
use thiserror::Error;

/// There was not enough memory: the one such answer of every crate. No clause says when it comes,
/// since no contract can name how much memory there is; each call says what it leaves.
#[derive(Clone, Copy, Debug, PartialEq, Eq, Error)]
#[error("out of memory")]
pub struct OutOfMemory;

impl From<AllocError> for OutOfMemory {
    fn from(_error: AllocError) -> OutOfMemory {
        OutOfMemory
    }
}

impl<T: Drop> From<AllocFailed<T>> for OutOfMemory {
    fn from(_error: AllocFailed<T>) -> OutOfMemory {
        OutOfMemory
    }
}
