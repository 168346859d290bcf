//! Faults without fields.

use std::alloc::{AllocError, AllocFailed};

/// A read or a write failed. The count of faults of the object that was read or written tells how often.
#[derive(Clone, Copy, Debug, PartialEq, Eq)]
pub struct Failed {}

/// There is no memory left.
#[derive(Clone, Copy, Debug, PartialEq, Eq)]
pub struct Memory {}

impl From<AllocError> for Memory {
    fn from(_: AllocError) -> Memory {
        Memory {}
    }
}

impl<T: Drop> From<AllocFailed<T>> for Memory {
    fn from(_: AllocFailed<T>) -> Memory {
        Memory {}
    }
}
