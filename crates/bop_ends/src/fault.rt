//! How the call of an end is refused.

use std::alloc::{AllocError, AllocFailed};

/// An end has failed, and has counted it.
#[derive(Clone, Copy, Debug, PartialEq, Eq)]
pub struct Failed;

/// An allocation was refused. No end has failed.
#[derive(Clone, Copy, Debug, PartialEq, Eq)]
pub struct OutOfMemory;

impl From<AllocError> for OutOfMemory {
    fn from(_error: AllocError) -> OutOfMemory {
        OutOfMemory
    }
}

impl<T: Drop> From<AllocFailed<T>> for OutOfMemory {
    fn from(_error: AllocFailed<T>) -> OutOfMemory {
        OutOfMemory
    }
}

/// Why a load gives no bytes.
#[derive(Clone, Copy, Debug, PartialEq, Eq)]
pub enum LoadFault {
    /// The shelf has failed or has no file of this name, and has counted it.
    Failed,
    /// There was no memory for the bytes. The shelf has not failed.
    OutOfMemory,
}
