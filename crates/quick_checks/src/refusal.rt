//! Why code was not found to stand for a program.

use std::alloc::{AllocError, AllocFailed};

/// Why code was not found to stand for a program.
#[derive(Clone, Copy, PartialEq, Eq, Drop)]
pub enum Refusal {
    /// Memory ran out.
    OutOfMemory,
    /// It is not the code that the check looks for.
    Other,
}

impl From<AllocError> for Refusal {
    fn from(_e: AllocError) -> Refusal {
        Refusal::OutOfMemory
    }
}

impl<T: Drop> From<AllocFailed<T>> for Refusal {
    fn from(_e: AllocFailed<T>) -> Refusal {
        Refusal::OutOfMemory
    }
}
