//! Why no code is drafted.

use quick_checks::Refusal;
use std::alloc::{AllocError, AllocFailed};

/// Why no code is drafted.
#[derive(Clone, Copy, PartialEq, Eq, Drop)]
pub enum Stop {
    /// Memory ran out.
    OutOfMemory,
    /// Quick code does not cover the program, or it is too large.
    NotCovered,
}

impl From<AllocError> for Stop {
    fn from(_e: AllocError) -> Stop {
        Stop::OutOfMemory
    }
}

impl<T: Drop> From<AllocFailed<T>> for Stop {
    fn from(_e: AllocFailed<T>) -> Stop {
        Stop::OutOfMemory
    }
}

impl From<Refusal> for Stop {
    fn from(refusal: Refusal) -> Stop {
        match refusal {
            Refusal::OutOfMemory => Stop::OutOfMemory,
            Refusal::Other => Stop::NotCovered,
        }
    }
}
