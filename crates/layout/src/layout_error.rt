//! Why a text has no layout.

ghost use Rattle.std.specs.Prelude.{◌≡◌};
ghost use Rattle.layout.specs.declared.layout_error.LayoutError.TheVariants.{OutOfMemory};

use std::alloc::{AllocError, AllocFailed};
use thiserror::Error;

/// Why a text has no layout.
#[derive(Clone, Copy, Debug, PartialEq, Eq, Error)]
pub enum LayoutError {
    /// More than 4,096 paths, inputs among them, or more than 4,096 instances of function blocks at every depth.
    #[error("M1")]
    TooLarge,
    /// An allocation failed.
    #[error("M3")]
    OutOfMemory,
}

impl From<AllocError> for LayoutError {
    ghost from_gives = { λ _ e. e ≡ OutOfMemory };

    fn from(_e: AllocError) -> LayoutError {
        LayoutError::OutOfMemory
    }
}

impl<T: Drop> From<AllocFailed<T>> for LayoutError {
    ghost from_gives = { λ _ e. e ≡ OutOfMemory };

    fn from(_e: AllocFailed<T>) -> LayoutError {
        LayoutError::OutOfMemory
    }
}
