//! Why a body is not linked.

ghost use Rattle.std.specs.Prelude.{◌≡◌};
ghost use Rattle.st_link.specs.declared.link_error.LinkError.TheVariants.{OutOfMemory};

use std::alloc::{AllocError, AllocFailed};
use thiserror::Error;

/// Why a body is not linked.
#[derive(Clone, Copy, Debug, PartialEq, Eq, Error)]
pub enum LinkError {
    /// A name is unknown, or it doesn't lead to an elementary variable, or an input is assigned; or a variable takes
    /// more slots than a layout has room for.
    #[error("not there")]
    NotThere,
    /// An allocation failed.
    #[error("M3")]
    OutOfMemory,
}

impl From<AllocError> for LinkError {
    ghost from_gives = { λ _ e. e ≡ OutOfMemory };

    fn from(_e: AllocError) -> LinkError {
        LinkError::OutOfMemory
    }
}

impl<T: Drop> From<AllocFailed<T>> for LinkError {
    ghost from_gives = { λ _ e. e ≡ OutOfMemory };

    fn from(_e: AllocFailed<T>) -> LinkError {
        LinkError::OutOfMemory
    }
}
