//! Why no code is made.

ghost use Rattle.std.specs.Prelude.{◌≡◌};
ghost use Rattle.st_compile.specs.declared.compile_error.CompileError.TheVariants.{OutOfMemory};

use std::alloc::{AllocError, AllocFailed};
use thiserror::Error;

/// Why no code is made of a program.
#[derive(Clone, Copy, Debug, PartialEq, Eq, Drop, Error)]
pub enum CompileError {
    /// The values of its functions take too many places.
    #[error("M1")]
    TooManyPlaces,
    #[error("M2")]
    TooManyInstructions,
    /// Memory ran out.
    #[error("M3")]
    OutOfMemory,
    /// No text is linked to such a tree.
    #[error("not linked")]
    NotLinked,
}

impl From<AllocError> for CompileError {
    ghost from_gives = { λ _ e. e ≡ OutOfMemory };

    fn from(_e: AllocError) -> CompileError {
        CompileError::OutOfMemory
    }
}

impl<T: Drop> From<AllocFailed<T>> for CompileError {
    ghost from_gives = { λ _ e. e ≡ OutOfMemory };

    fn from(_e: AllocFailed<T>) -> CompileError {
        CompileError::OutOfMemory
    }
}
