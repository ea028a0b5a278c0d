//! Why tokens have no tree.

ghost use Rattle.std.specs.Prelude.{◌≡◌};
ghost use Rattle.st_parse.specs.declared.fault.ReadError.TheVariants.{Memory};

use std::alloc::{AllocError, AllocFailed};
use thiserror::Error;

/// Why a part of a text is not read.
#[derive(Clone, Copy, Debug, PartialEq, Eq)]
pub enum Refusal {
    /// A token is unexpected: the number of tokens from it on, itself included; 0 if they ended too early.
    Unexpected(usize),
    /// A tree would be deeper than 64.
    Deep,
}

/// Why a call that reads a part of a text gives no tree.
#[derive(Clone, Copy, Debug, PartialEq, Eq)]
pub enum ReadError {
    Memory,
    Refused(Refusal),
}

/// Why a text has no tree. A place is the offset of a byte in the text.
#[derive(Clone, Copy, Debug, PartialEq, Eq, Error)]
pub enum ParseError {
    /// A token is unexpected, at its first byte. If the tokens end too early, it is the end of the last.
    #[error("P1 at {0}")]
    Unexpected(usize),
    /// An expression, a statement or an initial value is deeper than 64.
    #[error("P2")]
    Deep,
    /// An allocation failed.
    #[error("P3")]
    Memory,
}

impl From<AllocError> for ReadError {
    ghost from_gives = { λ _ e. e ≡ Memory };

    fn from(_e: AllocError) -> ReadError {
        ReadError::Memory
    }
}

impl<T: Drop> From<AllocFailed<T>> for ReadError {
    ghost from_gives = { λ _ e. e ≡ Memory };

    fn from(_e: AllocFailed<T>) -> ReadError {
        ReadError::Memory
    }
}
