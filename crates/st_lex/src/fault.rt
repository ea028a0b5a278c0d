//! Why a text has no tokens.

ghost use Rattle.std.specs.Prelude.{◌≡◌};
ghost use Rattle.st_lex.specs.declared.fault.LexError.TheVariants.{Memory};

use std::alloc::{AllocError, AllocFailed};
use thiserror::Error;

/// A fault at a place of a text. It is shown as its number.
#[derive(Clone, Copy, Debug, PartialEq, Eq, Error)]
pub enum LexFault {
    /// A byte that is not allowed there. In a comment the place is the comment's opening.
    #[error("L1")]
    Byte,
    /// A malformed or too large literal.
    #[error("L2")]
    Literal,
    /// A malformed identifier.
    #[error("L3")]
    Identifier,
    /// A comment that is left open, at its opening, or one that begins inside another, at the inner one's opening.
    #[error("L4")]
    Comment,
}

/// Why a text has no tokens. A place is the offset of a byte in the text.
#[derive(Clone, Copy, Debug, PartialEq, Eq, Error)]
pub enum LexError {
    /// The first fault of the text, and its place.
    #[error("{0} at {1}")]
    Fault(LexFault, usize),
    /// The text is longer than 1,048,576 bytes.
    #[error("L5 at 0")]
    TooLong,
    /// An allocation failed.
    #[error("L6")]
    Memory,
}

impl From<AllocError> for LexError {
    ghost from_gives = { λ _ e. e ≡ Memory };

    fn from(_e: AllocError) -> LexError {
        LexError::Memory
    }
}

impl<T: Drop> From<AllocFailed<T>> for LexError {
    ghost from_gives = { λ _ e. e ≡ Memory };

    fn from(_e: AllocFailed<T>) -> LexError {
        LexError::Memory
    }
}
