//! Why a text has no plan.

ghost use Rattle.std.specs.Prelude.{◌≡◌};
ghost use Rattle.config.specs.declared.build_error.BuildError.TheVariants.{Memory, Words, Grammar, Rule};
ghost use Rattle.config.specs.declared.build_error.BuildError.TheVariants.{Configuration, Layout, Code};

use crate::configuration_error::ConfigurationError;
use layout::LayoutError;
use st_check::CheckError;
use st_compile::CompileError;
use st_lex::LexError;
use st_parse::ParseError;
use std::alloc::{AllocError, AllocFailed};
use thiserror::Error;

/// Why a text has no plan. It shows as its number, with the place in the text if there is one.
#[derive(Clone, Copy, Debug, PartialEq, Eq, Error)]
pub enum BuildError {
    /// The budget is not 1 to 1,000,000 ticks.
    #[error("G7")]
    Budget,
    /// The text has no tokens: L1 to L6.
    #[error("{0}")]
    Words(LexError),
    /// The tokens have no tree: P1 to P3.
    #[error("{0}")]
    Grammar(ParseError),
    /// The text breaks a rule of the language: C1 to C13.
    #[error("{0}")]
    Rule(CheckError),
    /// The text has no sound configuration: G2 to G5, G8.
    #[error("{0}")]
    Configuration(ConfigurationError),
    /// More than 4,096 paths or instances of function blocks (M1).
    #[error("{0}")]
    Layout(LayoutError),
    /// A program's functions have more than 4,096 places (M1), or it has more than 16,384 instructions (M2).
    #[error("{0}")]
    Code(CompileError),
    /// The body of a record would be longer than 131,059 bytes.
    #[error("G6")]
    RecordTooLong,
    /// Memory ran out.
    #[error("G9")]
    Memory,
}

impl From<LexError> for BuildError {
    ghost from_gives = { λ fault e. e ≡ Words fault };

    fn from(fault: LexError) -> BuildError {
        BuildError::Words(fault)
    }
}

impl From<ParseError> for BuildError {
    ghost from_gives = { λ fault e. e ≡ Grammar fault };

    fn from(fault: ParseError) -> BuildError {
        BuildError::Grammar(fault)
    }
}

impl From<CheckError> for BuildError {
    ghost from_gives = { λ fault e. e ≡ Rule fault };

    fn from(fault: CheckError) -> BuildError {
        BuildError::Rule(fault)
    }
}

impl From<ConfigurationError> for BuildError {
    ghost from_gives = { λ fault e. e ≡ Configuration fault };

    fn from(fault: ConfigurationError) -> BuildError {
        BuildError::Configuration(fault)
    }
}

impl From<LayoutError> for BuildError {
    ghost from_gives = { λ fault e. e ≡ Layout fault };

    fn from(fault: LayoutError) -> BuildError {
        BuildError::Layout(fault)
    }
}

impl From<CompileError> for BuildError {
    ghost from_gives = { λ fault e. e ≡ Code fault };

    fn from(fault: CompileError) -> BuildError {
        BuildError::Code(fault)
    }
}

impl From<AllocError> for BuildError {
    ghost from_gives = { λ _ e. e ≡ Memory };

    fn from(_: AllocError) -> BuildError {
        BuildError::Memory
    }
}

impl<T: Drop> From<AllocFailed<T>> for BuildError {
    ghost from_gives = { λ _ e. e ≡ Memory };

    fn from(_: AllocFailed<T>) -> BuildError {
        BuildError::Memory
    }
}
