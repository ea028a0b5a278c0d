//! Why a text is not configured.

ghost use Rattle.std.specs.Prelude.{◌≡◌};
ghost use Rattle.config.specs.declared.configuration_error.ConfigurationError.TheVariants.{OutOfMemory};

use std::alloc::{AllocError, AllocFailed};
use thiserror::Error;

/// Why a text is not configured.
#[derive(Clone, Copy, Debug, PartialEq, Eq, Error)]
pub enum ConfigurationError {
    /// There is no CONFIGURATION, or a second one.
    #[error("G2")]
    NotOne,
    /// A task, the type of a program or a global is unknown; or a VAR_EXTERNAL has a type other than its global's, or isn't
    /// CONSTANT exactly when the global is CONSTANT or an input; or a SINGLE isn't a BOOL global.
    #[error("G3")]
    Unknown,
    /// An address is doubled, out of range or of another width; or an input has an initial value; or AT occurs with
    /// CONSTANT.
    #[error("G4")]
    WrongAddress,
    /// More than 8 resources, 32 tasks on a resource or 64 programs.
    #[error("G5")]
    TooMany,
    /// A program has no task.
    #[error("G8")]
    WithoutTask,
    /// Memory ran out.
    #[error("G9")]
    OutOfMemory,
}

impl From<AllocError> for ConfigurationError {
    ghost from_gives = { λ _ e. e ≡ OutOfMemory };

    fn from(_: AllocError) -> ConfigurationError {
        ConfigurationError::OutOfMemory
    }
}

impl<T: Drop> From<AllocFailed<T>> for ConfigurationError {
    ghost from_gives = { λ _ e. e ≡ OutOfMemory };

    fn from(_: AllocFailed<T>) -> ConfigurationError {
        ConfigurationError::OutOfMemory
    }
}
