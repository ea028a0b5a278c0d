//! Why a plant is refused.

use std::alloc::AllocFailed;
use thiserror::Error;

/// Why a plant is refused. It shows as its number.
#[derive(Clone, Copy, Debug, PartialEq, Eq, Error)]
pub enum PlantError {
    /// The first record is not `t` and the names of the inputs in declaration order, in any case, or there is none.
    #[error("I1")]
    Header,
    /// A record spells no row: a field has a wrong form, number or range, or there are too many or too few.
    #[error("I2")]
    Field,
    /// A moment is not later than the one before it.
    #[error("I3")]
    NotLater,
    /// There are more than 10,000 rows.
    #[error("I4")]
    TooManyRows,
    /// The reader failed.
    #[error("I5")]
    Reading,
    /// Out of memory.
    #[error("I6")]
    NoMemory,
}

impl<T: Drop> From<AllocFailed<T>> for PlantError {
    ghost use Rattle.std.specs.Prelude.{◌≡◌};
    ghost use Rattle.image.specs.declared.plant_error.PlantError.TheVariants.{NoMemory};

    ghost from_gives = { λ _ e. e ≡ NoMemory };

    fn from(_: AllocFailed<T>) -> PlantError {
        PlantError::NoMemory
    }
}
