//! Why a store refuses a call.

ghost use Rattle.retain_store.specs.declared.fault.StoreFault.TheVariants.{Device};
ghost use Rattle.std.specs.Prelude.{◌≡◌};

use disk::DiskError;
use thiserror::Error;

/// Why a store was not opened, or a record was not saved. It shows as its number.
#[derive(Clone, Copy, Debug, PartialEq, Eq, Error)]
pub enum StoreFault {
    /// The file is longer than 262,144 bytes.
    #[error("S1")]
    TooLong,
    /// A gate is open over a body that isn't a record or over the generation 0, or both areas are open with the same
    /// generation.
    #[error("S2")]
    Damaged,
    /// The device failed.
    #[error("S3")]
    Device,
    /// The generations are used up.
    #[error("S4")]
    Generations,
    /// Out of memory, in `open` alone.
    #[error("S5")]
    NoMemory,
    /// A save has failed since the store was opened.
    #[error("S6")]
    Failed,
}

impl From<DiskError> for StoreFault {
    ghost from_gives = { λ _ fault. fault ≡ Device };

    fn from(_error: DiskError) -> StoreFault {
        StoreFault::Device
    }
}
