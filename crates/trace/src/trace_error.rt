//! The faults of a trace.

use thiserror::Error;

/// Why a trace was not written, or not run again. It shows as its number.
#[derive(Clone, Copy, Debug, PartialEq, Eq, Error)]
pub enum ReplayError {
    /// A line that is not of the format, or not of the plan.
    #[error("V1")]
    Form,
    /// A row that is not the plant's next one, or that a core refuses.
    #[error("V2")]
    Row,
    /// An execution of an activation that was not waiting.
    #[error("V3")]
    NotWaiting,
    /// An execution that ends in another way.
    #[error("V4")]
    Outcome,
    /// Out of memory.
    #[error("V5")]
    NoMemory,
    /// The trace could not be read or written.
    #[error("V6")]
    Device,
    /// A segment that doesn't begin where the one before has ended.
    #[error("V7")]
    Order,
}
