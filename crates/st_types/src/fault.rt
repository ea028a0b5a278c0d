//! Why an execution has no result.

use thiserror::Error;

/// A fault of an execution. It is shown as its number.
#[derive(Clone, Copy, Debug, PartialEq, Eq, Error)]
pub enum Fault {
    /// A result is outside its type.
    #[error("F1")]
    Range,
    /// A divisor is 0.
    #[error("F2")]
    DivisionByZero,
    /// A subscript is outside its array's bounds.
    #[error("F3")]
    Index,
    /// A conversion would change the value.
    #[error("F4")]
    Conversion,
    /// More ticks are needed than the budget has.
    #[error("F5")]
    Budget,
    /// The step of a FOR is 0.
    #[error("F6")]
    ZeroStep,
}
