//! The step by which a FOR counts.

/// The step by which a FOR counts.
#[derive(Clone, Copy)]
pub enum Pace {
    /// A literal.
    Literal(i32),
    /// The word of a step, and one that is 1 if the step is below 0, else 0.
    Words { step: u16, below: u16 },
}
