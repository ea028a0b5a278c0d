//! The state of a timer.

ghost use Rattle.std.specs.Prelude.{◌≤ℤ◌, ◌^◌, ◌-◌, neg_ℤ, pos};

/// The outputs and the hidden members of a timer.
#[derive(Clone, Copy)]
pub struct Timer {
    pub q: bool,
    /// How long it has run, in milliseconds.
    pub elapsed: i128,
    pub run: bool,
    /// The moment at which it started, in milliseconds.
    pub start: i128,
    ghost least: { neg_ℤ (pos (2 ^ 63)) ≤ℤ start },
    ghost greatest: { start ≤ℤ pos (2 ^ 64 - 1) },
}
