//! An observer of segments that are run again.

use crate::position::Position;
use st_meaning::Outcome;
use std::alloc::AllocError;

/// An observer of segments that are run again. An error ends the replay.
pub trait SegmentWatcher {
    /// The first segment that is given, or the first of a life, begins here.
    fn begun(&mut self, position: &Position) -> Result<(), AllocError>;

    /// The last row of this position was latched.
    fn latched(&mut self, position: &Position) -> Result<(), AllocError>;

    /// A program has run, and ended so.
    fn ran(
        &mut self,
        position: &Position,
        program: usize,
        outcome: Outcome,
    ) -> Result<(), AllocError>;
}
