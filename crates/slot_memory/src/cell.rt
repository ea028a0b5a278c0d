//! Slots with values.

use smallvec::SmallVec;
use st_types::Value;
use std::default::Default;

/// A slot and a value.
#[derive(Clone, Copy)]
pub struct Cell {
    /// The slot's number in the layout, from 0.
    pub slot: usize,
    pub value: Value,
}

/// The reads or the writes of a run. Up to eight of these are in the value itself, so most runs allocate nothing for them.
pub type Cells = SmallVec<Cell, 8>;

impl Default for Cell {
    /// FALSE in the first slot, as a list that isn't full has it after its cells.
    fn default() -> Cell {
        Cell {
            slot: 0,
            value: Value::from_bool(false),
        }
    }
}
