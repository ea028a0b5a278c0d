//! Latching a row.

ghost use Rattle.std.specs.Prelude.{◌≡◌};
ghost use Rattle.serial_core.specs.Steps.{Latches};

use crate::serial::SerialCore;
use core_engine::Refusal;
use st_types::{Entry, Row};

impl SerialCore {
    /// Latches a row, and gives its number from 0. It takes no memory.
    ///
    /// K1 if the log is full, else K3 if the row is not one of the plan's, else K4 if its moment is not later.
    pub fn latch(&mut self, row: Row) -> Result<usize, Refusal>
        ensures { Latches self.old row result self.new }
    {
        let number = self.engine.latch(&row)?;
        self.history.append(Entry::Row(row), None);
        Ok(number as usize)
    }
}
