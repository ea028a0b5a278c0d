//! Where the temporaries of a piece of code begin.

ghost use Rattle.std.specs.Prelude.{◌<◌, IfOk};

use crate::stop::Stop;

/// From which depth on temporaries are free, and how much deeper trees and calls may go.
#[derive(Clone, Copy)]
pub struct Spot {
    pub depth: u16,
    pub levels: usize,
}

impl Spot {
    /// The same for a part of the tree.
    pub fn inside(self) -> Result<Spot, Stop>
        ensures { IfOk result (λ s. s.levels < self.levels) }
    {
        self.after_temporaries(0)
    }

    /// The same after `count` temporaries.
    pub fn after_temporaries(self, count: usize) -> Result<Spot, Stop>
        ensures { IfOk result (λ s. s.levels < self.levels) }
    {
        let Some(depth) = (self.depth as usize).checked_add(count) else {
            return Err(Stop::NotCovered);
        };
        let Ok(depth) = u16::try_from(depth) else {
            return Err(Stop::NotCovered);
        };
        Ok(Spot {
            depth,
            levels: below(self.levels)?,
        })
    }
}

/// One level less.
pub fn below(levels: usize) -> Result<usize, Stop>
    ensures { IfOk result (λ l. l < levels) }
{
    if levels == 0 {
        return Err(Stop::NotCovered);
    }
    Ok(levels - 1)
}
