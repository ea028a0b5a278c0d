//! Taking a snapshot.

ghost use Rattle.serial_core.specs.Steps.{Takes};
ghost use Rattle.serial_core.specs.Quick.{TakesQuick};

use crate::serial::SerialCore;
use core_engine::Refusal;
use slot_run::{Snapshot, Taken};
use std::alloc::Global;

impl SerialCore {
    /// A snapshot of the best activation that waits on the resource; none if nothing waits there, K6 out of memory.
    pub fn take(&self, alloc: Global, resource: usize) -> Result<Option<Snapshot>, Refusal>
        ensures { Takes self.now resource result }
    {
        self.engine.take(alloc, resource)
    }

    /// The snapshot of the best activation that waits on the resource: a quick one if there is quick code, and else a whole
    /// one. None if nothing waits there, K6 out of memory.
    pub fn take_quick(&self, alloc: Global, resource: usize) -> Result<Option<Taken>, Refusal>
        ensures { TakesQuick self.now resource result }
    {
        self.engine.take_quick(alloc, resource)
    }
}
