//! An observer of a life that is run again.

ghost use Rattle.std.specs.Prelude.{OnOk};
ghost use Rattle.serial_core.specs.Steps.{State};

use serial_core::SerialCore;
use std::alloc::AllocError;

/// An observer of a life that is run again.
pub trait Watcher {
    // how a watcher changes when it sees a life
    ghost sees: { Self → State → Self → Type 0 };

    /// Sees the core as the life was begun, and then after each entry of its log; an error ends the replay.
    fn seen(&mut self, core: &SerialCore) -> Result<(), AllocError>
        ensures { OnOk result (sees self.old core.now self.new) };
}
