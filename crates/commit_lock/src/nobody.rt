//! Nobody watches.

ghost use Rattle.std.specs.Prelude.{⊤};

use serial_core::SerialCore;
use std::alloc::AllocError;
use trace::Watcher;

/// Nobody.
#[derive(Drop)]
pub(crate) struct Nobody;

impl Watcher for Nobody {
    ghost sees = { λ _ _ _. ⊤ };

    fn seen(&mut self, _: &SerialCore) -> Result<(), AllocError> {
        Ok(())
    }
}
