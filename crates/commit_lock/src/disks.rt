//! The disk of a life.

ghost use Rattle.std.specs.Prelude.{◌≡◌, None, IfOk};
ghost use Rattle.disk.specs.Disk.{Only};
ghost use Rattle.disk.specs.Medium.{MayLeave};
ghost use Rattle.disk.specs.Simulated.{fresh, IsReliable, StopView};
ghost use Rattle.retain_store.specs.declared.shape.TheConstants.{FILE_BYTES};

use disk::{SimDisk, Stop};
use std::alloc::{AllocError, Global};

/// A disk with this file, all of it synced, that fails and stops at these steps.
pub(crate) fn disk_of(
    alloc: Global,
    file: Vec<u8>,
    stop: Option<Stop>,
    fails: Option<u64>,
) -> Result<SimDisk, AllocError>
    ensures disk { IfOk result (λ disk. disk ≡ record (fresh file.items) { failing = fails; stop = stop }) }
    ensures synced { IfOk result (λ disk. Only file.items (MayLeave disk.medium)) }
    ensures reliable { IfOk result (λ disk. stop ≡ None → fails ≡ None → IsReliable disk FILE_BYTES) }
{
    let mut disk = SimDisk::new(alloc, file)?;
    if let Some(step) = fails {
        disk.fail_at(step);
    }
    if let Some(stop) = stop {
        disk.stop_at(stop);
    }
    Ok(disk)
}
