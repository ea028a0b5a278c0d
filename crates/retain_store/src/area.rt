//! The two areas of a file, and the device steps of a save.

ghost use Rattle.std.specs.Prelude.{◌≡◌, ◌+◌, ◌-◌, ◌<◌, ◌≤◌, ◌^◌, Some, length, drop, OnOk, IsOk};
ghost use Rattle.disk.specs.Disk.{Only, Counts, Torn, overwritten};
ghost use Rattle.disk.specs.Runs.{LeavesOnly};
ghost use Rattle.retain_store.specs.declared.shape.TheConstants.{HEADER_BYTES};
ghost use Rattle.retain_records.specs.Records.{Content};
ghost use Rattle.retain_records.specs.Reading.{decoded};
ghost use Rattle.retain_store.specs.Recovered.{recovered, Found, Nothing};
ghost use Rattle.retain_store.specs.Areas.{at_of, other_of, closed_areas, areas_after_save};
ghost use Rattle.retain_store.specs.Areas.{IsHalf, IsOpen, IsShut, GateIs, IsSpare, IsReady, IsClosedNow};
ghost use Rattle.retain_store.specs.Areas.{IsFrame, IsSaved, IsEither, IsZeros};

use crate::shape::{AREA_BYTES, CLOSED_GATE, FILE_BYTES, OPEN_GATE};
use disk::{Disk, DiskError};

/// One of the two areas.
#[derive(Clone, Copy, Debug, PartialEq, Eq)]
pub enum Half {
    First,
    Second,
}

impl Half {
    /// Its offset in bytes.
    pub fn at(self) -> u64
        ensures at { result ≡ at_of self }
        ensures half { IsHalf result }
    {
        match self {
            Half::First => 0,
            Half::Second => AREA_BYTES as u64,
        }
    }

    /// The other area.
    pub(crate) fn other(self) -> Half
        ensures { result ≡ other_of self }
    {
        match self {
            Half::First => Half::Second,
            Half::Second => Half::First,
        }
    }
}

/// The gate of an area.
#[derive(Clone, Copy, Debug, PartialEq, Eq)]
pub enum Gate {
    Open,
    Closed,
}

/// The state of the two areas of a whole file.
#[derive(Clone, Copy, Debug, PartialEq, Eq)]
pub struct Areas {
    /// The area for the next record. It does not hold the last one.
    pub target: Half,
    /// Its gate.
    pub target_gate: Gate,
    /// The gate of the area that holds the last record, if there is one.
    pub other_gate: Gate,
    /// The generation of the last record, or 0 if there is none.
    pub generation: u64,
}

impl Areas {
    /// Two closed areas, without a record.
    pub fn closed() -> Areas
        ensures { result ≡ closed_areas }
    {
        Areas {
            target: Half::First,
            target_gate: Gate::Closed,
            other_gate: Gate::Closed,
            generation: 0,
        }
    }

    /// Their state after a record was saved: the target holds the last one, and the other area is the next target.
    pub fn after_save(self) -> Areas
        requires { self.generation < 2 ^ 64 - 1 }
        ensures { result ≡ areas_after_save self }
    {
        Areas {
            target: self.target.other(),
            target_gate: self.other_gate,
            other_gate: Gate::Open,
            generation: self.generation + 1,
        }
    }
}

/// Writes and syncs, over a file that is synced. No other function of this crate writes.
pub(crate) fn write_synced<D: Disk>(disk: &mut D, at: u64, bytes: &[u8]) -> Result<(), DiskError>
    requires synced { D.tells → Only (D.seen disk.old) (D.may_leave disk.old) }

    // On a disk that serves a whole file a write within it succeeds.
    ensures serves { D.serves disk.old FILE_BYTES → at + length bytes.now ≤ FILE_BYTES
        → IsOk result × D.serves disk.new FILE_BYTES }
    ensures written { D.tells → OnOk result (D.seen disk.new ≡ overwritten (D.seen disk.old) at bytes.now) }
    ensures synced { D.tells → OnOk result (Only (D.seen disk.new) (D.may_leave disk.new)) }

    // A stop at any moment leaves the file with this one write, whole or torn.
    ensures any_moment { D.tells →
        LeavesOnly D.left_since D.may_leave disk.old disk.new (Torn at (length bytes.now) (D.seen disk.old)) }
    ensures count { Counts result (D.failure_count disk.old) (D.failure_count disk.new) }
{
    disk.write_at(at, bytes)?;
    disk.sync()
}

/// Closes the open gate there, if the bytes after it don't count.
pub(crate) fn close<D: Disk>(disk: &mut D, at: u64) -> Result<(), DiskError>
    requires half { IsHalf at }
    requires spare { D.tells → IsSpare at (D.seen disk.old) }
    requires open { D.tells → IsOpen at (D.seen disk.old) }
    requires synced { D.tells → Only (D.seen disk.old) (D.may_leave disk.old) }

    ensures serves { D.serves disk.old FILE_BYTES → IsOk result × D.serves disk.new FILE_BYTES }
    ensures closed { D.tells → OnOk result (IsClosedNow at (D.seen disk.old) (D.seen disk.new)) }
    ensures synced { D.tells → OnOk result (Only (D.seen disk.new) (D.may_leave disk.new)) }

    // A stop at any moment leaves the last record.
    ensures any_moment { D.tells → LeavesOnly D.left_since D.may_leave disk.old disk.new
        (λ file. recovered file ≡ recovered (D.seen disk.old)) }
    ensures count { Counts result (D.failure_count disk.old) (D.failure_count disk.new) }
{
    write_synced(disk, at, &[CLOSED_GATE])?;
    Ok(())
}

/// Writes a frame after a gate, and syncs it.
fn write_after_gate<D: Disk>(disk: &mut D, at: u64, frame: &[u8]) -> Result<(), DiskError>
    requires half { IsHalf at }
    requires synced { D.tells → Only (D.seen disk.old) (D.may_leave disk.old) }

    ensures serves { D.serves disk.old FILE_BYTES → at + 1 + length frame.now ≤ FILE_BYTES
        → IsOk result × D.serves disk.new FILE_BYTES }
    ensures written { D.tells →
        OnOk result (D.seen disk.new ≡ overwritten (D.seen disk.old) (at + 1) frame.now) }
    ensures synced { D.tells → OnOk result (Only (D.seen disk.new) (D.may_leave disk.new)) }
    ensures any_moment { D.tells → LeavesOnly D.left_since D.may_leave disk.old disk.new
        (Torn (at + 1) (length frame.now) (D.seen disk.old)) }
    ensures count { Counts result (D.failure_count disk.old) (D.failure_count disk.new) }
{
    write_synced(disk, at + 1, frame)
}

/// Writes a frame after a closed gate, and opens the gate over it once it is synced.
pub(crate) fn fill<D: Disk>(
    disk: &mut D,
    at: u64,
    generation: u64,
    frame: &[u8],
) -> Result<(), DiskError>
    requires half { IsHalf at }
    requires frame { IsFrame generation frame.now }
    requires ready { D.tells → IsReady generation at (D.seen disk.old) }
    requires shut { D.tells → IsShut at (D.seen disk.old) }
    requires synced { D.tells → Only (D.seen disk.old) (D.may_leave disk.old) }

    ensures serves { D.serves disk.old FILE_BYTES → IsOk result × D.serves disk.new FILE_BYTES }
    ensures saved { D.tells → OnOk result ((content : Content) → decoded (drop HEADER_BYTES frame.now) ≡ Some content
        → IsSaved generation at content (D.seen disk.old) (D.seen disk.new)) }
    ensures synced { D.tells → OnOk result (Only (D.seen disk.new) (D.may_leave disk.new)) }

    // A stop at any moment leaves the last record or the new one.
    ensures any_moment { D.tells → (content : Content) → decoded (drop HEADER_BYTES frame.now) ≡ Some content
        → LeavesOnly D.left_since D.may_leave disk.old disk.new
        (λ file. IsEither (recovered (D.seen disk.old)) (Found generation content) (recovered file)) }
    ensures count { Counts result (D.failure_count disk.old) (D.failure_count disk.new) }
{
    write_after_gate(disk, at, frame)?;
    write_synced(disk, at, &[OPEN_GATE])?;
    Ok(())
}

/// Writes a frame, a header and a body, into that area, whose gate is closed first if it is open. The body is synced before
/// the gate is opened over it. The other area holds the last record, if there is one.
pub fn write_frame<D: Disk>(
    disk: &mut D,
    at: u64,
    gate: Gate,
    generation: u64,
    frame: &[u8],
) -> Result<(), DiskError>
    requires half { IsHalf at }
    requires frame { IsFrame generation frame.now }
    requires ready { D.tells → IsReady generation at (D.seen disk.old) }
    requires gate { D.tells → GateIs gate at (D.seen disk.old) }
    requires synced { D.tells → Only (D.seen disk.old) (D.may_leave disk.old) }

    ensures serves { D.serves disk.old FILE_BYTES → IsOk result × D.serves disk.new FILE_BYTES }
    ensures saved { D.tells → OnOk result ((content : Content) → decoded (drop HEADER_BYTES frame.now) ≡ Some content
        → IsSaved generation at content (D.seen disk.old) (D.seen disk.new)) }
    ensures synced { D.tells → OnOk result (Only (D.seen disk.new) (D.may_leave disk.new)) }

    // A stop at any moment leaves the last record or the new one.
    ensures any_moment { D.tells → (content : Content) → decoded (drop HEADER_BYTES frame.now) ≡ Some content
        → LeavesOnly D.left_since D.may_leave disk.old disk.new
        (λ file. IsEither (recovered (D.seen disk.old)) (Found generation content) (recovered file)) }
    ensures count { Counts result (D.failure_count disk.old) (D.failure_count disk.new) }
{
    match gate {
        Gate::Open => {
            close(disk, at)?;
            fill(disk, at, generation, frame)?;
            Ok(())
        }
        Gate::Closed => {
            fill(disk, at, generation, frame)?;
            Ok(())
        }
    }
}

/// Makes a file that is too short one of zero bytes, so of two closed areas. The zeros given are all but the last byte.
pub fn format<D: Disk>(disk: &mut D, zeros: &[u8]) -> Result<(), DiskError>
    requires zeros { IsZeros (FILE_BYTES - 1) zeros.now }
    requires short { D.tells → length (D.seen disk.old) < FILE_BYTES }
    requires synced { D.tells → Only (D.seen disk.old) (D.may_leave disk.old) }

    ensures serves { D.serves disk.old FILE_BYTES → IsOk result × D.serves disk.new FILE_BYTES }

    // No byte of the shorter file stays.
    ensures zeros { D.tells → OnOk result (IsZeros FILE_BYTES (D.seen disk.new)) }
    ensures synced { D.tells → OnOk result (Only (D.seen disk.new) (D.may_leave disk.new)) }

    // A stop at any moment leaves a file without a record.
    ensures any_moment { D.tells →
        LeavesOnly D.left_since D.may_leave disk.old disk.new (λ file. recovered file ≡ Nothing) }
    ensures count { Counts result (D.failure_count disk.old) (D.failure_count disk.new) }
{
    write_synced(disk, 0, zeros)?;
    write_synced(disk, FILE_BYTES as u64 - 1, &[CLOSED_GATE])?;
    Ok(())
}
