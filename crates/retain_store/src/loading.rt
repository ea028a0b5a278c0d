//! The device steps of opening a store.

ghost use Rattle.std.specs.Prelude.{◌≡◌, ◌≢◌, ◌-◌, length, take, IfOk, IfErr, IsOk, OnOk, MatchResult};
ghost use Rattle.disk.specs.Disk.{Only, Counts};
ghost use Rattle.disk.specs.Runs.{LeavesOnly};
ghost use Rattle.retain_store.specs.Areas.{IsZeros};
ghost use Rattle.retain_store.specs.Surveys.{held, IsRecordableAt};
ghost use Rattle.retain_store.specs.Opening.{CountsFault, IsAtRest, IsFoundIn, IsLeftByOpening, IsLoaded, IsOfFile};
ghost use Rattle.retain_store.specs.Opening.{IsRefusal};

use crate::area::{Areas, format};
use crate::fault::StoreFault;
use crate::shape::{AREA_BYTES, FILE_BYTES};
use crate::surveying::survey;
use disk::{Disk, DiskError};
use retain_records::{LineRoom, Record};

/// Syncs the file, and gives its length.
fn synced_len<D: Disk>(disk: &mut D) -> Result<u64, DiskError>
    // On a disk that serves a whole file it succeeds.
    ensures serves { D.serves disk.old FILE_BYTES → IsOk result × D.serves disk.new FILE_BYTES }
    ensures len { D.tells → IfOk result (λ n. n ≡ length (D.seen disk.old)) }
    ensures seen { D.tells → D.seen disk.new ≡ D.seen disk.old }
    ensures synced { D.tells → OnOk result (Only (D.seen disk.new) (D.may_leave disk.new)) }

    // On a disk with nothing unsynced a stop at any moment leaves the file as it was.
    ensures any_moment { D.tells → Only (D.seen disk.old) (D.may_leave disk.old)
        → LeavesOnly D.left_since D.may_leave disk.old disk.new (λ file. file ≡ D.seen disk.old) }
    ensures count { Counts result (D.failure_count disk.old) (D.failure_count disk.new) }
{
    disk.sync()?;
    let len = disk.len()?;
    Ok(len)
}

/// Reads one area after the other, of a file that is synced.
fn read_areas<D: Disk>(disk: &mut D, file: &mut [u8]) -> Result<(), DiskError>
    requires room { length file.old ≡ FILE_BYTES }
    requires whole { D.tells → length (D.seen disk.old) ≡ FILE_BYTES }
    requires synced { D.tells → Only (D.seen disk.old) (D.may_leave disk.old) }

    ensures serves { D.tells → D.serves disk.old FILE_BYTES → IsOk result × D.serves disk.new FILE_BYTES }
    ensures length { length file.new ≡ FILE_BYTES }
    ensures value { D.tells → OnOk result (file.new ≡ D.seen disk.old) }
    ensures seen { D.tells → D.seen disk.new ≡ D.seen disk.old }
    ensures synced { D.tells → Only (D.seen disk.new) (D.may_leave disk.new) }

    // A stop at any moment leaves the file as it was.
    ensures any_moment { D.tells →
        LeavesOnly D.left_since D.may_leave disk.old disk.new (λ file. file ≡ D.seen disk.old) }
    ensures count { Counts result (D.failure_count disk.old) (D.failure_count disk.new) }
{
    let (first, second) = file.split_at_mut(AREA_BYTES);
    disk.read(0, first)?;
    disk.read(AREA_BYTES as u64, second)?;
    Ok(())
}

/// The state of a file that is not too long.
#[derive(Clone, Copy)]
enum Loaded {
    /// It was too short, and is all zero bytes now.
    Formatted,
    /// It is whole, and was read.
    Whole,
}

/// Brings the file to its two areas, and reads it if it had them.
fn load<D: Disk>(disk: &mut D, file: &mut [u8]) -> Result<Loaded, StoreFault>
    requires room { length file.old ≡ FILE_BYTES }
    requires zeros { IsZeros (FILE_BYTES - 1) (take (FILE_BYTES - 1) file.old) }

    ensures length { length file.new ≡ FILE_BYTES }

    // A disk that serves a whole file doesn't fail.
    ensures serves { D.tells → D.serves disk.old FILE_BYTES
        → IfErr result (λ fault. fault ≢ StoreFault.Device) × D.serves disk.new FILE_BYTES }

    ensures found { D.tells → IfOk result (λ loaded. IsLoaded loaded file.new (D.seen disk.old) (D.seen disk.new)) }
    ensures synced { D.tells → OnOk result (Only (D.seen disk.new) (D.may_leave disk.new)) }
    ensures faults { IfErr result IsOfFile }
    ensures refused { D.tells → IfErr result (λ fault. IsRefusal fault (D.seen disk.old) (D.seen disk.new)) }

    // On a disk with nothing unsynced a stop at any moment leaves the file as it was. Only one that was too short may
    // differ, and is recovered as before.
    ensures any_moment { D.tells → Only (D.seen disk.old) (D.may_leave disk.old)
        → LeavesOnly D.left_since D.may_leave disk.old disk.new (IsLeftByOpening (D.seen disk.old)) }
    ensures count { MatchResult result (λ _. D.failure_count disk.new ≡ D.failure_count disk.old)
        (λ fault. CountsFault fault (D.failure_count disk.old) (D.failure_count disk.new)) }
{
    let len = synced_len(disk)?;
    if len > FILE_BYTES as u64 {
        return Err(StoreFault::TooLong);
    }
    if len < FILE_BYTES as u64 {
        format(disk, &file[..FILE_BYTES - 1])?;
        return Ok(Loaded::Formatted);
    }
    read_areas(disk, file)?;
    Ok(Loaded::Whole)
}

/// Finds the last record of the file, and leaves it in `last` if there is one.
pub(crate) fn recover<D: Disk>(
    disk: &mut D,
    file: &mut [u8],
    last: &mut Record,
    next: &mut Record,
    lines: &mut LineRoom,
) -> Result<Areas, StoreFault>
    requires room { length file.old ≡ FILE_BYTES }
    requires zeros { IsZeros (FILE_BYTES - 1) (take (FILE_BYTES - 1) file.old) }

    // A disk that serves a whole file doesn't fail.
    ensures serves { D.tells → D.serves disk.old FILE_BYTES
        → IfErr result (λ fault. fault ≢ StoreFault.Device) × D.serves disk.new FILE_BYTES }

    ensures found { D.tells → IfOk result
        (λ areas. IsFoundIn (D.seen disk.old) (D.seen disk.new) (held areas.generation last.new)) }
    ensures sound { IfOk result (λ areas. IsRecordableAt areas.generation last.new) }
    ensures at_rest { D.tells → IfOk result (λ areas.
        IsAtRest (D.seen disk.new) (D.may_leave disk.new) areas (held areas.generation last.new)) }
    ensures faults { IfErr result IsOfFile }
    ensures refused { D.tells → IfErr result (λ fault. IsRefusal fault (D.seen disk.old) (D.seen disk.new)) }

    // On a disk with nothing unsynced a stop at any moment leaves the file as it was. Only one that was too short may
    // differ, and is recovered as before.
    ensures any_moment { D.tells → Only (D.seen disk.old) (D.may_leave disk.old)
        → LeavesOnly D.left_since D.may_leave disk.old disk.new (IsLeftByOpening (D.seen disk.old)) }
    ensures count { MatchResult result (λ _. D.failure_count disk.new ≡ D.failure_count disk.old)
        (λ fault. CountsFault fault (D.failure_count disk.old) (D.failure_count disk.new)) }
{
    match load(disk, file) {
        Ok(Loaded::Formatted) => Ok(Areas::closed()),
        Ok(Loaded::Whole) => match survey(file, last, next, lines) {
            Some(areas) => Ok(areas),
            None => Err(StoreFault::Damaged),
        },
        Err(fault) => Err(fault),
    }
}
