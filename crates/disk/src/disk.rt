//! A disk: the file that a read gives, those that a stop now may leave, and those that a stop since an earlier moment might
//! have left.
ghost use Rattle.std.specs.Prelude.{◌≡◌, ◌≤◌, ◌+◌, List, ℕ, length, take, drop, IfOk, OnOk, OnErr, IsOk};
ghost use Rattle.disk.specs.Disk.{overwritten, Torn, ComesFrom, Admits, Within, WidensOrKeeps, Only, NothingElse, Counts};

use thiserror::Error;

/// Why a call of a disk was refused.
#[derive(Clone, Copy, Debug, PartialEq, Eq, Error)]
pub enum DiskError {
    /// The device failed.
    #[error("the device failed")]
    Failed,
    /// A range that isn't wholly inside the file, or for which there is no room.
    #[error("the range is outside the file or its room")]
    OutOfRange,
}

/// A disk with one file of bytes. It states the facts below, or none of them.
///
/// Between two syncs each written range and all appended bytes may be any bytes after a stop, the length is between the old
/// and the new one, and all other bytes stay. After a sync that succeeded a stop leaves the file that a read gives.
pub trait Disk {
    /// It states them.
    ghost tells: { Type 0 };

    /// The file that a read gives.
    ghost seen: { Self → List ℕ };

    /// The files that a stop now may leave.
    ghost may_leave: { Self → List ℕ → Type 0 };

    /// The files that a stop at some moment from the first state on might have left, up to the second. Contracts bound it
    /// from above alone: `NothingElse` excludes all other files.
    ghost left_since: { Self → Self → List ℕ → Type 0 };

    /// How often it has failed, which every disk counts.
    ghost failure_count: { Self → ℕ };

    /// From now on each call succeeds that can be done within this number of bytes: a read inside the file, and a write that
    /// ends within it. A disk that never says so promises no success.
    ghost serves: { Self → ℕ → Type 0 };

    /// The length of the file in bytes.
    fn len(&mut self) -> Result<u64, DiskError>
        ensures works { (room : ℕ) → serves self.old room → IsOk result }
        ensures serves { (room : ℕ) → serves self.old room → serves self.new room }
        ensures value { tells → IfOk result (λ n. n ≡ length (seen self.old)) }
        ensures seen { tells → seen self.new ≡ seen self.old }
        ensures stop { tells → Within (may_leave self.new) (may_leave self.old) }
        ensures keeps { tells → Within (may_leave self.old) (may_leave self.new) }
        ensures past { tells → NothingElse left_since may_leave self.old self.new }
        ensures count { Counts result (failure_count self.old) (failure_count self.new) };

    /// Fills the buffer with the bytes of the file from `at` on. It is refused unless the whole range is inside the file.
    /// The contents of the buffer after an error are unspecified.
    fn read(&mut self, at: u64, buf: &mut [u8]) -> Result<(), DiskError>
        ensures works { (room : ℕ) → serves self.old room → at + length buf.old ≤ length (seen self.old) → IsOk result }
        ensures serves { (room : ℕ) → serves self.old room → serves self.new room }
        ensures value { tells → OnOk result (buf.new ≡ take (length buf.old) (drop at (seen self.old))) }
        ensures inside { tells → OnOk result (at + length buf.old ≤ length (seen self.old)) }
        ensures seen { tells → seen self.new ≡ seen self.old }
        ensures stop { tells → Within (may_leave self.new) (may_leave self.old) }
        ensures keeps { tells → Within (may_leave self.old) (may_leave self.new) }
        ensures past { tells → NothingElse left_since may_leave self.old self.new }
        ensures count { Counts result (failure_count self.old) (failure_count self.new) };

    /// Writes these bytes from `at` on, over those there and past the end, with zero bytes in a gap before them. A failed
    /// write may have written them in part.
    fn write_at(&mut self, at: u64, bytes: &[u8]) -> Result<(), DiskError>
        ensures works { (room : ℕ) → serves self.old room → at + length bytes.now ≤ room → IsOk result }
        ensures serves { (room : ℕ) → serves self.old room → serves self.new room }
        ensures seen { tells → OnOk result (seen self.new ≡ overwritten (seen self.old) at bytes.now) }
        ensures stop { tells →
            ComesFrom (Torn at (length bytes.now)) (may_leave self.old) (may_leave self.new) }

        // It adds to the files that a stop may leave each one that may result from the write.
        ensures widens { tells →
            OnOk result (Admits (Torn at (length bytes.now)) (may_leave self.old) (may_leave self.new)) }
        ensures widens_or_keeps { tells →
            OnErr result (WidensOrKeeps (Torn at (length bytes.now))
            (seen self.old) (seen self.new) (may_leave self.old) (may_leave self.new)) }
        ensures past { tells → NothingElse left_since may_leave self.old self.new }
        ensures count { Counts result (failure_count self.old) (failure_count self.new) };

    /// After it, a stop leaves the file that a read gives. A failed sync settles nothing.
    fn sync(&mut self) -> Result<(), DiskError>
        ensures works { (room : ℕ) → serves self.old room → IsOk result }
        ensures serves { (room : ℕ) → serves self.old room → serves self.new room }
        ensures durable { tells → OnOk result (Only (seen self.new) (may_leave self.new)) }
        ensures seen { tells → seen self.new ≡ seen self.old }
        ensures stop { tells → Within (may_leave self.new) (may_leave self.old) }
        ensures keeps { tells → OnErr result (Within (may_leave self.old) (may_leave self.new)) }
        ensures past { tells → NothingElse left_since may_leave self.old self.new }
        ensures count { Counts result (failure_count self.old) (failure_count self.new) };

    /// How many calls have returned an error; it restarts at 0 after the greatest number.
    fn failures(&self) -> u64
        ensures { result ≡ failure_count self.now };

    /// The file that a read gives is one of those that a stop now may leave.
    ghost seen_may_be_left: { (disk : Self) → tells → may_leave disk (seen disk) };

    /// Each file that a stop might have left from a moment to itself is one that it may leave now.
    ghost only_now: { (disk : Self) (file : List ℕ) → tells → left_since disk disk file → may_leave disk file };
}
