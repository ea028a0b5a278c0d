//! A disk in memory that fails or stops at chosen steps. It states the rules of a disk.
ghost use Rattle.std.specs.Prelude.{◌≡◌, ◌≤◌, ◌+◌, ℕ, true, is_ok, MatchOption, length, take, drop, IfOk, nat_le};
ghost use Rattle.std.specs.Prelude.{if◌then◌else◌};
ghost use Rattle.disk.specs.Disk.{Only};
ghost use Rattle.disk.specs.Medium.{MayLeave, IsLeft, IsWritten, synced_len, file_may_be_left};
ghost use Rattle.disk.specs.Simulated.{fresh, StopView, is_stop, call_begun, succeeds, answer_of, counted, has_range, has_room};
ghost use Rattle.disk.specs.Simulated.{after_write, after_sync, IsReliable};

use crate::disk::{Disk, DiskError};
use crate::medium::Medium;
use std::alloc::{AllocError, Global};
use std::marker::Model;

/// The room in bytes of a disk whose file is shorter.
pub(crate) const ROOM_BYTES: usize = 262_144;

/// The room is this number. A law.
pub fn room_of_a_simulated_disk()
    ensures { ROOM_BYTES ≡ 262144 }
{}

/// A stop of the machine within a call, and the bytes that it leaves.
#[derive(Debug)]
pub struct Stop {
    /// The number of the call, a device step.
    pub step: u64,
    /// The bytes that are left, in turn, where one was written since the last sync. If there are none, the written bytes are
    /// left.
    pub torn: Vec<u8>,
    /// The length in bytes that is left, moved into the span from the synced length to the current one.
    pub len: u64,
}

impl Drop for Stop {
    fn drop(self) {
        let Self {
            step: _,
            torn: _,
            len: _,
        } = self;
    }
}

impl Model for Stop {
    ghost use Rattle.disk.specs.Simulated.{StopView};

    ghost Value = { StopView };

    ghost view = { λ stop. record { step = stop.step; torn = stop.torn.items; len = stop.len } };
}

/// A disk in memory. It numbers its calls of `len`, `read`, `write_at` and `sync` from 0 as device steps, and fails or stops
/// at the chosen ones. It takes memory in `new` alone.
pub struct SimDisk {
    medium: Medium,
    step: u64,
    failing: Option<u64>,
    stop: Option<Stop>,
    stopped: bool,
    failures: u64,
}

impl Drop for SimDisk {
    fn drop(self) {
        let Self {
            medium: _,
            step: _,
            failing: _,
            stop: _,
            stopped: _,
            failures: _,
        } = self;
    }
}

impl Model for SimDisk {
    ghost use Rattle.disk.specs.Simulated.{SimView};

    ghost Value = { SimView };

    ghost view = { λ disk. record {
      medium = disk.medium;
      step = disk.step;
      failing = disk.failing;
      stop = disk.stop;
      stopped = disk.stopped;
      failures = disk.failures;
    } };
}

impl SimDisk {
    /// A disk with this file, all of it synced, that neither fails nor stops. Its room is the greater of the file's
    /// length and 262,144 bytes.
    pub fn new(alloc: Global, file: Vec<u8>) -> Result<SimDisk, AllocError>
        ensures fresh { IfOk result (λ disk. disk ≡ fresh file.items) }
        ensures synced { IfOk result (λ disk. Only file.items (MayLeave disk.medium)) }
        ensures reliable { IfOk result (λ disk. IsReliable disk ROOM_BYTES) }
    {
        let room = file.len().max(ROOM_BYTES);
        let medium = Medium::new(alloc, file, room)?;
        Ok(SimDisk {
            medium,
            step: 0,
            failing: None,
            stop: None,
            stopped: false,
            failures: 0,
        })
    }

    /// Chooses the device step that fails. It answers an error, and a failing write leaves its bytes written and
    /// unsynced.
    pub fn fail_at(&mut self, step: u64)
        ensures { self.new ≡ record self.old { failing = Some step } }
    {
        self.failing = Some(step);
    }

    /// Chooses the device step within which the machine stops. That call and all later ones answer an error.
    pub fn stop_at(&mut self, stop: Stop)
        ensures { self.new ≡ record self.old { stop = Some stop } }
    {
        self.stop = Some(stop);
    }

    /// The file that a stop leaves now: as the chosen stop has it, even if no call has come to it, and if none was chosen
    /// all that was written.
    pub fn left(self) -> Vec<u8>
        ensures left { MatchOption self.stop
            (result.items ≡ self.medium.file)
            (λ stop. IsLeft self.medium stop.torn stop.len result.items) }
        ensures may_be_left { MayLeave self.medium result.items }
    {
        let SimDisk {
            medium,
            step: _,
            failing: _,
            stop,
            stopped: _,
            failures: _,
        } = self;
        match stop {
            Some(stop) => medium.left(&stop.torn, stop.len),
            None => medium.left(&[], u64::MAX),
        }
    }

    /// Begins a call, and says whether it works.
    fn begin(&mut self) -> bool
        ensures begun { self.new ≡ call_begun self.old }
        ensures works { result ≡ succeeds self.old }
    {
        let step = self.step;
        self.step = step.saturating_add(1);
        if self.stop_is_at(step) {
            self.stopped = true;
        }
        !self.stopped && self.failing != Some(step)
    }

    /// Whether the stop falls on this step.
    fn stop_is_at(&self, step: u64) -> bool
        ensures { result ≡ is_stop self.now.stop step }
    {
        match &self.stop {
            Some(stop) => stop.step == step,
            None => false,
        }
    }

    /// Ends a call that succeeds or not, and that can be done or not.
    fn end(&mut self, succeeds: bool, possible: bool) -> Result<(), DiskError>
        ensures answer { result ≡ answer_of succeeds possible tt }
        ensures counted { self.new ≡ counted result self.old }
    {
        let error = match (succeeds, possible) {
            (true, true) => return Ok(()),
            (true, false) => DiskError::OutOfRange,
            (false, _) => DiskError::Failed,
        };
        self.failures = self.failures.wrapping_add(1);
        Err(error)
    }
}

/// Whether a range of that many bytes ends by the limit.
fn ends_within(at: u64, count: usize, limit: usize) -> bool
    ensures { result ≡ nat_le (at + count) limit }
{
    at.checked_add(count as u64)
        .is_some_and(|end| end <= limit as u64)
}

impl Disk for SimDisk {
    ghost use Rattle.std.specs.Prelude.{List, ℕ};

    ghost tells = { Unit {0} };

    ghost seen = { λ disk. disk.medium.file };

    ghost may_leave = { λ disk. MayLeave disk.medium };

    ghost left_since = { λ _ disk. MayLeave disk.medium };

    ghost failure_count = { λ disk. disk.failures };

    ghost serves = { IsReliable };

    ghost seen_may_be_left = { λ disk _. file_may_be_left disk.medium };

    ghost only_now = { λ disk file _ leaves. leaves };

    fn len(&mut self) -> Result<u64, DiskError>
        ensures answer { result ≡ answer_of (succeeds self.old) true (length self.old.medium.file) }
        ensures after { self.new ≡ counted result (call_begun self.old) }
    {
        let works = self.begin();
        self.end(works, true)?;
        Ok(self.medium.len() as u64)
    }

    fn read(&mut self, at: u64, buf: &mut [u8]) -> Result<(), DiskError>
        ensures answer { result ≡ answer_of (succeeds self.old) (has_range self.old at (length buf.old)) tt }
        ensures bytes { buf.new ≡
            (if is_ok result then take (length buf.old) (drop at self.old.medium.file) else buf.old) }
        ensures after { self.new ≡ counted result (call_begun self.old) }
    {
        let works = self.begin();
        let inside = ends_within(at, buf.len(), self.medium.len());
        self.end(works, inside)?;
        self.medium.read(at as usize, buf);
        Ok(())
    }

    fn write_at(&mut self, at: u64, bytes: &[u8]) -> Result<(), DiskError>
        ensures answer { result ≡ answer_of (succeeds self.old) (has_room self.old at (length bytes.now)) tt }
        ensures after { self.new ≡ counted result (after_write self.old at bytes.now) }
        // The bytes appended since the last sync count as written.
        ensures appended { (i : ℕ) → synced_len self.old.medium ≤ i → IsWritten self.old.medium i }
    {
        let was_stopped = self.stopped;
        let works = self.begin();
        let fits = ends_within(at, bytes.len(), self.medium.room());
        if fits && !was_stopped {
            self.medium.write(at as usize, bytes);
        }
        self.end(works, fits)
    }

    fn sync(&mut self) -> Result<(), DiskError>
        ensures answer { result ≡ answer_of (succeeds self.old) true tt }
        ensures after { self.new ≡ counted result (after_sync self.old) }
    {
        let works = self.begin();
        if works {
            self.medium.sync();
        }
        self.end(works, true)
    }

    fn failures(&self) -> u64 {
        self.failures
    }
}
