//! A store that saves records, one after another.

ghost use Rattle.std.specs.Prelude.{◌≡◌, ◌≢◌, ◌≤◌, ◌+◌, ◌-◌, ◌^◌, ◌↔◌, List, ℕ, true, false, IfOk, IfErr, IfSome, OnOk};
ghost use Rattle.std.specs.Prelude.{OnErr, IsErrOf, MatchResult, length, take};
ghost use Rattle.std.specs.Option.{option_copied};
ghost use Rattle.st_types.specs.declared.limits.TheConstants.{MAX_RECORD_BODY};
ghost use Rattle.disk.specs.Disk.{Only};
ghost use Rattle.disk.specs.Runs.{LeavesOnly};
ghost use Rattle.retain_records.specs.Records.{IsRecordable, record_bytes};
ghost use Rattle.retain_store.specs.Recovered.{recovered, Found};
ghost use Rattle.retain_store.specs.Areas.{IsEither, IsZeros};
ghost use Rattle.retain_store.specs.Opening.{CountsFault, IsFoundIn, IsLeftByOpening, IsOpenFault, IsRefusal};
ghost use Rattle.retain_store.specs.Opening.{KeepsFile};
ghost use Rattle.retain_store.specs.Kept.{content_of, record_in, IsLast};
ghost use Rattle.retain_store.specs.Stores.{IsOpened, IsSavedAs, IsUnsaved, LeavesEither, RefusesSave};

use crate::area::{Areas, write_frame};
use crate::fault::StoreFault;
use crate::frame::put_frame;
use crate::loading::recover;
use crate::shape::{FILE_BYTES, HEADER_BYTES};
use disk::Disk;
use retain_records::{LineRoom, Record};
use st_types::Value;
use std::alloc::{AllocError, Global};
use std::marker::Model;

/// The saves since the store was opened.
#[derive(Clone, Copy, Debug, PartialEq, Eq)]
enum Saves {
    /// Each has succeeded.
    Working,
    /// One failed in the device.
    Broken,
    /// One was refused because the generations are used up.
    UsedUp,
}

/// A retain file with its last record. It saves a record in such an order that a stop at any moment leaves the last
/// record or the one being saved. Contracts see its disk, the last record and the one that a failed save tried.
///
/// The type guarantees that the last record is sound, and that each file which a stop now may leave is recovered to one of
/// these two; on a disk that reports nothing it guarantees nothing about files.
pub struct Store<D: Disk> {
    disk: D,
    areas: Areas,
    /// The last record, if there is one.
    last: Record,
    /// The record that was tried, after a save that failed in the device.
    next: Record,
    /// The room of an area after its gate.
    frame: Vec<u8>,
    saves: Saves,
}

impl<D: Disk + Drop> Drop for Store<D> {
    fn drop(self) {
        let Self {
            disk: _,
            areas: _,
            last: _,
            next: _,
            frame: _,
            saves: _,
        } = self;
    }
}

impl<D: Disk> Model for Store<D> {
    ghost use Rattle.std.specs.Prelude.{◌-◌, ◌≤◌, length};
    ghost use Rattle.retain_store.specs.declared.shape.TheConstants.{HEADER_BYTES};
    ghost use Rattle.retain_store.specs.Surveys.{held, IsRecordableAt};
    ghost use Rattle.retain_store.specs.Kept.{StoreView, StoreInvariant, tried_by, has_failed};

    ghost Value = { StoreView D };

    ghost view = { λ s. record {
      disk = s.disk;
      generation = s.areas.generation;
      last = held s.areas.generation s.last;
      tried = tried_by s.saves s.areas.generation s.last s.next;
      failed = has_failed s.saves;
      room = length s.frame.items - HEADER_BYTES;
    } };

    ghost invariant = { λ s. StoreInvariant D.tells (D.seen s.disk) (D.may_leave s.disk) s.areas s.saves
        (held s.areas.generation s.last) (tried_by s.saves s.areas.generation s.last s.next)
        (length s.frame.items) × IsRecordableAt s.areas.generation s.last };
}

/// The memory of a store, which is taken before its first device call.
#[derive(Drop)]
struct Room {
    /// Zero bytes, for the whole file.
    file: Vec<u8>,
    last: Record,
    next: Record,
    lines: LineRoom,
    frame: Vec<u8>,
}

impl Room {
    fn new(alloc: Global, room: usize) -> Result<Room, AllocError>
        requires { room ≤ MAX_RECORD_BODY }
        ensures file { IfOk result (λ r. length r.file.items ≡ FILE_BYTES) }
        ensures zeros { IfOk result (λ r. IsZeros (FILE_BYTES - 1) (take (FILE_BYTES - 1) r.file.items)) }
        ensures frame { IfOk result (λ r. length r.frame.items ≡ room + HEADER_BYTES) }
    {
        let file = vec![in alloc; 0; FILE_BYTES]?;
        let last = Record::with_room(alloc)?;
        let next = Record::with_room(alloc)?;
        let lines = LineRoom::new(alloc)?;
        let frame = vec![in alloc; 0; room + HEADER_BYTES]?;
        Ok(Room {
            file,
            last,
            next,
            lines,
            frame,
        })
    }
}

impl<D: Disk> Store<D> {
    /// Opens the file of a disk. Its memory, for any record that the file may hold and for saves of bodies of at most
    /// `room` bytes, is taken before the first device call.
    ///
    /// S1 to S3, and S5 out of memory. An error gives the disk back, and makes no more calls of it.
    pub fn open(alloc: Global, disk: D, room: usize) -> Result<Store<D>, (StoreFault, D)>
        requires room { room ≤ MAX_RECORD_BODY }

        // The last record is the one recovered from the file that a read gives. A file with a record is as it was, and
        // so is a whole one without: the bytes after its closed gates stay. Only a shorter one is formatted: it is
        // whole now, and all its bytes are zero.
        ensures found { D.tells → IfOk result (λ store. IsFoundIn (D.seen disk) (D.seen store.disk) store.last) }
        ensures opened { IfOk result (λ store. IsOpened store room) }

        // A file that is refused is as it was. So is one after S3, unless it was too short.
        ensures refused { D.tells → IfErr result (λ e. IsRefusal e.0 (D.seen disk) (D.seen e.1)) }
        ensures faults { IfErr result (λ e. IsOpenFault e.0 disk e.1) }

        // After Ok a stop leaves the last record.
        ensures at_rest { D.tells → IfOk result (λ store. (file : List ℕ) → D.may_leave store.disk file
            → recovered file ≡ store.last) }

        // S3 comes exactly if a call of the disk failed, and then one did.
        ensures device { MatchResult result
            (λ store. D.failure_count store.disk ≡ D.failure_count disk)
            (λ e. CountsFault e.0 (D.failure_count disk) (D.failure_count e.1)) }

        // S3 does not come from a disk that serves a whole file.
        ensures serves { D.tells → D.serves disk FILE_BYTES → MatchResult result
            (λ store. D.serves store.disk FILE_BYTES)
            (λ e. (e.0 ≢ StoreFault.Device) × D.serves e.1 FILE_BYTES) }

        // On a disk with nothing unsynced, a stop at any moment leaves the file as it was. Only one that was too short
        // may differ, and is recovered as before.
        ensures any_moment { D.tells → Only (D.seen disk) (D.may_leave disk) → MatchResult result
            (λ store. LeavesOnly D.left_since D.may_leave disk store.disk (IsLeftByOpening (D.seen disk)))
            (λ e. LeavesOnly D.left_since D.may_leave disk e.1 (IsLeftByOpening (D.seen disk))) }
    {
        let mut disk = disk;
        let Room {
            mut file,
            mut last,
            mut next,
            mut lines,
            frame,
        } = match Room::new(alloc, room) {
            Ok(room) => room,
            Err(_) => return Err((StoreFault::NoMemory, disk)),
        };
        match recover(&mut disk, &mut file, &mut last, &mut next, &mut lines) {
            Ok(areas) => Ok(Store {
                disk,
                areas,
                last,
                next,
                frame,
                saves: Saves::Working,
            }),
            Err(fault) => Err((fault, disk)),
        }
    }

    /// The generation of the last record, from 1; 0 if there is none.
    pub fn generation(&self) -> u64
        ensures { result ≡ self.now.generation }
    {
        self.areas.generation
    }

    /// The last record, if there is one.
    pub fn last(&self) -> Option<&Record>
        ensures record { option_copied result ≡ record_in self.now.last }
        ensures sound { IfSome result (λ r. IsRecordable r.now) }
    {
        if self.areas.generation == 0 {
            return None;
        }
        Some(&self.last)
    }

    /// Saves a record. After `Ok` it is the last, and a stop leaves it. The call takes no memory.
    ///
    /// S3 if the device failed, S4 before any device call if the generations are used up; after one of these S6, until the
    /// disk is opened again. No other fault comes. An error leaves the last record as it was.
    pub fn save(
        &mut self,
        moment: Option<u64>,
        layout: &[u8],
        values: &[Value],
    ) -> Result<(), StoreFault>
        requires sound { IsRecordable (content_of moment layout.now values.now) }
        requires room { length (record_bytes (content_of moment layout.now values.now)) ≤ self.old.room }

        ensures saved { OnOk result
            (IsSavedAs (content_of moment layout.now values.now) self.old self.new) }
        ensures unsaved { IfErr result
            (λ fault. IsUnsaved fault (content_of moment layout.now values.now) self.old self.new) }
        ensures refused { RefusesSave result self.old }

        // A stop at any moment leaves the last record or the new one, and after Ok the new one. Then the record before
        // it is still in the other area, and the first record of a file is in the first one.
        ensures stops { D.tells → LeavesEither D.left_since D.may_leave result
            (content_of moment layout.now values.now) self.old self.new }

        // S3 comes exactly if a call of the disk failed, and then one did.
        ensures device { MatchResult result
            (λ _. D.failure_count self.new.disk ≡ D.failure_count self.old.disk)
            (λ fault. CountsFault fault (D.failure_count self.old.disk) (D.failure_count self.new.disk)) }

        // S3 does not come from a disk that serves a whole file.
        ensures serves { D.serves self.old.disk FILE_BYTES
            → IfErr result (λ fault. fault ≢ StoreFault.Device) × D.serves self.new.disk FILE_BYTES }

        // S4 and S6 come before any call of the disk.
        ensures unwritten { D.tells
            → IfErr result (λ fault. KeepsFile fault (D.seen self.old.disk) (D.seen self.new.disk)) }
    {
        match self.saves {
            Saves::Working => {}
            Saves::Broken | Saves::UsedUp => return Err(StoreFault::Failed),
        }
        if self.areas.generation == u64::MAX {
            self.saves = Saves::UsedUp;
            return Err(StoreFault::Generations);
        }
        self.next.set(moment, layout, values);
        let generation = self.areas.generation + 1;
        let size = put_frame(&mut self.frame, generation, moment, layout, values);
        let target = self.areas.target.at();
        let gate = self.areas.target_gate;
        match write_frame(
            &mut self.disk,
            target,
            gate,
            generation,
            &self.frame[..size],
        ) {
            Ok(()) => {
                std::mem::swap(&mut self.last, &mut self.next);
                self.areas = self.areas.after_save();
                Ok(())
            }
            Err(_) => {
                self.saves = Saves::Broken;
                Err(StoreFault::Device)
            }
        }
    }

    /// States the invariant of the type: each file that a stop now may leave is recovered to the last record or to a failed
    /// save's.
    pub fn kept(&self)
        ensures left { D.tells → (file : List ℕ) → D.may_leave self.now.disk file
            → IsEither self.now.last self.now.tried (recovered file) }
        ensures last { IsLast self.now.generation self.now.last }
    {
        let _ = &self.saves;
    }

    /// Gives the disk back, without a call of it.
    pub fn into_disk(self) -> D
        ensures disk { result ≡ self.disk }
        ensures left { D.tells → (file : List ℕ) → D.may_leave result file
            → IsEither self.last self.tried (recovered file) }
    {
        let Store {
            disk,
            areas: _,
            last: _,
            next: _,
            frame: _,
            saves: _,
        } = self;
        disk
    }
}
