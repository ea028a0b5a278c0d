//! Acknowledging the entries of the log.

ghost use Rattle.std.specs.Prelude.{◌≡◌, ◌≤◌, None, Some, IfOk, IfErr, IsErrOf, MatchResult, length};
ghost use Rattle.retain_store.specs.declared.shape.TheConstants.{FILE_BYTES};
ghost use Rattle.durable_core.specs.Cores.{Outlives};
ghost use Rattle.durable_core.specs.Flushing.{Flushes, CountsFlush};
ghost use Rattle.durable_core.specs.Endless.{EachCoreStays, InEachCore};

use crate::core_state::Core;
use crate::endless::EndlessCore;
use crate::refusal::Refusal;
use crate::saving::save_record;
use disk::Disk;
use retain_store::StoreFault;

impl<D: Disk> EndlessCore<D> {
    /// How many entries are acknowledged: a restart gives the values after a prefix of the log that holds all of them.
    pub fn acked(&self) -> u64
        ensures acked { result ≡ self.now.acked }
        ensures few { InEachCore self.now (λ core. result ≤ length core.state.log) }
    {
        self.acked
    }

    /// Saves the variables that are kept, if there are more entries than acknowledged ones, and gives their number,
    /// which is acknowledged then. It allocates nothing, and makes no device call if all is acknowledged.
    ///
    /// K5 if the store has failed before or fails now, for good; the acknowledged entries stay as they were.
    pub fn flush(&mut self) -> Result<u64, Refusal>
        ensures flushes { EachCoreStays (λ a b. Flushes a result b) self.old self.new }
        ensures device { EachCoreStays
            (CountsFlush result (D.failure_count self.old.store.disk) (D.failure_count self.new.store.disk))
            self.old self.new }

        // On a disk that serves a whole file, K5 comes only if the device has failed before, or by S4.
        ensures serves { D.serves self.old.store.disk FILE_BYTES → D.serves self.new.store.disk FILE_BYTES
            × (IsErrOf result (Refusal.StoreFailed StoreFault.Device) → self.old.failed ≡ Some StoreFault.Device) }
        ensures outlives { D.tells → EachCoreStays (Outlives D.left_since D.may_leave) self.old self.new }
    {
        self.kept();
        if let Some(cause) = self.failed {
            return Err(Refusal::StoreFailed(cause));
        }
        let length = self.engine.entries();
        if self.acked == length {
            return Ok(length);
        }
        let saved = save_record(&self.engine, &mut self.store, &mut self.kept);
        match saved {
            Ok(()) => {
                self.acked = length;
                self.kept();
                Ok(length)
            }
            Err(cause) => {
                self.failed = Some(cause);
                self.kept();
                Err(Refusal::StoreFailed(cause))
            }
        }
    }
}

/// The same number, as the length of a log that is kept.
fn as_length(answer: Result<u64, Refusal>) -> Result<usize, Refusal>
    ensures { result ≡ answer }
{
    match answer {
        Ok(length) => Ok(length as usize),
        Err(refusal) => Err(refusal),
    }
}

impl<D: Disk> Core<D> {
    /// How many entries of the log are acknowledged: a restart gives the values after a prefix of the log that holds
    /// all of them.
    pub fn acked(&self) -> usize
        ensures acked { result ≡ self.now.acked }
        ensures few { result ≤ length self.now.state.log }
    {
        self.kept();
        self.endless.acked() as usize
    }

    /// Saves the variables that are kept, if the log is longer than its acknowledged part, and gives the log's length,
    /// which is acknowledged then. It allocates nothing, and makes no device call if all is acknowledged.
    ///
    /// K5 if the store has failed before or fails now, for good; the acknowledged entries stay as they were.
    pub fn flush(&mut self) -> Result<usize, Refusal>
        ensures flushes { Flushes self.old result self.new }
        ensures device { CountsFlush result (D.failure_count self.old.store.disk) (D.failure_count self.new.store.disk)
            self.old self.new }

        // On a disk that serves a whole file, K5 comes only if the device has failed before, or by S4.
        ensures serves { D.serves self.old.store.disk FILE_BYTES → D.serves self.new.store.disk FILE_BYTES
            × (IsErrOf result (Refusal.StoreFailed StoreFault.Device) → self.old.failed ≡ Some StoreFault.Device) }
        ensures outlives { D.tells → Outlives D.left_since D.may_leave self.old self.new }
    {
        let result = self.endless.flush();
        as_length(result)
    }
}
