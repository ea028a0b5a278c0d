//! Starting a core with its log.

ghost use Rattle.std.specs.Prelude.{◌≡◌, ◌≢◌, ◌≤◌, IfOk, IfErr, MatchResult};
ghost use Rattle.st_types.specs.declared.limits.TheConstants.{MAX_LOG_ROOM};
ghost use Rattle.disk.specs.Disk.{Only};
ghost use Rattle.disk.specs.Runs.{LeavesOnly};
ghost use Rattle.retain_store.specs.declared.shape.TheConstants.{FILE_BYTES};
ghost use Rattle.retain_store.specs.Recovered.{recovered};
ghost use Rattle.durable_core.specs.Starting.{CanStart, RefusesStart, CountsStart, IsOutOfMemory};
ghost use Rattle.durable_core.specs.Starting.{IsLeftByStart, StartKeeps};
ghost use Rattle.durable_core.specs.Started.{IsStarted, StartsFrom};

use crate::core_state::Core;
use crate::endless::EndlessCore;
use crate::refusal::StartFault;
use crate::starting::StartMode;
use disk::Disk;
use plan::Plan;
use retain_store::StoreFault;
use serial_core::History;
use std::alloc::Global;
use std::sync::Arc;

impl<D: Disk> Core<D> {
    /// Starts a life of the plan over this disk, with room for `log_room` entries of its log, 0 to 65,536. It allocates
    /// its memory before the first device call. A cold start, and a warm one over a record of another layout text,
    /// saves the record of the start before it answers.
    ///
    /// A warm start gives each retained variable the value in the line of the record with its path and its type, as
    /// they are written, and each other variable its initial value.
    ///
    /// S1 to S5, or N2 if an allocation fails. An error gives the disk back.
    pub fn start(
        alloc: Global,
        plan: Arc<Plan>,
        disk: D,
        mode: StartMode,
        log_room: usize,
    ) -> Result<Core<D>, (StartFault, D)>
        requires room { log_room ≤ MAX_LOG_ROOM }

        ensures core { IfOk result (λ core. IsStarted core plan.value mode log_room) }
        ensures file { D.tells → IfOk result
            (λ core. StartsFrom D.seen D.may_leave (D.seen disk) plan.value mode log_room core) }

        // A start that is refused leaves the file as it was. After S3 it may differ if it was too short, or if the
        // start writes over its content.
        ensures unwritten { D.tells → IfErr result
            (λ e. StartKeeps mode plan.value e.0 (D.seen disk) (D.seen e.1)) }

        // All memory is allocated before the first device call.
        ensures memory { IfErr result (λ e. IsOutOfMemory e.0 → e.1 ≡ disk) }

        // Whether it is answered or refused depends exactly on the content that the file is recovered to, faults of the
        // device and out of memory aside.
        ensures answers { D.tells → MatchResult result
            (λ core. CanStart mode plan.value (recovered (D.seen disk)))
            (λ e. RefusesStart mode plan.value (recovered (D.seen disk)) e.0) }

        // S3 exactly when a device call failed, and then just one failed.
        ensures device { MatchResult result
            (λ core. D.failure_count core.store.disk ≡ D.failure_count disk)
            (λ e. CountsStart e.0 (D.failure_count disk) (D.failure_count e.1)) }

        // A disk that serves a whole file never gives S3.
        ensures serves { D.tells → D.serves disk FILE_BYTES → MatchResult result
            (λ core. D.serves core.store.disk FILE_BYTES)
            (λ e. (e.0 ≢ StartFault.Store StoreFault.Device) × D.serves e.1 FILE_BYTES) }

        // On a disk with nothing unsynced, a stop at any moment leaves the content that was recovered before, or, if
        // the start saves it, the record of the start. It leaves the file as it was, unless that was too short or the
        // start writes over its content.
        ensures any_moment { D.tells → Only (D.seen disk) (D.may_leave disk) → MatchResult result
            (λ core. LeavesOnly D.left_since D.may_leave disk core.store.disk
            (IsLeftByStart mode plan.value (D.seen disk)))
            (λ e. LeavesOnly D.left_since D.may_leave disk e.1 (IsLeftByStart mode plan.value (D.seen disk))) }
    {
        let Ok(history) = History::new(alloc, &plan.variables, log_room) else {
            return Err((StartFault::NoMemory, disk));
        };
        let mut history = history;
        match EndlessCore::start(alloc, plan, disk, mode, log_room as u64) {
            Ok(endless) => {
                history.begin(endless.values());
                Ok(Core { endless, history })
            }
            Err(refused) => Err(refused),
        }
    }
}
