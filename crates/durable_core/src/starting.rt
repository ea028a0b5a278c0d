//! Starting a core.

ghost use Rattle.std.specs.Prelude.{◌≡◌, ◌≢◌, ◌≤◌, ◌+◌, List, ℕ, [], None, IsTrue, false, length};
ghost use Rattle.std.specs.Prelude.{◌<◌, vec_capacity, IfOk, IfErr, IfSome, MatchResult};
ghost use Rattle.st_types.specs.declared.limits.TheConstants.{MOMENT_LIMIT};
ghost use Rattle.disk.specs.Disk.{Only};
ghost use Rattle.disk.specs.Runs.{LeavesOnly};
ghost use Rattle.retain_store.specs.declared.shape.TheConstants.{FILE_BYTES};
ghost use Rattle.retain_store.specs.Recovered.{recovered, Found};
ghost use Rattle.retain_store.specs.Areas.{IsEither};
ghost use Rattle.retain_store.specs.Kept.{IsLast};
ghost use Rattle.retain_records.specs.Lines.{lines_of};
ghost use Rattle.durable_core.specs.Restart.{Survives, IsOfPlan, fresh_state, layout_text_of, record_now, warm};
ghost use Rattle.durable_core.specs.Cores.{survives};
ghost use Rattle.durable_core.specs.Starting.{IsStart, start_in, started, HasOtherLayout, Saves};
ghost use Rattle.durable_core.specs.Starting.{CanStart, RefusesStart, CountsStart, LeftByStart, IsOutOfMemory};
ghost use Rattle.durable_core.specs.Starting.{IsLeftByStart, StartKeeps, WritesOrStays};
ghost use Rattle.durable_core.specs.Endless.{IsCoreOf, IsFirstEngine, first_core, first_state};
ghost use Rattle.durable_core.specs.Started.{IsResumed, IsSavedFirst, IsStarted, StartsFrom};

use crate::endless::EndlessCore;
use crate::migrating::migrate;
use crate::parts::{Parts, layout_text};
use crate::recording::take_numbers;
use crate::refusal::StartFault;
use crate::saving::save_first;
use disk::Disk;
use plan::Plan;
use retain_store::{Store, StoreFault};
use st_types::limits::MAX_RECORD_BODY;
use std::alloc::Global;
use std::sync::Arc;

/// How a life starts.
#[derive(Clone, Copy, Debug, PartialEq, Eq)]
pub enum StartMode {
    /// The retained variables take the values of the last record, if there is one; all others their initial values.
    Warm,
    /// All variables take their initial values.
    Cold,
}

/// Goes on from the last record, if there is one; false if it is of another layout text.
fn resume_from<D: Disk>(parts: &mut Parts, store: &Store<D>) -> bool
    requires new { IsFirstEngine parts.old.engine }
    requires begun { first_state parts.old.engine ≡ fresh_state parts.old.engine.plan parts.old.engine.room }
    requires kept { length parts.old.engine.plan.variables.items ≤ vec_capacity parts.old.kept }
    requires lines { parts.old.lines ≡ lines_of (layout_text_of parts.old.engine.plan) }
    requires last { IsLast store.now.generation store.now.last }

    ensures new { IsFirstEngine parts.new.engine }
    ensures resumed { first_state parts.new.engine ≡ started parts.old.engine.plan parts.old.engine.room
        (warm parts.old.engine.plan store.now.last) }
    ensures early { IfSome (first_state parts.new.engine).before (λ t. t < MOMENT_LIMIT) }
    ensures survives { IsTrue result → Survives parts.new.engine.plan (first_state parts.new.engine).start (first_state parts.new.engine).before
        [] 0 store.now.last }
    ensures same { IsTrue result → IsOfPlan parts.old.engine.plan store.now.last }
    ensures other { result ≡ false → HasOtherLayout parts.old.engine.plan store.now.last }
    ensures again { result ≡ false → (generation : ℕ)
        → first_state parts.new.engine ≡ started parts.old.engine.plan parts.old.engine.room
        (warm parts.old.engine.plan (Found generation (record_now (first_state parts.new.engine)))) }
    ensures kept { vec_capacity parts.old.kept ≤ vec_capacity parts.new.kept }
{
    let Some(record) = store.last() else {
        return true;
    };
    if record.layout() != layout_text(&parts.engine) {
        migrate(parts, record);
        return false;
    }
    parts.engine.retain(&mut parts.kept);
    take_numbers(&mut parts.kept, record.values());
    parts.engine.resume(&parts.kept, record.moment());
    true
}

/// A core that starts from these parts. The record of its start is saved first.
fn saved_first<D: Disk>(
    mode: StartMode,
    parts: Parts,
    store: Store<D>,
) -> Result<EndlessCore<D>, (StartFault, D)>
    requires new { IsFirstEngine parts.engine }
    requires start { IsStart parts.engine.plan mode (start_in (first_state parts.engine)) }
    requires early { IfSome (first_state parts.engine).before (λ t. t < MOMENT_LIMIT) }
    requires kept { length parts.engine.plan.variables.items ≤ vec_capacity parts.kept }
    requires last { IsLast store.generation store.last }
    requires fresh { store.failed ≡ false }
    requires room { store.room ≡ MAX_RECORD_BODY }
    requires saves { Saves mode parts.engine.plan store.last }

    ensures life { IfOk result (λ core. IsCoreOf core.engine.values [] core) }
    ensures core { IfOk result (λ core. IsSavedFirst store (first_state parts.engine) mode (first_core core)) }
    ensures unwritten { IfErr result (λ e. WritesOrStays mode parts.engine.plan store.last store.disk e.1) }
    ensures serves { D.serves store.disk FILE_BYTES → MatchResult result
        (λ core. D.serves core.store.disk FILE_BYTES)
        (λ e. (e.0 ≢ StartFault.Store StoreFault.Device) × D.serves e.1 FILE_BYTES) }
    ensures memory { IfErr result (λ e. IsOutOfMemory e.0 → ⊥) }
    ensures survives { D.tells
        → IfOk result (λ core. (file : List ℕ) → D.may_leave core.store.disk file → survives (first_core core) (recovered file)) }
    ensures answers { MatchResult result
        (λ core. CanStart mode parts.engine.plan store.last)
        (λ e. RefusesStart mode parts.engine.plan store.last e.0) }
    ensures any_moment { D.tells → MatchResult result
        (λ core. LeavesOnly D.left_since D.may_leave store.disk core.store.disk
        (λ file. IsEither store.last (Found (store.generation + 1) (record_now (first_state parts.engine))) (recovered file)))
        (λ e. LeavesOnly D.left_since D.may_leave store.disk e.1
        (λ file. IsEither store.last (Found (store.generation + 1) (record_now (first_state parts.engine))) (recovered file))) }
    ensures device { MatchResult result
        (λ core. D.failure_count core.store.disk ≡ D.failure_count store.disk)
        (λ e. CountsStart e.0 (D.failure_count store.disk) (D.failure_count e.1)) }
{
    let Parts {
        engine,
        mut kept,
        lines: _,
    } = parts;
    let mut store = store;
    match save_first(&engine, &mut store, &mut kept) {
        Ok(()) => {}
        Err(fault) => return Err((StartFault::Store(fault), store.into_disk())),
    }
    let core = EndlessCore {
        mode,
        engine,
        store,
        kept,
        acked: 0,
        failed: None,
    };
    core.kept();
    Ok(core)
}

/// A core that goes on from the last record of the store, which is of the plan's layout text.
fn gone_on<D: Disk>(parts: Parts, store: Store<D>) -> EndlessCore<D>
    requires new { IsFirstEngine parts.engine }
    requires start { IsStart parts.engine.plan StartMode.Warm (start_in (first_state parts.engine)) }
    requires early { IfSome (first_state parts.engine).before (λ t. t < MOMENT_LIMIT) }
    requires kept { length parts.engine.plan.variables.items ≤ vec_capacity parts.kept }
    requires survives { Survives parts.engine.plan (first_state parts.engine).start (first_state parts.engine).before [] 0 store.last }
    requires tried { store.tried ≡ store.last }
    requires fresh { store.failed ≡ false }
    requires room { store.room ≡ MAX_RECORD_BODY }

    ensures life { IsCoreOf result.engine.values [] result }
    ensures core { first_core result ≡ record {
      mode = StartMode.Warm;
      state = first_state parts.engine;
      acked = 0;
      failed = None;
      store = store;
    } }
    ensures survives { D.tells → (file : List ℕ) → D.may_leave result.store.disk file → survives (first_core result) (recovered file) }
{
    let Parts {
        engine,
        kept,
        lines: _,
    } = parts;
    let core = EndlessCore {
        mode: StartMode::Warm,
        engine,
        store,
        kept,
        acked: 0,
        failed: None,
    };
    core.kept();
    core
}

/// A core that goes on from the last record of the store. If that is of another layout text, the record of the start is
/// saved first.
fn warm<D: Disk>(parts: Parts, store: Store<D>) -> Result<EndlessCore<D>, (StartFault, D)>
    requires new { IsFirstEngine parts.engine }
    requires begun { first_state parts.engine ≡ fresh_state parts.engine.plan parts.engine.room }
    requires kept { length parts.engine.plan.variables.items ≤ vec_capacity parts.kept }
    requires lines { parts.lines ≡ lines_of (layout_text_of parts.engine.plan) }
    requires last { IsLast store.generation store.last }
    requires tried { store.tried ≡ store.last }
    requires fresh { store.failed ≡ false }
    requires room { store.room ≡ MAX_RECORD_BODY }

    ensures life { IfOk result (λ core. IsCoreOf core.engine.values [] core) }
    ensures core { IfOk result (λ core. IsResumed store parts.engine.plan parts.engine.room (first_core core)) }
    ensures unwritten { MatchResult result
        (λ core. WritesOrStays StartMode.Warm parts.engine.plan store.last store.disk core.store.disk)
        (λ e. WritesOrStays StartMode.Warm parts.engine.plan store.last store.disk e.1) }
    ensures serves { D.serves store.disk FILE_BYTES → MatchResult result
        (λ core. D.serves core.store.disk FILE_BYTES)
        (λ e. (e.0 ≢ StartFault.Store StoreFault.Device) × D.serves e.1 FILE_BYTES) }
    ensures memory { IfErr result (λ e. IsOutOfMemory e.0 → ⊥) }
    ensures survives { D.tells
        → IfOk result (λ core. (file : List ℕ) → D.may_leave core.store.disk file → survives (first_core core) (recovered file)) }
    ensures answers { MatchResult result
        (λ core. CanStart StartMode.Warm parts.engine.plan store.last)
        (λ e. RefusesStart StartMode.Warm parts.engine.plan store.last e.0) }
    ensures any_moment { D.tells → MatchResult result
        (λ core. LeavesOnly D.left_since D.may_leave store.disk core.store.disk
        (λ file. LeftByStart StartMode.Warm parts.engine.plan store.last (recovered file)))
        (λ e. LeavesOnly D.left_since D.may_leave store.disk e.1
        (λ file. LeftByStart StartMode.Warm parts.engine.plan store.last (recovered file))) }
    ensures device { MatchResult result
        (λ core. D.failure_count core.store.disk ≡ D.failure_count store.disk)
        (λ e. CountsStart e.0 (D.failure_count store.disk) (D.failure_count e.1)) }
{
    let mut parts = parts;
    store.kept();
    let is_same = resume_from(&mut parts, &store);
    if is_same {
        Ok(gone_on(parts, store))
    } else {
        saved_first(StartMode::Warm, parts, store)
    }
}

impl<D: Disk> EndlessCore<D> {
    /// Starts a life of the plan over this disk, with room for so many entries; a life that is to go on for ever has room for
    /// 2^64 - 1. It allocates
    /// its memory before the first device call. A cold start, and a warm one over a record of another layout text,
    /// saves the record of the start before it answers.
    ///
    /// A warm start gives each retained variable the value in the line of the record with its path and its type, as
    /// they are written, and each other variable its initial value.
    ///
    /// S1 to S5, or N2 if an allocation fails. An error gives the disk back.
    pub fn start(
        alloc: Global,
        plan: Arc<Plan>,
        disk: D,
        mode: StartMode,
        room: u64,
    ) -> Result<EndlessCore<D>, (StartFault, D)>
        ensures life { IfOk result (λ core. IsCoreOf core.engine.values [] core) }
        ensures core { IfOk result (λ core. IsStarted (first_core core) plan.value mode room) }
        ensures file { D.tells → IfOk result
            (λ core. StartsFrom D.seen D.may_leave (D.seen disk) plan.value mode room (first_core core)) }

        // A start that is refused leaves the file as it was. After S3 it may differ if it was too short, or if the
        // start writes over its content.
        ensures unwritten { D.tells → IfErr result
            (λ e. StartKeeps mode plan.value e.0 (D.seen disk) (D.seen e.1)) }

        // All memory is allocated before the first device call.
        ensures memory { IfErr result (λ e. IsOutOfMemory e.0 → e.1 ≡ disk) }

        // Whether it is answered or refused depends exactly on the content that the file is recovered to, faults of the
        // device and out of memory aside.
        ensures answers { D.tells → MatchResult result
            (λ core. CanStart mode plan.value (recovered (D.seen disk)))
            (λ e. RefusesStart mode plan.value (recovered (D.seen disk)) e.0) }

        // S3 exactly when a device call failed, and then just one failed.
        ensures device { MatchResult result
            (λ core. D.failure_count core.store.disk ≡ D.failure_count disk)
            (λ e. CountsStart e.0 (D.failure_count disk) (D.failure_count e.1)) }

        // A disk that serves a whole file never gives S3.
        ensures serves { D.tells → D.serves disk FILE_BYTES → MatchResult result
            (λ core. D.serves core.store.disk FILE_BYTES)
            (λ e. (e.0 ≢ StartFault.Store StoreFault.Device) × D.serves e.1 FILE_BYTES) }

        // On a disk with nothing unsynced, a stop at any moment leaves the content that was recovered before, or, if
        // the start saves it, the record of the start. It leaves the file as it was, unless that was too short or the
        // start writes over its content.
        ensures any_moment { D.tells → Only (D.seen disk) (D.may_leave disk) → MatchResult result
            (λ core. LeavesOnly D.left_since D.may_leave disk core.store.disk
            (IsLeftByStart mode plan.value (D.seen disk)))
            (λ e. LeavesOnly D.left_since D.may_leave disk e.1 (IsLeftByStart mode plan.value (D.seen disk))) }
    {
        let Ok(parts) = Parts::new(alloc, plan, room) else {
            return Err((StartFault::NoMemory, disk));
        };
        let store = match Store::open(alloc, disk, MAX_RECORD_BODY) {
            Ok(store) => store,
            Err((fault, disk)) => return Err((StartFault::Store(fault), disk)),
        };
        match mode {
            StartMode::Warm => warm(parts, store),
            StartMode::Cold => saved_first(StartMode::Cold, parts, store),
        }
    }
}
