//! Saving the record of an engine.

ghost use Rattle.std.specs.Prelude.{◌≡◌, ◌≢◌, ◌≤◌, ◌<◌, length, map, vec_capacity, MatchResult, IfErr, IfSome, OnOk};
ghost use Rattle.std.specs.List.{AllByRecursion};
ghost use Rattle.st_types.specs.declared.limits.TheConstants.{MOMENT_LIMIT};
ghost use Rattle.st_types.specs.Values.{IsHeld};
ghost use Rattle.core_engine.specs.Retained.{retained_kinds};
ghost use Rattle.durable_core.specs.Recorded.{recorded_kind};
ghost use Rattle.st_meaning.specs.Layouts.{record_length};
ghost use Rattle.plan.specs.PlanViews.{plan_view};
ghost use Rattle.retain_store.specs.declared.shape.TheConstants.{FILE_BYTES};
ghost use Rattle.retain_store.specs.Opening.{CountsFault, KeepsFile};
ghost use Rattle.retain_store.specs.Stores.{IsSavedAs, IsUnsaved, LeavesEither, RefusesSave};
ghost use Rattle.durable_core.specs.Restart.{record_now};
ghost use Rattle.durable_core.specs.Endless.{IsFirstEngine, engine_record, first_state};

use crate::parts::layout_text;
use crate::recording::record_all;
use core_engine::Engine;
use disk::Disk;
use retain_store::{Store, StoreFault};
use st_types::Value;

/// Puts the values of the engine's record in place of the values there.
fn record_values(engine: &Engine, kept: &mut Vec<Value>)
    requires room { length engine.now.plan.variables.items ≤ vec_capacity kept.old }
    ensures values { kept.new.items ≡ (engine_record engine.now).values }
    ensures kinds { map (λ d. d.kind) kept.new.items
        ≡ map recorded_kind (retained_kinds engine.now.plan.variables.items) }
    ensures held { AllByRecursion IsHeld kept.new.items }
    ensures capacity { vec_capacity kept.old ≤ vec_capacity kept.new }
{
    engine.lived();
    engine.retain(kept);
    record_all(kept);
}

/// The moment of the engine's record.
fn last_moment(engine: &Engine) -> Option<u64>
    ensures last { result ≡ engine.now.last }
    ensures early { IfSome result (λ t. t < MOMENT_LIMIT) }
{
    engine.lived();
    engine.last_moment()
}

/// Saves the record of the engine as it is now: its variables that are kept, and the moment of its last row. It allocates
/// nothing.
pub(crate) fn save_record<D: Disk>(
    engine: &Engine,
    store: &mut Store<D>,
    kept: &mut Vec<Value>,
) -> Result<(), StoreFault>
    requires room { record_length (plan_view engine.now.plan).enumerations engine.now.plan.variables.items
        ≤ store.old.room }
    requires kept { length engine.now.plan.variables.items ≤ vec_capacity kept.old }

    ensures saved { OnOk result (IsSavedAs (engine_record engine.now) store.old store.new) }
    ensures unsaved { IfErr result (λ fault. IsUnsaved fault (engine_record engine.now) store.old store.new) }
    ensures refused { RefusesSave result store.old }
    ensures stops { D.tells
        → LeavesEither D.left_since D.may_leave result (engine_record engine.now) store.old store.new }
    ensures device { MatchResult result
        (λ _. D.failure_count store.new.disk ≡ D.failure_count store.old.disk)
        (λ fault. CountsFault fault (D.failure_count store.old.disk) (D.failure_count store.new.disk)) }
    ensures serves { D.serves store.old.disk FILE_BYTES
        → IfErr result (λ fault. fault ≢ StoreFault.Device) × D.serves store.new.disk FILE_BYTES }
    ensures unwritten { D.tells
        → IfErr result (λ fault. KeepsFile fault (D.seen store.old.disk) (D.seen store.new.disk)) }
    ensures kept { vec_capacity kept.old ≤ vec_capacity kept.new }
{
    record_values(engine, kept);
    store.save(last_moment(engine), layout_text(engine), kept)?;
    Ok(())
}

/// The same for an engine before its first entry: this is the record of its start.
pub(crate) fn save_first<D: Disk>(
    engine: &Engine,
    store: &mut Store<D>,
    kept: &mut Vec<Value>,
) -> Result<(), StoreFault>
    requires new { IsFirstEngine engine.now }
    requires room { record_length (plan_view engine.now.plan).enumerations engine.now.plan.variables.items
        ≤ store.old.room }
    requires kept { length engine.now.plan.variables.items ≤ vec_capacity kept.old }

    ensures saved { OnOk result (IsSavedAs (record_now (first_state engine.now)) store.old store.new) }
    ensures unsaved { IfErr result (λ fault. IsUnsaved fault (record_now (first_state engine.now)) store.old store.new) }
    ensures refused { RefusesSave result store.old }
    ensures stops { D.tells
        → LeavesEither D.left_since D.may_leave result (record_now (first_state engine.now)) store.old store.new }
    ensures device { MatchResult result
        (λ _. D.failure_count store.new.disk ≡ D.failure_count store.old.disk)
        (λ fault. CountsFault fault (D.failure_count store.old.disk) (D.failure_count store.new.disk)) }
    ensures serves { D.serves store.old.disk FILE_BYTES
        → IfErr result (λ fault. fault ≢ StoreFault.Device) × D.serves store.new.disk FILE_BYTES }
    ensures unwritten { D.tells
        → IfErr result (λ fault. KeepsFile fault (D.seen store.old.disk) (D.seen store.new.disk)) }
    ensures kept { vec_capacity kept.old ≤ vec_capacity kept.new }
{
    save_record(engine, store, kept)
}
