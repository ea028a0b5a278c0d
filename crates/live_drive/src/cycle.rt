//! One row: latched, run until nothing waits, and saved.

ghost use Rattle.std.specs.Prelude.{◌≡◌, MatchOption, MatchResult, IfErr, IfOk};
ghost use Rattle.durable_core.specs.Endless.{EachCoreGoesOn, InEachCore};
ghost use Rattle.live_drive.specs.Cycles.{EndsRun, IsNext, NothingWaits, Refuses, Runs, Serves, Withstands};

use crate::serving::Observer;
use disk::Disk;
use durable_core::{EndlessCore, Refusal};
use st_meaning::Outcome;
use st_types::{Activation, Row};
use std::alloc::Global;

/// The best activation of the first resource where something waits; none if nothing waits on any.
fn next_waiting<D: Disk>(core: &EndlessCore<D>) -> Option<Activation>
    ensures { InEachCore core.now (λ core. MatchOption result (NothingWaits core.state) (IsNext core.state)) }
{
    for resource in 0..core.plan().resources() {
        if let Some(activation) = core.best(resource) {
            return Some(activation);
        }
    }
    None
}

/// Runs what waits, in the order of resources and of priorities, until nothing waits. It gives how many executions ended with
/// a fault.
///
/// K5 if the store has failed, K6 if an allocation fails, K1 if the log is full.
fn settle<D: Disk, O: Observer>(
    core: &mut EndlessCore<D>,
    alloc: Global,
    observer: &mut O,
) -> Result<u64, Refusal>
    ensures runs { EachCoreGoesOn (λ a b. Runs a b × Withstands D.tells D.left_since D.may_leave a b) core.old core.new }
    ensures settled { IfOk result (λ _. InEachCore core.new (λ core. NothingWaits core.state)) }
    ensures ends { IfErr result (λ refusal. EndsRun refusal core.new) }
{
    core.kept();
    let mut faults: u64 = 0;
    for _ in 0..u64::MAX {
        let Some(activation) = next_waiting(core) else {
            return Ok(faults);
        };
        let outcome = core.commit_activation(alloc, activation)?;
        observer.ran(core.plan(), activation, outcome);
        match outcome {
            Outcome::Done => {}
            Outcome::Faulted(_) => faults = faults.saturating_add(1),
        }
    }
    // No row has so many executions.
    Err(Refusal::Serial(core_engine::Refusal::NoMemory))
}

/// Latches the row, runs what is due until nothing waits, and saves. It gives how many executions ended with a fault.
///
/// K3 if the row doesn't fit the plan, K4 if its moment isn't later than the last one: then nothing changes. Otherwise a refusal
/// ends the life: K5 if the store has failed before or fails now, K6 if an allocation fails, K1 if the log is full.
pub(crate) fn cycle<D: Disk, O: Observer>(
    core: &mut EndlessCore<D>,
    alloc: Global,
    row: &Row,
    observer: &mut O,
) -> Result<u64, Refusal>
    ensures { MatchResult result
        (λ _. EachCoreGoesOn
        (λ a b. Serves a row.now b × Withstands D.tells D.left_since D.may_leave a b) core.old core.new)
        (λ refusal. EachCoreGoesOn
        (λ a b. Refuses a row.now refusal b × Withstands D.tells D.left_since D.may_leave a b) core.old core.new) }
{
    core.latch(row)?;
    observer.latched(row);
    let faults = settle(core, alloc, observer)?;
    core.flush()?;
    observer.saved(core.engine());
    Ok(faults)
}
