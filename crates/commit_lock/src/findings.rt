//! The findings on a life that was run again.

ghost use Rattle.std.specs.Prelude.{◌≡◌, IfOk, length, map, count_by, option_map, slice_get, unwrap_or, false};
ghost use Rattle.st_meaning.specs.Logs.{after, outcomes_of};
ghost use Rattle.plan.specs.PlanViews.{plan_view};
ghost use Rattle.trace.specs.Outcomes.{is_faulted};
ghost use Rattle.commit_lock.specs.Replays.{AreFindings, HasOverrunsInAll};

use serial_core::SerialCore;
use st_meaning::Outcome;
use st_types::Value;
use std::alloc::{AllocError, Global};

/// The findings on the life of a trace.
pub struct Replayed {
    /// How many rows were latched.
    pub rows: u64,
    /// How many executions were committed.
    pub done: u64,
    /// How many of these ended with a fault.
    pub faults: u64,
    /// How often a program was due while it still waited.
    pub overruns: u64,
    /// The values of the variables in the end, in layout order.
    pub values: Vec<Value>,
}

impl Drop for Replayed {
    fn drop(self) {
        let Self {
            rows: _,
            done: _,
            faults: _,
            overruns: _,
            values: _,
        } = self;
    }
}

/// Whether the execution of that entry ended with a fault.
fn is_faulted_at(core: &SerialCore, number: usize) -> bool
    ensures { result ≡ unwrap_or (option_map is_faulted (slice_get
        (outcomes_of (plan_view core.now.plan) core.now.start core.now.log) number)) false }
{
    match core.outcome(number) {
        Some(Outcome::Faulted(_)) => true,
        Some(Outcome::Done) => false,
        None => false,
    }
}

/// How many executions of the log ended with a fault.
fn faults(core: &SerialCore) -> usize
    ensures { result ≡ count_by is_faulted (outcomes_of (plan_view core.now.plan) core.now.start core.now.log) }
{
    let mut faults = 0;
    for number in 0..core.len() {
        if is_faulted_at(core, number) {
            faults += 1;
        }
    }
    faults
}

/// How often a program was due while it still waited, up to the greatest number of 64 bits.
fn overruns(core: &SerialCore) -> u64
    ensures { HasOverrunsInAll core.now.plan record { store = core.now.start; moment = core.now.before } core.now.log
        result }
{
    let mut overruns = 0u64;
    for program in 0..core.plan().programs() {
        overruns = overruns.saturating_add(core.overruns(program));
    }
    overruns
}

/// The findings on the life of a core; the only error is out of memory.
pub(crate) fn findings(alloc: Global, core: &SerialCore) -> Result<Replayed, AllocError>
    ensures { IfOk result (λ r. AreFindings core.now.plan
        record { store = core.now.start; moment = core.now.before } core.now.log r.rows r.done r.faults r.overruns
        r.values.items) }
{
    let rows = core.rows();
    let values = Vec::from_slice(alloc, core.values())?;
    Ok(Replayed {
        rows: rows as u64,
        done: (core.len() - rows) as u64,
        faults: faults(core) as u64,
        overruns: overruns(core),
        values,
    })
}
