//! The report of a life.

ghost use Rattle.std.specs.Prelude.{◌≡◌, IfOk, Some, option_map, slice_get, unwrap_or, false, count_by};
ghost use Rattle.st_meaning.specs.Logs.{IsLegal, outcomes_of, row_count, done_count};
ghost use Rattle.plan.specs.PlanViews.{plan_view};
ghost use Rattle.trace.specs.Outcomes.{is_faulted};
ghost use Rattle.commit_lock.specs.Replays.{HasOverrunsInAll};
ghost use Rattle.source_run.specs.Lives.{IsReport};
ghost use Rattle.durable_core.specs.Starting.{start_in};

use crate::report::{Counts, report_with};
use disk::Disk;
use durable_core::Core;
use st_meaning::Outcome;
use std::alloc::{AllocError, Global};

/// Whether the execution of that entry ended with a fault.
fn is_faulted_at<D: Disk>(core: &Core<D>, number: usize) -> bool
    ensures { result ≡ unwrap_or (option_map is_faulted (slice_get
        (outcomes_of (plan_view core.now.state.plan) core.now.state.start core.now.state.log) number)) false }
{
    match core.outcome(number) {
        Some(Outcome::Faulted(_)) => true,
        Some(Outcome::Done) => false,
        None => false,
    }
}

/// How many executions of the log ended with a fault.
fn faults<D: Disk>(core: &Core<D>) -> usize
    ensures { result
        ≡ count_by is_faulted (outcomes_of (plan_view core.now.state.plan) core.now.state.start core.now.state.log) }
{
    let mut faults = 0;
    for number in 0..core.len() {
        if is_faulted_at(core, number) {
            faults += 1;
        }
    }
    faults
}

/// How often a program of the plan was due while it still waited, up to the greatest number of 64 bits.
fn overruns<D: Disk>(core: &Core<D>) -> u64
    ensures { HasOverrunsInAll core.now.state.plan (start_in core.now.state) core.now.state.log result }
{
    let mut overruns = 0u64;
    for program in 0..core.plan().programs() {
        overruns = overruns.saturating_add(core.overruns(program));
    }
    overruns
}

/// The counts of a life.
fn counts<D: Disk>(core: &Core<D>) -> Counts
    ensures rows { result.rows ≡ row_count core.now.state.log }
    ensures done { result.done ≡ done_count core.now.state.log }
    ensures faults { result.faults
        ≡ count_by is_faulted (outcomes_of (plan_view core.now.state.plan) core.now.state.start core.now.state.log) }
    ensures overruns { HasOverrunsInAll core.now.state.plan (start_in core.now.state) core.now.state.log
        result.overruns }
    ensures acked { result.acked ≡ Some core.now.acked }
    ensures legal { IsLegal (plan_view core.now.state.plan) core.now.state.start core.now.state.before
        core.now.state.log }
{
    let rows = core.rows();
    Counts {
        rows: rows as u64,
        done: (core.len() - rows) as u64,
        faults: faults(core) as u64,
        overruns: overruns(core),
        acked: Some(core.acked() as u64),
    }
}

/// The report of a life; the only error is out of memory.
pub fn report_of<D: Disk>(alloc: Global, core: &Core<D>) -> Result<Vec<u8>, AllocError>
    ensures report { IfOk result (λ text. IsReport core.now.state.plan (start_in core.now.state) core.now.state.log
        (Some core.now.acked) text.items) }
    ensures legal { IsLegal (plan_view core.now.state.plan) core.now.state.start core.now.state.before
        core.now.state.log }
{
    let counts = counts(core);
    let plan = core.plan();
    report_with(
        alloc,
        &counts,
        &plan.enumerations,
        &plan.variables,
        core.values(),
    )
}
