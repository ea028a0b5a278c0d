//! Traces that are run again.

ghost use Rattle.std.specs.Prelude.{◌≡◌, ◌⊎◌, List, ℕ, IsNone, IsSome, IfOk, IfErr, map};
ghost use Rattle.std.specs.Vec.{vec_items};
ghost use Rattle.st_types.specs.Rows.{Latch};
ghost use Rattle.image.specs.Plants.{AreRowsOf};
ghost use Rattle.source_run.specs.Reports.{report_text};
ghost use Rattle.source_run.specs.declared.job.Job.{Job};
ghost use Rattle.plant_main.specs.Jobs.{EndsWell, IsNoTrace, IsReplayOf, IsReportOfTrace, IsTraceFault, RefusesTrace};
ghost use Rattle.source_run.specs.Lives.{counts_of};

use crate::ending::Declined;
use crate::reporting::End;
use crate::segments::{is_segment, replay_segments};
use commit_lock::{ReplayError, Replayed, replay_text, trace_budget};
use plan::Plan;
use source_run::{Counts, Fault, Files, ReplayJob, plan_of, read_rows, report_with};
use st_types::Row;
use std::alloc::{AllocError, Global};
use std::io;
use std::io::Read;
use std::sync::Arc;

/// Why a trace can't be read: V5 out of memory, else V6.
fn unread_trace(error: &io::Error) -> ReplayError
    ensures { (result ≡ ReplayError.NoMemory) ⊎ (result ≡ ReplayError.Device) }
{
    if error.kind() == io::ErrorKind::OutOfMemory {
        return ReplayError::NoMemory;
    }
    ReplayError::Device
}

/// More bytes than any trace has: 65,536 entries have lines of at most 144 bytes. A segment has 1 MiB and what a row adds, and a
/// head with at most 4,096 paths.
const MAX_TRACE_BYTES: u64 = 32 * 1024 * 1024;

/// The bytes of a trace, as far as a trace may have them.
pub(crate) fn read_trace<F: Files>(
    alloc: Global,
    files: &mut F,
    name: &str,
) -> Result<Vec<u8>, ReplayError>
    ensures { IfErr result (λ error. (error ≡ ReplayError.NoMemory) ⊎ (error ≡ ReplayError.Device)) }
{
    let reader = match files.read(name) {
        Ok(reader) => reader,
        Err(error) => return Err(unread_trace(&error)),
    };
    let mut trace = Vec::new(alloc);
    match reader.take(MAX_TRACE_BYTES).read_to_end(&mut trace) {
        Ok(_) => Ok(trace),
        Err(error) => Err(unread_trace(&error)),
    }
}

/// The report of a life that was run again; the only fault is out of memory.
fn report_of(alloc: Global, plan: &Plan, found: &Replayed) -> Result<Vec<u8>, Fault>
    ensures told { IfOk result (λ text.
        text.items ≡ report_text (counts_of found.now) (map vec_items plan.now.enumerations.items)
        plan.now.variables.items found.now.values.items) }
    ensures memory { IfErr result (λ fault. IsTraceFault fault → ⊥) }
{
    let counts = Counts {
        rows: found.rows,
        done: found.done,
        faults: found.faults,
        overruns: found.overruns,
        acked: None,
    };
    match report_with(
        alloc,
        &counts,
        &plan.enumerations,
        &plan.variables,
        &found.values,
    ) {
        Ok(report) => Ok(report),
        Err(_) => Err(Fault::NO_MEMORY),
    }
}

/// Runs the trace again by one thread over these rows, and gives the report.
fn run_again(alloc: Global, plan: &Arc<Plan>, rows: &[Row], trace: &[u8]) -> Result<Vec<u8>, Fault>
    ensures report { IfOk result (λ text. IsReportOfTrace plan.now.value rows.now trace.now text.items) }
    ensures refused { IfErr result (λ fault. IsTraceFault fault → IsNoTrace plan.now.value rows.now trace.now) }
{
    let Ok(shared) = Arc::clone(plan) else {
        return Err(Fault::Trace(ReplayError::NoMemory));
    };
    match replay_text(alloc, shared, rows, trace) {
        Ok(found) => report_of(alloc, plan, &found),
        Err(error) => Err(Fault::Trace(error)),
    }
}

/// Reads the plant, then runs the trace again over its rows, and gives the report.
fn replay_plan<F: Files>(
    alloc: Global,
    files: &mut F,
    plan: Plan,
    plant: &str,
    trace: &[u8],
) -> Result<Vec<u8>, Fault>
    ensures report { IfOk result (λ text. IsReplayOf plan trace.now text.items) }
    ensures refused { IfErr result (λ fault. IsTraceFault fault
        → (rows : List Latch) × AreRowsOf plan.inputs.items rows × IsNoTrace plan rows trace.now) }
{
    let rows = match read_rows(alloc, files, plant, &plan) {
        Ok(rows) => rows,
        Err(fault) => return Err(fault),
    };
    match Arc::new(alloc, plan) {
        Ok(plan) => run_again(alloc, &plan, &rows, trace),
        Err(_) => Err(Fault::Trace(ReplayError::NoMemory)),
    }
}

/// Builds the source for the budget in the trace, then reads the plant and runs the trace again.
fn replay_trace<F: Files>(
    alloc: Global,
    files: &mut F,
    job: &ReplayJob<'_>,
    trace: &[u8],
) -> Result<End, Fault>
    ensures report { IfOk result (λ end. EndsWell F.Disk (Job.Replay job.now) end) }
    ensures refused { IfErr result (λ fault. RefusesTrace trace.now fault) }
{
    let Some(plant) = job.plant else {
        return Ok(End::Declined(Declined::NoPlant));
    };
    let budget = match trace_budget(trace) {
        Ok(budget) => budget,
        Err(error) => return Err(Fault::Trace(error)),
    };
    match plan_of(alloc, files, job.source, budget) {
        Ok(plan) => match replay_plan(alloc, files, plan, plant, trace) {
            Ok(report) => Ok(End::Report(report)),
            Err(fault) => Err(fault),
        },
        Err(fault) => Err(fault),
    }
}

/// Runs a segment and those of these names again, in a row.
fn replay_names<F: Files>(
    alloc: Global,
    files: &mut F,
    job: &ReplayJob<'_>,
    first: Vec<u8>,
    others: &[String],
) -> Result<End, Fault>
    ensures report { IfOk result (λ end. EndsWell F.Disk (Job.Replay job.now) end) }
    ensures refused { IfErr result (λ _. IsNone job.now.plant) }
{
    match job.plant {
        Some(_) => Ok(End::Declined(Declined::NeedlessPlant)),
        None => match replay_segments(alloc, files, job.source, first, others) {
            Ok(report) => Ok(End::Report(report)),
            Err(fault) => Err(fault),
        },
    }
}

/// The contents of what is given as a trace.
#[derive(Drop)]
pub(crate) enum Given {
    /// The trace of a run.
    Trace(Vec<u8>),
    /// A segment, and the names of the files of the next ones.
    Segments(Vec<u8>, Vec<String>),
}

/// Reads what is given as a trace: the first segment of a folder, a segment, or the trace of a run. V5 out of memory, V6 if it
/// can't be read or the folder has none.
pub(crate) fn read_given<F: Files>(
    alloc: Global,
    files: &mut F,
    name: &str,
) -> Result<Given, ReplayError>
    ensures { IfErr result (λ error. (error ≡ ReplayError.NoMemory) ⊎ (error ≡ ReplayError.Device)) }
{
    let mut names = match files.traces(alloc, name) {
        Ok(Some(names)) => names,
        Ok(None) => return read_file(alloc, files, name),
        Err(error) => return Err(unread_trace(&error)),
    };
    if names.is_empty() {
        return Err(ReplayError::Device);
    }
    let first = names.remove(0);
    match read_trace(alloc, files, &first) {
        Ok(text) => Ok(Given::Segments(text, names)),
        Err(error) => Err(error),
    }
}

/// Reads a segment, or the trace of a run.
fn read_file<F: Files>(alloc: Global, files: &mut F, name: &str) -> Result<Given, ReplayError>
    ensures { IfErr result (λ error. (error ≡ ReplayError.NoMemory) ⊎ (error ≡ ReplayError.Device)) }
{
    match read_trace(alloc, files, name) {
        Ok(text) if is_segment(&text) => Ok(Given::Segments(text, Vec::new(alloc))),
        Ok(text) => Ok(Given::Trace(text)),
        Err(error) => Err(error),
    }
}

/// Reads the trace and its budget, then reads and builds the source, then reads the plant, then runs the trace again;
/// the first fault ends it.
pub(crate) fn replay<F: Files>(
    alloc: Global,
    files: &mut F,
    job: &ReplayJob<'_>,
) -> Result<End, Fault>
    ensures report { IfOk result (λ end. EndsWell F.Disk (Job.Replay job.now) end) }
    ensures refused { IfErr result (λ fault. IsSome job.now.plant → (trace : List ℕ) × RefusesTrace trace fault) }
{
    match read_given(alloc, files, job.trace) {
        Ok(Given::Segments(first, others)) => replay_names(alloc, files, job, first, &others),
        Ok(Given::Trace(trace)) => replay_trace(alloc, files, job, &trace),
        Err(error) => Err(Fault::Trace(error)),
    }
}
