//! The run of a plan.

ghost use Rattle.std.specs.Prelude.{◌≡◌, ◌++◌, IfOk, OnOk, Some};
ghost use Rattle.durable_core.specs.Starting.{IsNew, start_in};
ghost use Rattle.source_run.specs.Runs.{IsReportOf};
ghost use Rattle.source_run.specs.Lives.{IsReport};
ghost use Rattle.st_meaning.specs.Logs.{IsLegal};
ghost use Rattle.plan.specs.PlanViews.{plan_view};
ghost use Rattle.source_run.specs.Progress.{BeginsAs, mode_of};
ghost use Rattle.run_lock.specs.Lives.{life_of};
ghost use Rattle.serial_core.specs.Steps.{past_in};
ghost use Rattle.source_run.specs.Settling.{IsSettled};

use crate::fault::Fault;
use crate::files::Files;
use crate::job::{Pace, RunJob, Start};
use crate::layouts::{changes_by, report_changes};
use crate::life::report_of;
use crate::plants::read_rows;
use crate::progress::Progress;
use crate::tracing::traced;
use disk::Disk;
use durable_core::{Core, StartFault, StartMode};
use plan::Plan;
use plc_threads::{Pace as RunPace, Report, RunError, run_plant};
use retain_store::StoreFault;
use st_types::Row;
use st_types::limits::MAX_LOG_ROOM;
use std::alloc::Global;
use std::sync::{Arc, Wait};
use std::thread::Threads;

/// The start that the words ask for.
pub(crate) fn mode(start: Start) -> StartMode
    ensures { result ≡ mode_of start }
{
    match start {
        Start::Warm => StartMode::Warm,
        Start::Cold => StartMode::Cold,
    }
}

/// A life over this disk, as it is asked for. The values that a warm start takes over from another layout are reported.
fn started<D: Disk + Drop, R: Eprint>(
    rt: &R,
    alloc: Global,
    plan: Arc<Plan>,
    asked: Start,
    disk: D,
) -> Result<Core<D>, (StartFault, D)>
    ensures new { IfOk result (λ core. IsNew core.state plan.value MAX_LOG_ROOM) }
    ensures begins { IfOk result (λ core. BeginsAs asked core.state) }
{
    let mut disk = disk;
    let changes = match changes_by(alloc, &plan, asked, &mut disk) {
        Ok(changes) => changes,
        Err(fault) => return Err((StartFault::Store(fault), disk)),
    };
    let core = Core::start(alloc, plan, disk, mode(asked), MAX_LOG_ROOM)?;
    if let Some(changes) = changes {
        report_changes(rt, &changes);
    }
    Ok(core)
}

/// A life over the retain file of a job; S3 if it can't be opened.
fn start<F: Files, R: Eprint>(
    rt: &R,
    alloc: Global,
    files: &mut F,
    plan: Arc<Plan>,
    job: &RunJob<'_>,
) -> Result<Core<F::Disk>, Fault>
    ensures new { IfOk result (λ core. IsNew core.state plan.value MAX_LOG_ROOM) }
    ensures begins { IfOk result (λ core. BeginsAs job.now.start core.state) }
{
    let Some(disk) = files.store(job.store) else {
        return Err(Fault::Start(StartFault::Store(StoreFault::Device)));
    };
    match started(rt, alloc, plan, job.start, disk) {
        Ok(core) => Ok(core),
        Err((fault, disk)) => {
            files.back(disk);
            Err(Fault::Start(fault))
        }
    }
}

fn run_pace(pace: Pace) -> RunPace {
    match pace {
        Pace::Settle => RunPace::Settle,
        Pace::Free => RunPace::Free,
    }
}

/// Runs the rows in threads, and gives the report. The progress is reported meanwhile.
fn served<D: Disk + Drop + Send, R: Threads + Wait + Eprint + Sync>(
    rt: &R,
    alloc: Global,
    core: Core<D>,
    pace: Pace,
    rows: Vec<Row>,
    progress: &Progress<'_, R>,
) -> (Core<D>, Result<Vec<u8>, Fault>)
    ensures settled { OnOk result.1 (IsSettled result.0 core.state.plan.resources) }
    ensures life { OnOk result.1 (life_of result.0.state ≡ life_of core.state) }
    ensures latched { OnOk result.1 ((past_in result.0.state).rows ≡ (past_in core.state).rows ++ rows.items) }
    ensures report { IfOk result.1 (λ text. IsReport result.0.state.plan (start_in result.0.state) result.0.state.log
        (Some result.0.acked) text.items) }
    ensures legal { IfOk result.1 (λ _.
        IsLegal (plan_view result.0.state.plan) result.0.state.start result.0.state.before result.0.state.log) }
{
    match run_plant(rt, alloc, core, rows, run_pace(pace), progress) {
        Ok(Report { core, told: _ }) => match report_of(alloc, &core) {
            Ok(report) => (core, Ok(report)),
            Err(_) => (core, Err(Fault::NO_MEMORY)),
        },
        Err(RunError { core, fault }) => (core, Err(Fault::Run(fault))),
    }
}

/// Reads the plant, opens the store and starts, then runs in threads, then writes the trace if one is asked for, and gives
/// the report; the first fault ends the job.
pub fn run_plan<F: Files, R: Threads + Wait + Eprint + Sync>(
    rt: &R,
    alloc: Global,
    files: &mut F,
    plan: Plan,
    job: &RunJob<'_>,
) -> Result<Vec<u8>, Fault>
    // The report is that of a legal life of the plan, begun as it was asked for, in which the rows of a plant are
    // latched, nothing waits and all is acknowledged.
    ensures report { IfOk result (λ text. IsReportOf F.Disk plan job.now.start text.items) }
{
    let rows = read_rows(alloc, files, job.plant, &plan)?;
    let Ok(plan) = Arc::new(alloc, plan) else {
        return Err(Fault::Start(StartFault::NoMemory));
    };
    let core = start(rt, alloc, files, plan, job)?;
    let progress = Progress::new(rt, rows.len(), job.machine, files.is_terminal());
    let (core, report) = served(rt, alloc, core, job.pace, rows, &progress);
    progress.clear();
    if job.stats {
        progress.report_machines();
    }
    let report = traced(alloc, files, job, &core, report);
    files.back(core.stop());
    report
}
