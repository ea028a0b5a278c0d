//! Pictures of runs.

ghost use Rattle.std.specs.Prelude.{◌≡◌, IfOk, IfNone};
ghost use Rattle.source_run.specs.declared.job.Job.{Job};
ghost use Rattle.plant_main.specs.Jobs.{EndsWell, IsDrawn, NamesNone, PlotsWell};

use crate::ending::Declined;
use crate::replaying::{Given, read_given};
use crate::reporting::End;
use crate::segments::Segments;
use commit_lock::{ReplayError, trace_budget};
use plan::Plan;
use plots::{Plot, SegmentNotes, Shown, find, first_variables, gather, write_plot};
use source_run::{Fault, Files, PlotJob, plan_of, put_text, read_rows};
use st_types::Row;
use std::alloc::{AllocError, Global};
use std::sync::Arc;

/// Whether the file for the picture is the source, the plant or the trace, as far as the system knows.
fn shares_picture<F: Files>(files: &mut F, job: &PlotJob<'_>) -> bool {
    match job.picture {
        Some(picture) => {
            files.is_one_file(picture, job.source)
                || files.is_one_file(picture, job.trace)
                || match job.plant {
                    Some(plant) => files.is_one_file(picture, plant),
                    None => false,
                }
        }
        None => false,
    }
}

/// Whether the file for the picture is a segment of the folder that is drawn, as far as the system knows.
fn shares_segment<F: Files>(alloc: Global, files: &mut F, job: &PlotJob<'_>) -> bool {
    let (Some(picture), Ok(Some(names))) = (job.picture, files.traces(alloc, job.trace)) else {
        return false;
    };
    for name in &names {
        if files.is_one_file(picture, name) {
            return true;
        }
    }
    false
}

/// The variables that are shown: those of the paths, or the first ones if there are no paths; none if a path names none.
fn shown(alloc: Global, plan: &Plan, paths: &[&str]) -> Result<Option<Vec<Shown>>, AllocError>
    ensures { IfOk result (λ shown. IfNone shown (NamesNone plan.now paths.now)) }
{
    if paths.is_empty() {
        return Ok(Some(first_variables(alloc, plan)?));
    }
    let mut shown = Vec::new(alloc);
    for path in paths {
        match find(alloc, plan, path.as_bytes())? {
            Some(variable) => {
                shown.push(variable)?;
            }
            None => return Ok(None),
        }
    }
    Ok(Some(shown))
}

/// The picture as a text.
fn picture_of(alloc: Global, plan: &Plan, plot: &Plot, title: &str) -> Result<Vec<u8>, Fault> {
    let mut picture = Vec::new(alloc);
    match write_plot(alloc, plan, plot, title, &mut picture) {
        Ok(()) => Ok(picture),
        Err(_) => Err(Fault::NO_MEMORY),
    }
}

/// Writes the picture into its file, or gives it for the standard output. The file is made when the picture is there, so if
/// memory runs out before, it stays as it was.
fn draw<F: Files>(
    alloc: Global,
    files: &mut F,
    plan: &Plan,
    plot: &Plot,
    job: &PlotJob<'_>,
) -> Result<End, Fault>
    ensures { IfOk result IsDrawn }
{
    let picture = picture_of(alloc, plan, plot, job.source)?;
    let Some(name) = job.picture else {
        return Ok(End::Report(picture));
    };
    let Some(mut file) = files.create(name) else {
        return Ok(End::Declined(Declined::NoPicture));
    };
    match put_text(&mut file, &picture) {
        Ok(()) => Ok(End::Report(Vec::new(alloc))),
        Err(_) => Ok(End::Declined(Declined::NoPicture)),
    }
}

/// Runs the trace of a plan again over these rows, and draws it.
fn plot_rows<F: Files>(
    alloc: Global,
    files: &mut F,
    plan: Plan,
    rows: &[Row],
    trace: &[u8],
    job: &PlotJob<'_>,
) -> Result<End, Fault>
    ensures { IfOk result (PlotsWell plan rows.now trace.now job.now.paths.items) }
{
    let Some(shown) = shown(alloc, &plan, &job.paths)? else {
        return Ok(End::Declined(Declined::NoVariable));
    };
    let Ok(plan) = Arc::new(alloc, plan) else {
        return Err(Fault::Trace(ReplayError::NoMemory));
    };
    let plot = gather(alloc, Arc::clone(&plan)?, rows, trace, &shown).map_err(Fault::Trace)?;
    draw(alloc, files, &plan, &plot, job)
}

/// Builds the source for the budget in the trace, then reads the plant, runs the trace again and draws it.
fn plot_trace<F: Files>(
    alloc: Global,
    files: &mut F,
    trace: &[u8],
    job: &PlotJob<'_>,
) -> Result<End, Fault>
    ensures { IfOk result (λ end. EndsWell F.Disk (Job.Plot job.now) end) }
{
    let Some(plant) = job.plant else {
        return Ok(End::Declined(Declined::NoPlant));
    };
    let budget = match trace_budget(trace) {
        Ok(budget) => budget,
        Err(error) => return Err(Fault::Trace(error)),
    };
    let plan = plan_of(alloc, files, job.source, budget)?;
    let rows = read_rows(alloc, files, plant, &plan)?;
    plot_rows(alloc, files, plan, &rows, trace, job)
}

/// Runs segments again in a row, and draws them.
fn plot_segments<F: Files>(
    alloc: Global,
    files: &mut F,
    first: Vec<u8>,
    others: &[String],
    job: &PlotJob<'_>,
) -> Result<End, Fault>
    ensures { IfOk result (λ end. EndsWell F.Disk (Job.Plot job.now) end) }
{
    if job.plant.is_some() {
        return Ok(End::Declined(Declined::NeedlessPlant));
    }
    let segments = Segments::new(alloc, files, job.source, first, others)?;
    let Some(shown) = shown(alloc, &segments.plan, &job.paths)? else {
        return Ok(End::Declined(Declined::NoVariable));
    };
    let mut notes = SegmentNotes::new(alloc, &segments.plan, &shown)?;
    let again = match segments.run_again(alloc, files, &mut notes) {
        Ok(again) => again,
        Err(error) => return Err(Fault::Trace(error)),
    };
    let plot = notes.plot(again.findings(alloc)?);
    draw(alloc, files, &segments.plan, &plot, job)
}

/// Reads the trace and its budget, then reads and builds the source, then reads the plant, then runs the trace again and
/// draws it; the first fault ends it.
pub(crate) fn plot<F: Files>(alloc: Global, files: &mut F, job: &PlotJob<'_>) -> Result<End, Fault>
    ensures { IfOk result (λ end. EndsWell F.Disk (Job.Plot job.now) end) }
{
    if shares_picture(files, job) || shares_segment(alloc, files, job) {
        return Ok(End::Declined(Declined::SharedPicture));
    }
    match read_given(alloc, files, job.trace) {
        Ok(Given::Trace(trace)) => plot_trace(alloc, files, &trace, job),
        Ok(Given::Segments(first, others)) => plot_segments(alloc, files, first, &others, job),
        Err(error) => Err(Fault::Trace(error)),
    }
}
