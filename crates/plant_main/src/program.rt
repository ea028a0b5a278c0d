//! The program, from its words to how it ends.

ghost use Rattle.std.specs.Prelude.{◌≡◌, IfOk};
ghost use Rattle.source_run.specs.declared.job.Job.{Job};
ghost use Rattle.plant_main.specs.Endings.{Does, Performs, ProgramEnds};
ghost use Rattle.plant_main.specs.Jobs.{EndsWell};

use crate::ending::{Declined, Ending};
use crate::explaining::explain;
use crate::first_run::first;
use crate::live::live;
use crate::meaning::meaning;
use crate::plotting::plot;
use crate::reading::{is_out_of_memory, read_words};
use crate::replaying::replay;
use crate::reporting::{End, report_end, report_words};
use crate::showing::show;
use crate::sizes::sizes_of;
use source_run::{CheckJob, DEFAULT_BUDGET, Fault, Files, Job, RunJob, plan_of, run_plan};
use std::alloc::Global;
use std::io::{Read, Write};
use std::sync::Wait;
use std::thread::Threads;
use std::time::Clock;

/// Reads and builds the source, and gives its sizes.
fn check<F: Files>(alloc: Global, files: &mut F, job: &CheckJob<'_>) -> Result<End, Fault>
    ensures { IfOk result (λ end. EndsWell F.Disk (Job.Check job.now) end) }
{
    let plan = plan_of(alloc, files, job.source, DEFAULT_BUDGET)?;
    Ok(End::Report(sizes_of(alloc, &plan)?))
}

/// Whether the retain file is the source, the plant or the trace, as far as the system knows.
fn shares_store<F: Files>(files: &mut F, job: &RunJob<'_>) -> bool {
    if let Some(trace) = job.trace {
        if files.is_one_file(job.store, trace) {
            return true;
        }
    }
    files.is_one_file(job.store, job.source) || files.is_one_file(job.store, job.plant)
}

/// Reads and builds the source, then reads the plant, then opens the store and starts, then runs, then writes the trace.
fn run<F: Files, R: Threads + Wait + Eprint + Sync>(
    rt: &R,
    alloc: Global,
    files: &mut F,
    job: &RunJob<'_>,
) -> Result<End, Fault>
    ensures { IfOk result (λ end. EndsWell F.Disk (Job.Run job.now) end) }
{
    if shares_store(files, job) {
        return Ok(End::Declined(Declined::SharedStore));
    }
    let plan = plan_of(alloc, files, job.source, job.budget)?;
    Ok(End::Report(run_plan(rt, alloc, files, plan, job)?))
}

/// How the job ends.
fn done<
    F: Files,
    I: Read + Drop + Send + 'static,
    O: Write,
    R: Threads + Wait + Eprint + Clock + Copy + Send + Sync + 'static,
>(rt: &R, alloc: Global, files: &mut F, job: &Job<'_>, input: I, out: &mut O) -> Result<End, Fault>
    ensures { Does O.contents F.Disk.tells F.Disk.left_since F.Disk.may_leave (I.remaining input) job.now result out.old out.new }
{
    match job {
        Job::First => Ok(End::Report(first(rt, alloc)?)),
        Job::Check(job) => check(alloc, files, job),
        Job::Run(job) => run(rt, alloc, files, job),
        Job::Live(job) => live(rt, alloc, files, job, input, out),
        Job::Replay(job) => replay(alloc, files, job),
        Job::Show(job) => Ok(End::Report(show(alloc, files, job)?)),
        Job::Plot(job) => plot(alloc, files, job),
        Job::Explain { code } => match meaning(alloc, code)? {
            Some(text) => Ok(End::Report(text)),
            None => Ok(End::Declined(Declined::NoCode)),
        },
    }
}

/// Does a job. A fault is one line `fault CODE` or `fault CODE at PLACE` on the standard error, followed by a view for a
/// person if the job asks for one; and nothing is on the standard output then, but for the answers of a live job.
pub fn perform<
    F: Files,
    I: Read + Drop + Send + 'static,
    O: Write,
    E: Write,
    R: Threads + Wait + Eprint + Clock + Copy + Send + Sync + 'static,
>(rt: &R, alloc: Global, job: &Job<'_>, files: &mut F, input: I, out: &mut O, err: &mut E) -> Ending
    ensures { Performs O.contents F.Disk.tells F.Disk.left_since F.Disk.may_leave (I.remaining input) job.now result out.old out.new }
{
    let end = done(rt, alloc, files, job, input, out);
    let ending = report_end(end, out, err);
    if let Ending::Fault(fault) = ending {
        explain(alloc, files, job, fault, err);
    }
    ending
}

/// Does what the words ask, the program's name first.
pub fn plant<
    F: Files,
    I: Read + Drop + Send + 'static,
    O: Write,
    E: Write,
    R: Threads + Wait + Eprint + Clock + Copy + Send + Sync + 'static,
>(
    rt: &R,
    alloc: Global,
    words: &[&str],
    files: &mut F,
    input: I,
    out: &mut O,
    err: &mut E,
) -> Ending
    ensures { ProgramEnds O.contents F.Disk.tells F.Disk.left_since F.Disk.may_leave (I.remaining input) result out.old out.new }
{
    match read_words(alloc, words) {
        Ok(job) => perform(rt, alloc, &job, files, input, out, err),
        Err(refused) if is_out_of_memory(&refused) => report_end(Err(Fault::NO_MEMORY), out, err),
        Err(refused) => report_words(&refused, out, err),
    }
}
