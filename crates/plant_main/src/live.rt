//! The run against rows that come on the standard input.

ghost use Rattle.plant_main.specs.LiveJobs.{LivesSo};

use crate::ending::Declined;
use crate::reporting::End;
use source_run::{Fault, Files, LiveJob, Lived, live_plan, plan_of};
use std::alloc::Global;
use std::io::{Read, Write};
use std::sync::Wait;
use std::thread::Threads;
use std::time::Clock;

/// The standard streams as files.
const STREAMS: [&str; 3] = ["/dev/stdin", "/dev/stdout", "/dev/stderr"];

/// Whether the retain file is the source or a standard stream, as far as the system knows.
fn shares_store<F: Files>(files: &mut F, job: &LiveJob<'_>) -> bool {
    if files.is_one_file(job.store, job.source) {
        return true;
    }
    for stream in STREAMS {
        if files.is_one_file(job.store, stream) {
            return true;
        }
    }
    false
}

/// Reads and builds the source, reads the header, opens the store and starts, then serves each row until the input ends. The
/// answers go to the output.
pub(crate) fn live<
    F: Files,
    I: Read + Drop + Send + 'static,
    O: Write,
    R: Threads + Wait + Eprint + Clock + Copy + Send + 'static,
>(
    rt: &R,
    alloc: Global,
    files: &mut F,
    job: &LiveJob<'_>,
    input: I,
    out: &mut O,
) -> Result<End, Fault>
    ensures { LivesSo F.Disk.tells F.Disk.left_since F.Disk.may_leave job.now (I.remaining input) result
        (O.contents out.old) (O.contents out.new) }
{
    if shares_store(files, job) {
        return Ok(End::Declined(Declined::SharedStore));
    }
    if let Some(folder) = job.trace {
        if folder.is_empty() || !files.make_folder(folder) {
            return Ok(End::Declined(Declined::NoFolder));
        }
    }
    let plan = plan_of(alloc, files, job.source, job.budget)?;
    match live_plan(rt, alloc, files, plan, job, input, out) {
        Ok(Lived::Report(report)) => Ok(End::Lived(report)),
        Ok(Lived::OutputFailed) => Ok(End::OutputFailed),
        Err(fault) => Err(fault),
    }
}
