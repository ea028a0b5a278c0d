//! The trace of a run.

ghost use Rattle.std.specs.Prelude.{◌≡◌, IfOk, IfErr, Ok};
ghost use Rattle.trace.specs.Texts.{trace_of};

use crate::fault::Fault;
use crate::files::Files;
use crate::job::RunJob;
use crate::writing::put_text;
use commit_lock::{ReplayError, write_trace};
use disk::Disk;
use durable_core::Core;
use std::alloc::Global;

/// The trace of a core as a text; the only error is out of memory.
fn trace_text<D: Disk>(alloc: Global, core: &Core<D>) -> Result<Vec<u8>, ReplayError>
    ensures whole { IfOk result (λ text. text.items ≡ trace_of core.now) }
    ensures memory { IfErr result (λ error. error ≡ ReplayError.NoMemory) }
{
    let mut text = Vec::new(alloc);
    match write_trace(core, &mut text) {
        Ok(()) => Ok(text),
        Err(_) => Err(ReplayError::NoMemory),
    }
}

/// Writes the trace of a run into the file of this name, in place of its contents; V6 if the file can't be made, takes no
/// more, or is the retain file by another name, V5 out of memory. The file is made when the whole trace is there, so it
/// stays as it was if memory runs out.
fn save_trace<F: Files>(
    alloc: Global,
    files: &mut F,
    job: &RunJob<'_>,
    core: &Core<F::Disk>,
    trace: &str,
) -> Result<(), ReplayError> {
    if files.is_one_file(job.store, trace) {
        return Err(ReplayError::Device);
    }
    let text = trace_text(alloc, core)?;
    let Some(mut file) = files.create(trace) else {
        return Err(ReplayError::Device);
    };
    match put_text(&mut file, &text) {
        Ok(()) => Ok(()),
        Err(_) => Err(ReplayError::Device),
    }
}

/// The report of a run that ended well, once its trace is written if one is asked for.
pub(crate) fn traced<F: Files>(
    alloc: Global,
    files: &mut F,
    job: &RunJob<'_>,
    core: &Core<F::Disk>,
    report: Result<Vec<u8>, Fault>,
) -> Result<Vec<u8>, Fault>
    ensures { IfOk result (λ text. report ≡ Ok text) }
{
    let report = report?;
    if let Some(trace) = job.trace {
        save_trace(alloc, files, job, core, trace).map_err(Fault::Trace)?;
    }
    Ok(report)
}
