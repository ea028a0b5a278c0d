//! The text after the line of a fault, for a person.

use crate::broken_rules::write_broken_rules;
use crate::source_faults::source_fault;
use diagnostics::{SourceFault, WholeFault, write_reason};
use source_run::{Fault, Files, Job, ShowJob, View, code_of, read_source, title};
use std::alloc::Global;
use std::io::Write;

/// Whether the faults of a job are explained.
fn is_explained(job: &Job<'_>) -> bool {
    match job {
        Job::Check(job) => job.explain,
        Job::Run(job) => job.explain,
        Job::Live(job) => job.explain,
        Job::Replay(job) => job.explain,
        Job::Show(_) => true,
        _ => false,
    }
}

/// The source of a job.
fn source_of<'a>(job: &Job<'a>) -> Option<&'a str> {
    match job {
        Job::Check(job) => Some(job.source),
        Job::Run(job) => Some(job.source),
        Job::Live(job) => Some(job.source),
        Job::Replay(job) => Some(job.source),
        Job::Show(
            ShowJob {
                view: View::Against(source),
                ..
            },
        ) => Some(source),
        _ => None,
    }
}

/// Why a source is refused, if it is.
fn refused(fault: Fault) -> Option<SourceFault> {
    match fault {
        Fault::Source => Some(SourceFault::Whole(WholeFault::Unread)),
        Fault::Build(error) => Some(source_fault(error)),
        _ => None,
    }
}

/// Writes the meaning of the code of a fault.
fn write_meaning<E: Write>(fault: Fault, err: &mut E) {
    let code = code_of(fault).text();
    if let Some(title) = title(code) {
        let _ = writeln!(err, "{code}: {title}");
        let _ = writeln!(err, " = help: `plant explain {code}` says more");
    }
}

/// The source that is looked into, or an empty one if it can't be read.
fn text_of<F: Files>(
    alloc: Global,
    files: &mut F,
    name: &str,
    fault: Fault,
) -> Result<Vec<u8>, Fault> {
    match fault {
        Fault::Source => Ok(Vec::new(alloc)),
        _ => read_source(alloc, files, name),
    }
}

/// Writes the error in the source of a job, and its place; of a text that is checked, each rule that it breaks. Returns whether
/// that is done.
fn write_place<F: Files, E: Write>(
    alloc: Global,
    files: &mut F,
    job: &Job<'_>,
    fault: Fault,
    err: &mut E,
) -> bool {
    let (Some(name), Some(refused)) = (source_of(job), refused(fault)) else {
        return false;
    };
    let Ok(text) = text_of(alloc, files, name, fault) else {
        return false;
    };
    if let (Job::Check(_), SourceFault::Rule(_)) = (job, refused) {
        return matches!(write_broken_rules(alloc, err, name, &text), Ok(true));
    }
    write_reason(alloc, err, name, &text, code_of(fault).text(), refused).is_ok()
}

/// Shows the meaning of a fault if the job asks for it: a refused source with the line at the place, all else by the meaning
/// of its code. Anything that can't be written, or for which memory runs out, is left out.
pub(crate) fn explain<F: Files, E: Write>(
    alloc: Global,
    files: &mut F,
    job: &Job<'_>,
    fault: Fault,
    err: &mut E,
) {
    if is_explained(job) && !write_place(alloc, files, job, fault, err) {
        write_meaning(fault, err);
    }
}
