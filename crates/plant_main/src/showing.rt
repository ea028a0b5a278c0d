//! The contents of retain files.

ghost use Rattle.std.specs.Prelude.{◌≡◌, IfOk};
ghost use Rattle.plant_main.specs.Jobs.{IsSeen, IsShowing, IsSightOf, file_shown};

use durable_core::StartFault;
use plan::Plan;
use retain_show::{shown, shown_against, shown_areas};
use retain_store::{FILE_BYTES, StoreFault};
use source_run::{DEFAULT_BUDGET, Fault, Files, ShowJob, View, plan_of};
use std::alloc::Global;
use std::io;
use std::io::Read;

/// Why a retain file can't be read: S5 out of memory, else S3.
fn unread_store(error: &io::Error) -> StoreFault {
    if error.kind() == io::ErrorKind::OutOfMemory {
        return StoreFault::NoMemory;
    }
    StoreFault::Device
}

/// The bytes of a retain file, as far as its length and one more.
fn read_store<F: Files>(alloc: Global, files: &mut F, name: &str) -> Result<Vec<u8>, StoreFault> {
    let reader = match files.read(name) {
        Ok(reader) => reader,
        Err(error) => return Err(unread_store(&error)),
    };
    let mut file = Vec::new(alloc);
    match reader.take(FILE_BYTES as u64 + 1).read_to_end(&mut file) {
        Ok(_) => Ok(file),
        Err(error) => Err(unread_store(&error)),
    }
}

/// The part of a retain file that a view asks for, with the plan of its source.
#[derive(Drop)]
pub(crate) enum Sight {
    /// The last record.
    Last,
    /// Both areas.
    Both,
    /// The result of a warm start of this plan from it.
    Against(Plan),
}

/// Reads and builds the source of a look, if it has one.
fn sight_of<F: Files>(alloc: Global, files: &mut F, job: &ShowJob<'_>) -> Result<Sight, Fault>
    ensures { IfOk result (λ sight. IsSightOf job.now.view sight) }
{
    match job.view {
        View::Last => Ok(Sight::Last),
        View::Both => Ok(Sight::Both),
        View::Against(source) => {
            let plan = plan_of(alloc, files, source, DEFAULT_BUDGET)?;
            Ok(Sight::Against(plan))
        }
    }
}

/// The text about the bytes of a retain file.
fn showing(alloc: Global, file: Vec<u8>, sight: &Sight) -> Result<Vec<u8>, StoreFault>
    ensures { IfOk result (λ text. text.items ≡ file_shown sight.now file.items) }
{
    match sight {
        Sight::Last => shown(alloc, file),
        Sight::Both => shown_areas(alloc, &file),
        Sight::Against(plan) => shown_against(alloc, plan, file),
    }
}

/// The text about a retain file.
fn shown_file<F: Files>(
    alloc: Global,
    files: &mut F,
    store: &str,
    sight: &Sight,
) -> Result<Vec<u8>, StoreFault>
    ensures { IfOk result (λ text. IsSeen sight.now text.items) }
{
    let file = read_store(alloc, files, store)?;
    showing(alloc, file, sight)
}

/// The contents of a retain file, or the result of a warm start of a source from it, as a text; S1 to S3 and S5, and the
/// faults of a source. It reads the source first, and opens the files to read them alone.
pub(crate) fn show<F: Files>(
    alloc: Global,
    files: &mut F,
    job: &ShowJob<'_>,
) -> Result<Vec<u8>, Fault>
    ensures { IfOk result (λ text. IsShowing job.now.view text.items) }
{
    let sight = sight_of(alloc, files, job)?;
    match shown_file(alloc, files, job.store, &sight) {
        Ok(text) => Ok(text),
        Err(fault) => Err(Fault::Start(StartFault::Store(fault))),
    }
}
