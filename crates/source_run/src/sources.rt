//! Sources.

ghost use Rattle.std.specs.Prelude.{◌≡◌, List, ℕ, IfOk, IfErr};
ghost use Rattle.source_run.specs.Sources.{IsPlanIn, IsUnread, RefusesSource};

use crate::fault::Fault;
use crate::files::Files;
use config::{BuildError, build};
use plan::Plan;
use st_types::limits::MAX_SOURCE_BYTES;
use std::alloc::Global;
use std::io;
use std::io::Read;

/// Why a source can't be read: G9 out of memory, else X1.
fn unread_source(error: &io::Error) -> Fault
    ensures { IsUnread result }
{
    if error.kind() == io::ErrorKind::OutOfMemory {
        return Fault::Build(BuildError::Memory);
    }
    Fault::Source
}

/// The bytes of a source, as far as its limit and one more; X1 if it can't be read, G9 out of memory.
pub fn read_source<F: Files>(alloc: Global, files: &mut F, name: &str) -> Result<Vec<u8>, Fault>
    ensures { IfErr result IsUnread }
{
    let reader = match files.read(name) {
        Ok(reader) => reader,
        Err(error) => return Err(unread_source(&error)),
    };
    let mut text = Vec::new(alloc);
    match reader
        .take(MAX_SOURCE_BYTES as u64 + 1)
        .read_to_end(&mut text)
    {
        Ok(_) => Ok(text),
        Err(error) => Err(unread_source(&error)),
    }
}

/// The plan of a source for a budget in ticks; X1 if it can't be read, else its numbered refusal: L, P, C, G or M.
pub fn plan_of<F: Files>(
    alloc: Global,
    files: &mut F,
    name: &str,
    budget: u32,
) -> Result<Plan, Fault>
    ensures plan { IfOk result (λ plan. (text : List ℕ) × IsPlanIn text budget plan) }
    ensures refused { IfErr result (λ fault. RefusesSource budget fault) }
{
    let text = read_source(alloc, files, name)?;
    match build(alloc, &text, budget) {
        Ok(plan) => Ok(plan),
        Err(refusal) => Err(Fault::Build(refusal)),
    }
}
