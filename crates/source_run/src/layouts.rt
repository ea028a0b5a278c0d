//! The values that a warm start takes over from a record of another layout.

ghost use Rattle.std.specs.Prelude.{◌≡◌, IfErr, IfOk, None, Ok};
ghost use Rattle.retain_store.specs.Recovered.{recovered};
ghost use Rattle.retain_show.specs.Against.{changes_against};
ghost use Rattle.retain_store.specs.Opening.{RefusesFor};

use crate::job::Start;
use disk::Disk;
use plan::Plan;
use retain_show::{Changes, changes_against};
use retain_store::{FILE_BYTES, StoreFault};
use std::alloc::Global;

/// The bytes of a retain file; S1 if it is too long, S3 if it can't be read, S5 out of memory.
fn bytes_of<D: Disk>(alloc: Global, disk: &mut D) -> Result<Vec<u8>, StoreFault>
    ensures bytes { D.tells → IfOk result (λ file. file.items ≡ D.seen disk.old) }
    ensures refused { D.tells → IfErr result (λ fault. RefusesFor fault (recovered (D.seen disk.old))) }
    ensures seen { D.tells → D.seen disk.new ≡ D.seen disk.old }
{
    let length = disk.len()?;
    if length > FILE_BYTES as u64 {
        return Err(StoreFault::TooLong);
    }
    let Ok(mut file) = vec![in alloc; 0u8; length as usize] else {
        return Err(StoreFault::NoMemory);
    };
    disk.read(0, &mut file)?;
    Ok(file)
}

/// How many variables a start of the plan carries over from a retain file and how many not; none if the start is cold, or
/// the file has no record of another layout text. The file stays as it is.
///
/// S1 if it is too long, S2 if it is damaged, S3 if it can't be read, S5 out of memory.
pub(crate) fn changes_by<D: Disk>(
    alloc: Global,
    plan: &Plan,
    start: Start,
    disk: &mut D,
) -> Result<Option<Changes>, StoreFault>
    ensures cold { start ≡ Start.Cold → result ≡ Ok None }
    ensures told { D.tells → start ≡ Start.Warm
        → IfOk result (λ found. found ≡ changes_against plan.now (recovered (D.seen disk.old))) }
    ensures refused { D.tells → IfErr result (λ fault. RefusesFor fault (recovered (D.seen disk.old))) }
    ensures seen { D.tells → D.seen disk.new ≡ D.seen disk.old }
{
    match start {
        Start::Cold => Ok(None),
        Start::Warm => {
            let file = bytes_of(alloc, disk)?;
            changes_against(alloc, plan, file)
        }
    }
}

/// Reports them in one line on the standard error.
pub(crate) fn report_changes<R: Eprint>(rt: &R, changes: &Changes) {
    let Changes {
        carried,
        new,
        retyped,
        dropped,
    } = *changes;
    let _ = eprintln!(rt;
        "the retain file has a different layout: {carried} carried, {new} new, {retyped} retyped, {dropped} dropped"
    );
}
