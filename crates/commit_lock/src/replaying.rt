//! Replay: a trace, run again by one thread.

ghost use Rattle.std.specs.Prelude.{◌≡◌, ◌≢◌, ◌⊎◌, IfOk, IfErr, IfSome, OnOk};
ghost use Rattle.st_meaning.specs.Restarts.{Start};
ghost use Rattle.st_meaning.specs.Logs.{Log};
ghost use Rattle.durable_core.specs.declared.starting.StartMode.{StartMode};
ghost use Rattle.trace.specs.Watching.{HasSeen};
ghost use Rattle.commit_lock.specs.Replays.{Accepts, AreFindings, IsTrace};
ghost use Rattle.commit_lock.specs.Starts.{lives_of};

use crate::findings::{Replayed, findings};
use crate::nobody::Nobody;
use crate::starting::start;
use plan::Plan;
use st_types::Row;
use std::alloc::Global;
use std::io;
use std::io::Read;
use std::sync::Arc;
use trace::{ReplayError, Watcher, replay_log};

/// Runs a trace again, line by line, over the first of these rows, and gives its findings. The watcher sees the core as the
/// life was begun, and then after each entry.
///
/// V2 if a row is not the plant's next one, or not later than the one before; V3 if an execution was not waiting; V4 if it
/// ends in another way; V1 if the text isn't a trace of the plan for another reason; V5 out of memory, the watcher's too.
pub fn replay_watched<W: Watcher>(
    alloc: Global,
    plan: Arc<Plan>,
    rows: &[Row],
    text: &[u8],
    watcher: &mut W,
) -> Result<Replayed, ReplayError>
    ensures told { IfOk result (λ r. (mode : StartMode) × (start : Start) × (log : Log)
        × IsTrace plan.value rows.now text.now mode start log
        × AreFindings plan.value start log r.rows r.done r.faults r.overruns r.values.items) }
    // The text is the trace of no other life: the findings apply to each life whose trace it is.
    ensures only { IfOk result (λ r. (mode : StartMode) (start : Start)
        (log : Log) → IsTrace plan.value rows.now text.now mode start log
        → AreFindings plan.value start log r.rows r.done r.faults r.overruns r.values.items) }
    // The watcher has seen the life as it was begun, and after each entry of its log.
    ensures watched { OnOk result ((mode : StartMode) × (start : Start) × (log : Log)
        × IsTrace plan.value rows.now text.now mode start log
        × HasSeen W.sees watcher.old (lives_of plan.value start log) watcher.new) }
    ensures refused { IfErr result (λ e. e ≢ ReplayError.NoMemory
        → (mode : StartMode) (start : Start) (log : Log) → IsTrace plan.value rows.now text.now mode start log → ⊥) }
{
    let started = match start(alloc, plan, text) {
        Ok(started) => started,
        Err(_) => return Err(ReplayError::NoMemory),
    };
    let (mut core, lines) = match started {
        Some((_, core, lines)) => (core, lines),
        None => return Err(ReplayError::Form),
    };
    match replay_log(alloc, &mut core, rows, lines, watcher) {
        Ok(()) => match findings(alloc, &core) {
            Ok(found) => Ok(found),
            Err(_) => Err(ReplayError::NoMemory),
        },
        Err(error) => Err(error),
    }
}

/// Runs a trace again, line by line, over the first of these rows, and gives its findings.
///
/// V2 if a row is not the plant's next one, or not later than the one before; V3 if an execution was not waiting; V4 if it
/// ends in another way; V1 if the text isn't a trace of the plan for another reason; V5 out of memory.
pub fn replay_text(
    alloc: Global,
    plan: Arc<Plan>,
    rows: &[Row],
    text: &[u8],
) -> Result<Replayed, ReplayError>
    ensures told { IfOk result (λ r. (mode : StartMode) × (start : Start) × (log : Log)
        × IsTrace plan.value rows.now text.now mode start log
        × AreFindings plan.value start log r.rows r.done r.faults r.overruns r.values.items) }
    // The text is the trace of no other life: the findings apply to each life whose trace it is.
    ensures only { IfOk result (λ r. (mode : StartMode) (start : Start)
        (log : Log) → IsTrace plan.value rows.now text.now mode start log
        → AreFindings plan.value start log r.rows r.done r.faults r.overruns r.values.items) }
    ensures refused { IfErr result (λ e. e ≢ ReplayError.NoMemory
        → (mode : StartMode) (start : Start) (log : Log) → IsTrace plan.value rows.now text.now mode start log → ⊥) }
    // Each life whose trace the text is gets accepted, unless memory runs out.
    ensures accepts { Accepts plan.value rows.now text.now (λ e. e ≡ ReplayError.NoMemory) result }
{
    replay_watched(alloc, plan, rows, text, &mut Nobody)
}

/// Why a trace can't be read: V5 out of memory, else V6.
fn unread(error: &io::Error) -> ReplayError
    ensures { (result ≡ ReplayError.NoMemory) ⊎ (result ≡ ReplayError.Device) }
{
    if error.kind() == io::ErrorKind::OutOfMemory {
        return ReplayError::NoMemory;
    }
    ReplayError::Device
}

/// Runs a trace from a reader again, as `replay_text` does; V6 if the reader fails.
pub fn replay<R: Read + Drop>(
    alloc: Global,
    plan: Arc<Plan>,
    rows: &[Row],
    reader: R,
) -> Result<Replayed, ReplayError>
    ensures told { IfOk result (λ r. IfSome (R.remaining reader) (λ text. (mode : StartMode) × (start : Start)
        × (log : Log) × IsTrace plan.value rows.now text mode start log
        × AreFindings plan.value start log r.rows r.done r.faults r.overruns r.values.items)) }
    ensures only { IfOk result (λ r. IfSome (R.remaining reader) (λ text.
        (mode : StartMode) (start : Start) (log : Log) → IsTrace plan.value rows.now text mode start log
        → AreFindings plan.value start log r.rows r.done r.faults r.overruns r.values.items)) }
    ensures refused { IfErr result (λ e. e ≢ ReplayError.NoMemory
        → e ≢ ReplayError.Device → IfSome (R.remaining reader) (λ text. (mode : StartMode) (start : Start) (log : Log)
        → IsTrace plan.value rows.now text mode start log → ⊥)) }
    // Each life whose trace was read gets accepted, unless memory runs out or the reader fails.
    ensures accepts { IfSome (R.remaining reader) (λ text. Accepts plan.value rows.now text
        (λ e. (e ≡ ReplayError.NoMemory) ⊎ (e ≡ ReplayError.Device)) result) }
{
    let mut reader = reader;
    let mut text = Vec::new(alloc);
    match reader.read_to_end(&mut text) {
        Ok(_) => replay_text(alloc, plan, rows, &text),
        Err(error) => Err(unread(&error)),
    }
}
