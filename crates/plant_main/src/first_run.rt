//! The run of the built-in configuration, over a simulated disk.

ghost use Rattle.std.specs.Prelude.{◌≡◌, IfOk};

use crate::built_in;
use crate::open_gate::OpenGate;
use config::build;
use disk::{Disk, SimDisk};
use durable_core::{Core, Refusal, StartMode};
use plan::Plan;
use plc_threads::{Pace, Report, RunError, run_plant};
use run_lock::RunFault;
use serial_core::Refusal as SerialRefusal;
use source_run::{DEFAULT_BUDGET, Fault, write_variable};
use st_types::{Name, Path, Row, Value};
use std::alloc::{AllocError, Global};
use std::sync::{Arc, Wait};
use std::thread::Threads;

/// How many rows are latched.
const ROWS: u64 = 100;

/// Room in the log for each row, and for an execution of both programs at it.
const LOG_ROOM: usize = 300;

/// The fault if the built-in plan lacked its variable.
const FOREIGN: Fault = Fault::Run(RunFault::Refused(Refusal::Serial(SerialRefusal::Foreign)));

/// A core of the plan, started cold over the disk.
fn started<D: Disk + Drop>(alloc: Global, plan: Arc<Plan>, disk: D) -> Result<Core<D>, Fault>
    ensures own { IfOk result (λ core. core.state.plan ≡ plan.value) }
{
    match Core::start(alloc, plan, disk, StartMode::Cold, LOG_ROOM) {
        Ok(core) => Ok(core),
        Err((fault, _)) => Err(Fault::Start(fault)),
    }
}

/// 100 rows of no inputs, at 0, 10, .., 990 ms.
fn built_in_rows(alloc: Global) -> Result<Vec<Row>, AllocError> {
    let mut rows = Vec::new(alloc);
    for k in 0..ROWS {
        rows.push(Row::new(k * built_in::INTERVAL, Vec::new(alloc)))?;
    }
    Ok(rows)
}

/// The line with the value of a variable.
fn line_of(alloc: Global, path: &Path, value: Value) -> Result<Vec<u8>, Fault> {
    let mut line = Vec::new(alloc);
    match write_variable(&mut line, &[], path, value) {
        Ok(()) => Ok(line),
        Err(_) => Err(Fault::NO_MEMORY),
    }
}

/// The line with the value of n.
fn count_line<D: Disk>(alloc: Global, core: &Core<D>) -> Result<Vec<u8>, Fault> {
    let path = Path::global(alloc, Name::from_slice(alloc, built_in::COUNT.as_bytes())?);
    match core.value(&path) {
        Some(value) => line_of(alloc, &path, value),
        None => Err(FOREIGN),
    }
}

/// Runs the plan in threads over the disk, and gives the line with the value of n after it.
fn served<D: Disk + Drop + Send, R: Threads + Wait + Sync>(
    rt: &R,
    alloc: Global,
    plan: Plan,
    disk: D,
) -> Result<Vec<u8>, Fault> {
    let rows = built_in_rows(alloc)?;
    let core = started(alloc, Arc::new(alloc, plan)?, disk)?;
    match run_plant(rt, alloc, core, rows, Pace::Settle, &OpenGate) {
        Ok(Report { core, told: _ }) => count_line(alloc, &core),
        Err(RunError { core: _, fault }) => Err(Fault::Run(fault)),
    }
}

/// Runs the built-in configuration in threads over an empty simulated disk, and gives the line with the value of n after it.
pub fn first<R: Threads + Wait + Sync>(rt: &R, alloc: Global) -> Result<Vec<u8>, Fault> {
    let plan = build(alloc, built_in::TEXT.as_bytes(), DEFAULT_BUDGET)?;
    served(rt, alloc, plan, SimDisk::new(alloc, Vec::new(alloc))?)
}
