//! The threads of resources, and the flusher.

ghost use Rattle.std.specs.Prelude.{◌≡◌, ◌+◌};

use crate::driver::Pace;
use crate::gate::Gate;
use crate::shared::{Extent, Served, Shared};
use disk::Disk;
use durable_core::Answer;
use run_lock::{Mark, Phase, Run, RunFault, Tally};
use std::alloc::Global;
use std::sync::Wait;
use std::sync::ledger::Share;

/// After this number of stale answers in a row the next try is a commit in one step.
const PATIENCE: u32 = 8;

/// Reports a commit in one step to the gate.
fn answer_gate<G: Gate>(gate: &G, resource: usize, served: Served) {
    if let (Some(length), Some(activation)) = (served.length, served.last) {
        gate.answered(resource, activation, Answer::Committed(length));
    }
}

/// Takes, runs and commits the activations that wait on a resource, until the run ends.
pub fn work<J: Run, D: Disk + Drop, G: Gate, R: Wait>(
    rt: &R,
    alloc: Global,
    shared: &Shared<J, D>,
    gate: &G,
    resource: usize,
    share: Share<J>,
) -> Tally<J>
    requires { (share.parts ≡ 1) × (share.amount ≡ 0) }
{
    let mut tally = Tally::new(share);
    let mut stale_in_a_row = 0;
    let mut extent = gate.extent();
    for _ in rt.forever() {
        let Some(taken) = shared.next(rt, alloc, resource, extent) else {
            break;
        };
        if stale_in_a_row >= PATIENCE {
            stale_in_a_row = 0;
            let Some(served) = shared.commit_here(rt, &mut tally, alloc, resource) else {
                break;
            };
            answer_gate(gate, resource, served);
            continue;
        }
        let activation = taken.activation();
        let execution = match taken.run(alloc) {
            Ok(Some(execution)) => execution,
            Ok(None) => {
                // Quick code cannot tell how this run ends; the machine on values can, and may look at any slot.
                extent = Extent::Whole;
                continue;
            }
            Err(_) => {
                shared.end(rt, Phase::Stopped(RunFault::NO_MEMORY));
                break;
            }
        };
        extent = gate.extent();
        gate.between(resource, activation, execution.execution.machine());
        let Some(answer) = shared.commit(rt, &mut tally, execution) else {
            break;
        };
        stale_in_a_row = match answer {
            Answer::Committed(_) => 0,
            Answer::Stale => stale_in_a_row + 1,
        };
        gate.answered(resource, activation, answer);
    }
    tally
}

/// Flushes whenever the log is longer than what is acknowledged, until the run ends.
///
/// If the next row comes when all has settled, it flushes once nothing waits: one save covers all entries that followed
/// a row.
pub fn flush_all<J: Run, D: Disk + Drop, R: Wait>(
    rt: &R,
    shared: &Shared<J, D>,
    mark: &Mark,
    resources: usize,
    pace: Pace,
)
    requires { mark.now ≡ J.mark }
{
    for _ in rt.forever() {
        let mut guard = shared.longer.wait_while(rt, shared.locked.lock(rt), |l| {
            l.phase == Phase::Running
                && (l.core.acked() == l.core.len()
                    || pace == Pace::Settle && !l.nothing_waits(resources))
        });
        if guard.phase != Phase::Running {
            break;
        }
        match guard.flush(mark) {
            Ok(_) => shared.acknowledged.notify_all(),
            Err(_) => shared.wake_all(),
        }
    }
}
