//! The work of a run's caller while its threads work.

ghost use Rattle.std.specs.Prelude.{◌≡◌};

use crate::shared::Shared;
use disk::Disk;
use run_lock::{Mark, Pass, Phase, Run};
use std::sync::Wait;
use std::thread;

/// How rows follow one another.
#[derive(Clone, Copy, Debug, PartialEq, Eq)]
pub enum Pace {
    /// The next row is latched when nothing waits and all is acknowledged.
    Settle,
    /// Rows are latched one after another.
    Free,
}

/// How often the driver asks the mark before it takes the lock anyway.
const ASKS: u32 = 64;

/// Asks the mark, without the lock, whether `length` entries are acknowledged.
fn ask(mark: &Mark, pass: &mut Pass, length: u64)
    requires own { pass.old.mark ≡ mark.now }
    ensures same { pass.new.mark ≡ pass.old.mark }
{
    for _ in 0..ASKS {
        if mark.load(pass) >= length {
            return;
        }
        thread::yield_now();
    }
}

/// Latches the rows, and ends the run when nothing waits and all is acknowledged.
pub fn drive<J: Run, D: Disk + Drop, R: Wait>(
    rt: &R,
    shared: &Shared<J, D>,
    mark: &Mark,
    pass: Pass,
    resources: usize,
    rows: usize,
    pace: Pace,
)
    requires own { pass.mark ≡ mark.now }
{
    let mut pass = pass;
    let mut length = 0;
    for _ in 0..rows {
        if pace == Pace::Settle {
            ask(mark, &mut pass, length);
        }
        let mut guard = shared
            .acknowledged
            .wait_while(rt, shared.locked.lock(rt), |l| {
                l.phase == Phase::Running && pace == Pace::Settle && !l.is_settled(resources)
            });
        if guard.phase != Phase::Running {
            return;
        }
        guard.latch();
        length = guard.core.len() as u64;
        match guard.phase {
            Phase::Running => {
                shared.due.notify_all();
                shared.longer.notify_all();
            }
            Phase::Ended | Phase::Stopped(_) => shared.wake_all(),
        }
    }
    ask(mark, &mut pass, length);
    let mut guard = shared
        .acknowledged
        .wait_while(rt, shared.locked.lock(rt), |l| {
            l.phase == Phase::Running && !l.is_settled(resources)
        });
    guard.end(Phase::Ended);
    shared.wake_all();
}
