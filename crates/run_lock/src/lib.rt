//! The data under the lock of a run in threads: the core, and with it a book of the workers' commits, the right to raise the
//! mark, the rows that are left, and how far the run is.
//!
//! The invariant of the lock's type holds whenever the lock is taken: the core's own promise, that the log has as many new
//! executions as the book says, that the number which the flusher raised is acknowledged, that the life is that of the run,
//! and that its rows were latched in order.
#![tactic(auto)]

mod locked;
mod mark;
mod own;
mod phase;
mod tally;

pub use locked::{Locked, Run, is_settled};
pub use mark::{Mark, Pass, RaisePass};
pub use own::{OwnExecution, OwnTaken};
pub use phase::{Phase, RunFault};
pub use tally::Tally;
