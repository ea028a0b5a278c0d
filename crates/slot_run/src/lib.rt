//! Runs of code on snapshots, outside the lock.
//!
//! The type of `Execution` guarantees that, wherever its reads hold, each program that the code means ends as it says and
//! leaves its writes. A faulted execution writes nothing, and a run changes no variable: a commit does.
#![tactic(auto)]

mod execution;
mod gathering;
mod laws;
mod memory;
mod quick_snapshot;
mod runner;
mod snapshot;
mod taken;

pub use execution::{Execution, Machine};
pub use laws::{
    commits_do_what_programs_do, quick_executions_are_executions,
    writes_to_inputs_change_no_variable,
};
pub use quick_snapshot::QuickSnapshot;
pub use runner::{run, run_by_values, run_quick};
pub use snapshot::Snapshot;
pub use taken::Taken;
