//! A run in threads: a worker for each resource, one that flushes, and the caller, which latches the rows.
//!
//! They share one core under one lock (`run_lock`), and wake each other when something under it has changed.
#![tactic(auto)]

mod crew;
mod driver;
mod gate;
mod plant_run;
mod report;
mod shared;
mod worker;

pub use driver::Pace;
pub use gate::Gate;
pub use plant_run::run_plant;
pub use report::{AnswerCounts, Report, RunError};
pub use run_lock::{Mark, Pass, RaisePass};
pub use shared::Extent;
pub use slot_run::Machine;
