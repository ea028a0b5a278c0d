//! The core without a disk: rows are latched, snapshots taken and executions committed.
//!
//! It is an engine with the log of it: the entries and how each ended. The invariant of its type is that the log is legal,
//! and that variables, outcomes and the ready list are those after the log. A call that is refused changes nothing.
#![tactic(auto)]

mod committing;
mod committing_here;
mod history;
mod keeping;
mod latching;
mod reading;
mod resuming;
mod serial;
mod starting;
mod taking;

pub use core_engine::{Answer, Refusal};
pub use history::History;
pub use serial::SerialCore;
