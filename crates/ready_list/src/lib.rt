//! The next activation to run: which activations wait, which of a resource is the best, and how often a program was overrun.
//!
//! At most one activation of a program waits. The list is given rows and executions, and never looks into a log.
#![tactic(auto)]

mod list;
mod order;
mod program_state;
mod schedules;

pub use list::ReadyList;
pub use program_state::{NewRow, is_due_at};
pub use schedules::plan_schedules;
