//! The memory of a run: slots that mark what is looked up and what is assigned, and the reads and writes of a run by
//! these marks, as slots with values.
//!
//! A control variable of FOR goes one step on here, and never past the end of its type.
#![tactic(auto)]

mod cell;
mod control;
mod gathering;
mod memory;

pub use cell::{Cell, Cells};
pub use control::stepped_on;
pub use gathering::{reads_of, writes_left};
pub use memory::{look, mark_assigned, mark_seen, peek, put, put_seen, reset};
