//! The parts of a core's work, each by itself: values of slots, rows of a log, the values of variables after a restart.
#![tactic(auto)]

mod cells;
mod held;
mod restoring;
mod rows;
mod windows;

pub use cells::{are_current, write_all};
pub use held::{HeldRow, hold_all};
pub use restoring::restore;
pub use rows::{fits, is_later};
pub use windows::window_values;
