//! Traces: the actions of the threads of a run, as a text that a person can read and one thread can run again.
//!
//! It owns how the life of a core is written, the meaning of the lines of such a text, and the replay of its log, line by
//! line, on a core without a disk.
#![tactic(auto)]

mod budget;
mod done_lines;
mod entries;
mod head;
mod keeping;
mod lines;
mod parts;
mod putting;
mod trace_error;
mod values;
mod watcher;
mod writing;

pub use budget::trace_budget;
pub use done_lines::{after_program, ending, program_of};
pub use entries::{copied, replay_log};
pub use head::{begin, moment};
pub use keeping::{kept_value, kept_values};
pub use lines::{outcome_word, put_done, put_keep};
pub use parts::{after_count, after_words, first_field, first_number};
pub use putting::put;
pub use trace_error::ReplayError;
pub use watcher::Watcher;
pub use writing::{put_kept, write_trace};
