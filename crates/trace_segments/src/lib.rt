//! Segments of the trace of a life without end: each begins with all that what follows still needs, so it is run again alone.
//!
//! It owns how the head of a segment is written, the meaning of its text, and how its entries are run again.
#![tactic(auto)]

mod beginning;
mod head;
mod laws;
mod marking;
mod parsing;
mod position;
mod progress;
mod recorder;
mod replaying;
mod resting;
mod running;
mod watcher;

pub use beginning::{is_first, segment_budget};
pub use head::{Head, push_head};
pub use laws::what_is_run_again_is_a_segment;
pub use position::Position;
pub use recorder::Recorder;
pub use replaying::{Ended, replay_first, replay_next};
pub use watcher::SegmentWatcher;
