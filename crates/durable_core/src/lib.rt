//! The core under the lock, over a disk: the acknowledged entries are there when power returns.
//!
//! It owns the core without a disk and the store. The invariant of `Core` says that every file which a stop now may
//! leave survives: a warm restart from it gives the values after a prefix of the log that holds all that is
//! acknowledged. No call but `start` and `flush` writes to the disk, and after a failed flush no call goes on.
#![tactic(auto)]

mod calling;
mod core_state;
mod endless;
mod endless_calls;
mod endless_reading;
mod flushing;
mod laws;
mod migrating;
mod parts;
mod reading;
mod recording;
mod refusal;
mod saving;
mod starting;
mod starting_core;

pub use core_state::Core;
pub use endless::EndlessCore;
pub use laws::{
    records_hold_what_was_kept, records_know_types_by_their_names, what_survives_is_given_back,
    what_survives_is_given_to_other_plans,
};
pub use refusal::{Refusal, StartFault};
pub use serial_core::Answer;
pub use starting::StartMode;
