//! Lists of calls of a core, several lives over one simulated disk, and the replay of a trace: the public calls around the
//! core, here under its own names and as re-exports.
//!
//! Each life starts from the file that the one before it left, wherever that was stopped.
#![tactic(auto)]

mod disks;
mod driving;
mod driving_endless;
mod event;
mod findings;
mod laws;
mod life;
mod living;
mod living_endless;
mod nobody;
mod replaying;
mod starting;

pub use driving::drive;
pub use driving_endless::drive_endless;
pub use durable_core::{Answer, Core, EndlessCore};
pub use event::{Event, Reply};
pub use findings::Replayed;
pub use laws::each_core_has_a_trace;
pub use life::{Course, Life, LifeEnd};
pub use living::lives;
pub use living_endless::endless_lives;
pub use replaying::{replay, replay_text, replay_watched};
pub use trace::{ReplayError, Watcher, trace_budget, write_trace};
