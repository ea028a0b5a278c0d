//! The engine of a core: rows are latched, snapshots taken and executions committed, and no log is kept.
//!
//! It has what the next call needs of a log, so a life in it may go on for ever in the same memory. Its contracts speak of
//! each log that it may have had: it answers as the core that keeps all of it. A call that is refused changes nothing.
#![tactic(auto)]

mod committing;
mod committing_here;
mod engine;
mod keeping;
mod latching;
mod laws;
mod reading;
mod refusal;
mod resuming;
mod sampling;
mod starting;
mod taking;

pub use engine::Engine;
pub use laws::engines_have_checkpoints;
pub use refusal::{Answer, Refusal};
pub use sampling::sample_all;
pub use starting::initial_values;
pub use taking::code_of;
