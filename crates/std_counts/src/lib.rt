//! Edges and counts of standard blocks, on truths and numbers alone.
#![tactic(auto)]

mod counts;
mod edges;

pub use counts::{down_count, up_count, up_down_count};
pub use edges::{edge, falls};
