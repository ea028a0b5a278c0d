//! Operators, standard functions and standard function blocks on values.
//!
//! Each call is exactly its definition, whatever the types of its arguments: something that no well-typed text meets ends
//! with the fault that stands for it in a run. None of them takes memory.
#![tactic(auto)]

mod bistables;
mod blocks;
mod counters;
mod edge_blocks;
mod functions;
mod members;
mod numbers;
mod operators;
mod shifts;
mod timer;
mod timers;

pub use blocks::step;
pub use functions::standard_value;
pub use numbers::{bits, holds_word, is_at_most, is_negative, is_same_number};
pub use operators::{apply, apply_unary, condition_of};
pub use timer::Timer;
pub use timers::{off_delay, on_delay, pulse};
