//! A checkpoint answers for the whole past of a life, so that an endless life keeps no log.
//!
//! The functions do nothing: their contracts are the laws.
#![tactic(auto)]

pub mod examples;
mod laws;

pub use laws::{
    checkpoints_answer_for_pasts, checkpoints_are_bounded, endless_lives_outlast_stops,
    entries_are_compacted, what_follows_is_the_same, what_survives_survives_of_the_whole,
};
