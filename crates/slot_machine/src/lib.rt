//! The machine that runs code on the values of slots.
//!
//! It does exactly what the definition of the machine says, over a memory that marks what is looked up before it is
//! assigned, and what is assigned.
#![tactic(auto)]

mod blocks;
mod jumps;
mod loops;
mod machine;
mod operations;
mod slots;
mod stack;
mod stop;
mod subscripts;

pub use machine::{run, step};
pub use stack::Stack;
pub use stop::Stop;
