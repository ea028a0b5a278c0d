//! Worked examples of the meaning of programs, by topic, each proved by computation.

pub mod asked;
pub mod blocks;
pub mod calls;
pub mod cases;
pub mod enumerations;
pub mod faults;
pub mod functions;
pub mod literals;
pub mod loops;
pub mod operators;
pub mod parts;
pub mod resolution;
pub mod typing;
