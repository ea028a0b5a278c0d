//! Worked examples of the meaning of plans, by topic, each proved by computation.

pub mod due;
pub mod restarts;
pub mod rows;
pub mod waiting;
