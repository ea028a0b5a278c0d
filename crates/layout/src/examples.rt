//! Worked examples of layouts and of texts in the terms of the meaning, by topic, each proved by computation.

pub mod initial_values;
pub mod layouts;
pub mod libraries;
pub mod runs;
