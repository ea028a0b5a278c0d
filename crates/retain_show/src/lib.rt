//! A look into a retain file: its content, and the outcome that a warm start of a text would have, as a text for people.
//!
//! It looks at the bytes of a file that was read, and writes nothing.
#![tactic(auto)]

mod against;
mod areas;
mod changes;
mod contents;
mod fate;
mod initial_lines;
mod lines;
mod matching;
mod record;
mod spelling;
mod written_lines;

pub use against::{changes_against, shown_against};
pub use areas::shown_areas;
pub use contents::shown;
pub use fate::Changes;
