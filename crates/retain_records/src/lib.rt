//! Records: their content, their spelling in bytes, both ways, and the values that they give the variables of a plan.
//!
//! A content has one spelling, and a spelling has one content. A variable takes the value in the line of its path and
//! type; a line of no variable is dropped. Nothing here knows of files.
#![tactic(auto)]

mod enumeration;
mod examples;
mod kept_laws;
mod laws;
mod line;
mod line_index;
mod matching;
mod names;
mod parts;
mod paths;
mod reading;
mod record;
mod sizes;
mod spelling;
mod splitting;
mod value_bytes;
mod written_lines;

pub use enumeration::enumeration_in;
pub use examples::restarts_with_another_text;
pub use kept_laws::restarts_give_other_plans_what_is_theirs;
pub use laws::{records_have_one_spelling, values_have_their_width};
pub use line_index::LineIndex;
pub use matching::{numbered, restore_from};
pub use names::names_counted;
pub use paths::LineRoom;
pub use record::Record;
pub use sizes::sizes_of_records;
pub use spelling::spell;
pub use splitting::split_at;
pub use written_lines::{Words, words_at};
