//! The faults of a text and their places, as a person reads them: a sentence, the line with a caret under the place, and a
//! hint.
//!
//! This crate decides nothing about faults: it gets a text and its fault, which has the reason why a rule is broken,
//! and looks into the text once more. A view never holds a byte that a terminal would obey, whatever the text holds.
#![tactic(auto)]

mod addresses;
mod arguments;
mod comparisons;
mod configurations;
mod conversions;
mod counts;
mod declared_types;
pub mod examples;
mod excerpt;
mod explaining;
mod externals;
mod fault;
mod finding;
mod foreign_marks;
mod foreign_words;
mod globals;
mod grammar;
mod initials;
mod known;
mod labels;
mod left_out;
mod lexical;
mod limits;
mod members;
mod mismatches;
mod misused;
mod near;
mod numerals;
mod open;
mod operator_calls;
mod operators;
mod page;
mod part;
mod plain_calls;
mod position;
mod reasoning;
mod reasons;
mod resources;
mod rooms;
mod sentences;
mod site;
mod sizes;
mod sought;
mod spelling;
mod spot;
mod spots;
mod taken;
mod type_names;
mod unknown;
mod viewing;
mod writing;
mod wrong_bytes;

pub use explaining::{explained, whole_text_reason};
pub use fault::{SourceFault, WholeFault};
pub use finding::Finding;
pub use page::Page;
pub use part::{part as part_of, shown, word_in_front};
pub use position::{Position, position_of};
pub use reasoning::reason;
pub use spot::{Spot, is_mark};
pub use viewing::view_of;
pub use writing::{write_reason, write_rules};
