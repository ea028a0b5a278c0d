//! The types of expressions and of the labels of a CASE, and the faults in them.
//!
//! An expression is judged from its leaves up: each name is looked up once, and an untyped part is settled once, when its
//! type is known. Labels are judged one by one, and against each other.
#![tactic(auto)]

mod calls;
mod demands;
mod expressions;
mod kinds;
mod labels;
mod literals;
mod lone_labels;
mod operands;
mod operations;
mod places;
mod readings;
mod selections;
mod settling;
mod sorts;
mod spans;

pub use expressions::{place_of, typing, wrong_expression};
pub use kinds::{kind_or_taken, or_kind, taken_kind};
pub use labels::wrong_labels;
pub use literals::wrong_number;
pub use lone_labels::wrong_label;
pub use operands::{allows, demand_of_typing, fits, is_nothing, kind_of, settled};
pub use places::{first_byte, place_of_literal};
pub use readings::wrong_reading;
pub use selections::{
    demand_of_type, select, selected_type, type_after_selectors, type_word, typing_of_place,
};
pub use settling::settle;
pub use sorts::is_joining;
