//! Single tokens: reading one, with a sign before a number, and tests for the next.

mod next;
mod operators;
mod sign;
mod terminal;

pub use next::{
    begins, begins_name, begins_number, begins_value, is_keyword, is_mark, is_value, leads,
    refused, sunk,
};
pub use operators::{binds, goes_on, operator};
pub use sign::{negative_number, signed_number};
pub use terminal::{constant, keyword, literal, mark, name, negative_at, value, whole};
