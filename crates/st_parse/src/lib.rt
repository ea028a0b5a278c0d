//! The tree of a text, from its tokens.
//!
//! A text has one tree or a first fault, never both. Above each reader is its production: `a, b` is a and then b,
//! `a | b` one of the two, `[ a ]` a or nothing, `{ a }` any number of a. No tree is deeper than 64, and nothing here
//! looks up a name.
#![tactic(auto)]

mod argument;
mod arms;
mod block;
mod choice;
mod configuration;
mod data_type;
mod declaration;
mod expression;
mod fault;
mod global;
mod initial;
mod label;
mod laws;
mod list;
mod names;
mod pair;
mod parsing;
mod place;
mod reader;
mod resource;
mod section;
mod source;
mod statement;
mod tokens;
mod unit;

pub use fault::{ParseError, ReadError, Refusal};
pub use laws::a_text_has_one_tree;
pub use list::several;
pub use parsing::parse;
pub use place::parse_error;
pub use reader::{read_expression, read_initial, read_number, read_statements};
pub use tokens::{begins, begins_name, keyword, leads, literal, mark, name, refused, whole};
