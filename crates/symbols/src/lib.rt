//! Names of a text, each looked up in a time that grows with the logarithm of their number.
//!
//! A hostile text chooses its names, so they are kept in order and not hashed. Each look-up answers with the meaning of the
//! name in the definitions of `st_meaning` and `st_rules`.
#![tactic(auto)]

mod enumerations;
pub mod examples;
mod fields;
mod index;
mod interfaces;
mod place_types;
mod repeats;
mod standard_blocks;
mod standard_functions;
mod text_tables;
mod texts;
mod unit_names;
mod variables;
mod words;

pub use enumerations::{EnumeratedNames, Member, Reading};
pub use fields::FieldNames;
pub use index::Index;
pub use interfaces::{Side, Signature, UnitInterfaces};
pub use place_types::{PlaceType, place_type};
pub use repeats::{first_repeat, index_of};
pub use standard_blocks::{StandardBlock, input_kind, member_count, output_kind, standard_block};
pub use standard_functions::{Standard, standard_function};
pub use text_tables::{Callee, TextTables};
pub use texts::TextNames;
pub use unit_names::UnitNames;
pub use variables::{Variable, VariableNames};
