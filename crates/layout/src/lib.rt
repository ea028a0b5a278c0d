//! The layout of a text: the elementary parts of its variables in order, with their initial values and retention.
//!
//! `specs/` defines layouts, and contracts of functions that do nothing hold the definition to laws and worked
//! examples. The code takes a declared type apart one level at a time.
#![tactic(auto)]

mod block_members;
mod calls;
mod compositions;
mod configurations;
mod definition_laws;
mod elements;
mod enumerations;
pub mod examples;
mod growing;
mod initials;
mod laws;
mod layout;
mod layout_error;
mod layout_slots;
mod libraries;
pub mod limits;
mod members;
mod named_sites;
mod parts;
mod sites;
mod sizes;
mod slot_index;
mod slots;
mod standard_members;
mod text_lines;
mod variables;

pub use calls::fresh_values;
pub use compositions::{Composition, Types};
pub use configurations::{ProgramInstance, instances_in, only_configuration};
pub use definition_laws::{
    initial_values_fill_the_layout, layouts_of_declared_variables, layouts_of_texts,
    leaves_of_shapes, parts_are_declared, slots_depend_on_no_literal, types_are_fully_expanded,
    variables_start_as_declared,
};
pub use enumerations::enumerations_in;
pub use laws::{accepted_texts_declare_names_once, what_is_too_large};
pub use layout::Layout;
pub use layout_error::LayoutError;
pub use libraries::{
    calls_find_the_units_of_a_text, functions_start_with_a_store,
    instances_have_the_members_of_their_blocks, programs_that_call_nothing,
};
pub use parts::parts_of;
pub use sites::{Part, PartStep, Site};
pub use sizes::{Sizes, product, sum};
pub use slots::{LayoutSlot, SlotFacts};
