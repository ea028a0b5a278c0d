//! Texts linked: names become slots, in bodies, in functions and blocks, and in the programs of all instances. It also
//! has laws of the runs of a text that breaks no rule.
//!
//! A name is looked up once, in a table of its body, and selectors walk the declared types. A type is never unfolded as
//! a tree, since a type 64 deep may have 2 to the power of 64 parts: each named type and block has its size and its
//! members once. `specs/` has the laws; functions that do nothing have them as contracts.
#![tactic(auto)]

mod aggregates;
mod blocks;
mod body_table;
mod called_functions;
mod copies;
mod declared_names;
mod elements;
mod expressions;
mod functions;
mod homes;
mod invocations;
mod laws;
mod libraries;
mod link_error;
pub mod link_examples;
mod linked_text;
mod links;
mod members;
mod named_members;
mod numbers;
mod places;
mod programs;
pub mod run_examples;
mod shape_tables;
mod standards;
mod statements;
mod text_tables;
mod unit_names;
mod unit_tables;
mod variables;
mod whole_texts;

pub use aggregates::Aggregate;
pub use body_table::{BodyTable, LinkSymbol};
pub use called_functions::CalledFunctions;
pub use elements::Elements;
pub use homes::{
    blocks_lie_in_their_instances, functions_lie_in_their_calls, libraries_are_of_their_texts,
    names_differ_where_none_is_declared_twice, programs_agree_with_their_layout,
    programs_lie_in_their_layout, programs_of_a_text_are_of_its_instances,
    runs_depend_on_no_stuck_fault, runs_lie_in_their_layout,
    runs_of_known_instances_are_well_typed, runs_over_their_layout_are_sound,
    stores_of_a_layout_are_values_of_its_slots, types_without_long_chains_are_within_depth,
    values_of_slots_agree,
};
pub use laws::{
    assignments_are_sound, programs_are_sound, statements_are_sound,
    statements_without_instances_are_sound, types_are_known, units_are_sound, values_are_sound,
};
pub use link_error::LinkError;
pub use linked_text::LinkedText;
pub use links::{
    expressions_without_faults_are_linked, programs_of_accepted_texts_run_by_slots,
    statements_without_faults_are_linked, texts_that_break_no_rule_are_linked,
};
pub use members::{MemberPlace, Members};
pub use shape_tables::ShapeTables;
pub use statements::{link_control, link_statements};
pub use whole_texts::{accepted_texts_are_orderly, link};
