//! From a text in Structured Text to its plan: tokens, tree, rules, configuration, layout and codes, one after another.
//!
//! This crate owns the rules on a text's configuration. A text that has a plan gets it, each refusal applies to its text,
//! and code is made of each text that breaks no rule.
#![tactic(auto)]

mod addresses;
mod broken_rules;
mod build_error;
mod codes;
mod configuration_error;
mod configured;
mod counts;
mod externals;
mod fitting_laws;
mod globals;
mod instances;
mod linked_bodies;
mod literals;
mod look_ups;
mod meaning;
mod numbered_slots;
mod path_laws;
mod places;
mod plan_laws;
mod programs;
mod record_length;
mod running;
mod same_types;
mod schedules;
mod slot_kinds;
mod source_plan;
mod tasks;
mod text_plan;

pub use broken_rules::add_broken_rules;
pub use build_error::BuildError;
pub use codes::codes_of_text;
pub use configuration_error::ConfigurationError;
pub use configured::configure;
pub use fitting_laws::{
    accepted_texts_are_compiled, expressions_without_faults_are_sound,
    statements_without_faults_are_sound,
};
pub use linked_bodies::names_lie_among_values;
pub use literals::literals_of_texts_are_spelled;
pub use look_ups::codes_of_accepted_texts_look_globals_up;
pub use path_laws::{
    declarations_of_texts_are_plain, paths_of_texts_are_of_words,
    paths_of_texts_have_distinct_spellings, word_paths_have_distinct_spellings,
};
pub use plan::Plan;
pub use plan_laws::{instances_of_plans_are_distinguished, tasks_are_as_declared};
pub use source_plan::build;
pub use st_compile::CompileError;
