//! The meaning of programs and of plans: stores, expressions, statements, functions, blocks and runs; rows, activations that
//! are due and wait, logs and the variables after them, retention and restarts.
//!
//! The meaning is in `specs/`. The functions here hold it to worked examples and laws, by contracts of functions that do
//! nothing, and look up names and types in trees. Nothing here runs a program.
#![tactic(auto)]

mod literals;
pub mod lookup;
mod outcome;
mod plan;
pub mod plan_examples;
mod plan_laws;
pub mod program_examples;
mod program_laws;
mod restarts;

pub use literals::{number_of, value_of_number};
pub use outcome::Outcome;
pub use plan::{PlanInput, PlanVariable, Schedule};
pub use plan_laws::{
    each_activation_is_done_once, entries_are_counted, intervals, logs_grow_by_one_step,
    one_activation_is_best, one_activation_waits, overruns_are_rows_that_meet_a_waiting_program,
    served_once, single_and_interval, three_programs_in_order,
};
pub use program_laws::{
    bistables, bounds_of_recursion, budgets, counters_stay_within_their_type,
    faults_change_nothing, missing_values, on_delay_waits, operands_are_all_evaluated,
    paths_and_slots, paths_are_compared, timers_stop_at_their_time, two_faults_show_what_is_asked,
    variables_stay,
};
pub use restarts::{
    logs_keep_the_variables, restarts_give_back_what_was_kept, starts_have_the_variables,
};
