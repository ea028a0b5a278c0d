//! Plans: the parts of a text that the runtime needs.
//!
//! It owns variables, inputs, tasks and the codes of programs. The invariant of `Plan` says that each path has one
//! slot, that codes do what their programs do and read only what these ask for, that names distinguish instances and
//! values, and that the limits hold, so no crate above checks them again. A plan never changes.
#![tactic(auto)]

mod asking;
mod kept;
mod laws;
mod plan;
mod read_laws;
mod slots;
mod task;

pub use asking::what_a_run_reads_is_asked_for;
pub use kept::{plan_instances_are_distinguished, plans_read_what_they_ask_for};
pub use laws::slots_are_in_the_order_of_the_text;
pub use plan::Plan;
pub use read_laws::executions_of_plans_read_what_is_asked_for;
pub use slots::{SlotPlace, merged_values};
pub use task::{ProgramInstance, Task, Trigger};
