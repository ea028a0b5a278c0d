//! The jobs of command lines, the work of `plant run` over any files, and each code that a job may end with: its meaning,
//! the fault for which it stands, and the line that reports it.
//!
//! This crate owns the order of source, plant, start, run, trace and report, and the exit status of each fault.
//! `docs/CODES.md` has the codes under the same titles (`tests/explanations.py`).
#![tactic(auto)]

mod causes;
mod code;
mod code_writing;
mod codes;
mod entry;
mod fault;
mod files;
mod finding;
mod job;
mod layouts;
mod life;
mod line;
mod live_report;
mod living;
mod plants;
mod progress;
mod real_files;
mod report;
mod running;
mod segments;
mod sources;
mod tracing;
mod writing;

pub use causes::{code_of, place_of};
pub use code::{Code, codes_are_distinct, each_code_is_explained};
pub use code_writing::write_explanation;
pub use codes::explanations;
pub use entry::{Example, Explanation, Frame, Status};
pub use fault::Fault;
pub use files::{Files, Folder};
pub use finding::{explanation, title};
pub use job::{
    AskedMachine, CheckJob, DEFAULT_BUDGET, DEFAULT_BUDGET_TEXT, Job, LiveJob, Pace, PlotJob,
    ReplayJob, RunJob, ShowJob, Start, View, default_of_a_budget,
};
pub use life::report_of;
pub use line::write_fault;
pub use living::{Lived, live_plan};
pub use plants::read_rows;
pub use real_files::RealFiles;
pub use report::{Counts, report_with, write_variable};
pub use running::run_plan;
pub use sources::{plan_of, read_source};
pub use writing::put_text;
