//! Quick code of programs: drafts made of their slot trees, and the code that a check accepts.
//!
//! Nothing is promised of a draft: the check finds out whether it stands for its program. So drafts are short and fast, and
//! of a form that the check finds.
#![tactic(auto)]

mod aheads;
mod assigned;
mod block_surveys;
mod blocks;
mod calls;
mod cases;
mod choosing;
mod compiler;
mod conditions;
mod constants;
mod draft;
mod functions;
mod known;
mod legs;
mod loops;
mod notes;
mod places;
mod programs;
mod ranges;
mod reading;
mod sheet;
mod signs;
mod spot;
mod statements;
mod stop;
mod subscripts;
mod survey;
mod touch;
mod turning;
mod unit;
mod windows;
mod within;

pub use compiler::compile;
pub use programs::{Drafted, Landing, Program, draft_program};
