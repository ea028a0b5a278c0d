//! Whether quick code stands for a program.
//!
//! The author of the code is not trusted: each piece of the tree is found again in the code, with the ticks that are taken
//! ahead and the facts known of the notes. If the answer is yes, the code stands for the program.
#![tactic(auto)]

mod blocks;
mod calls;
mod cases;
mod choices;
mod choosing;
mod conditions;
mod constants;
mod counting;
mod cursor;
mod draft;
mod expressions;
mod functions;
mod instructions;
mod members;
mod programs;
mod prologues;
mod ranges;
mod reached;
mod reading;
mod refusal;
mod scope;
mod signs;
mod statements;
mod subscripts;
mod turning;
mod windows;
mod within;

pub use choosing::{Choice, choice_of, unequal_to_0};
pub use constants::{literal_value, number_for};
pub use draft::Landing;
pub use instructions::{
    bool_branch, branch_for, branch_for_by, comparison_instr, instr_by, instr_for,
};
pub use programs::{DraftedProgram, checked};
pub use refusal::Refusal;
pub use subscripts::{Sum, shift_for, summed};
