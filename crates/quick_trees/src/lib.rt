//! Which quick code stands for a slot tree, and that if a run of it ends well, the tree means the result of the run.
//!
//! A compiler makes code that stands for the program of a plan, and a run begins with the quick machine on it. The
//! definition says for each form of code what it stands for, so a further form is a further clause. Nothing is said of a run
//! that does not end well.
//!
//! Code leads from one point to another. A point is a place, with the ticks that the run has taken ahead of the tree, and
//! with the facts known there of the note of each slot: the machine keeps a note of how the program used a word, and an
//! instruction that notes a look or an assignment may be before a loop that does it in each turn. The code of a function
//! takes the place of each call, on words of its own, and an input that the body never assigns stays where the argument is.
//! The code of a block takes the place of each call, too, on the slots of the instance, and a standard block is a single
//! instruction.
#![tactic(auto)]

mod examples;
mod laws;
mod noting;
mod pace;

pub use examples::{
    a_block_in_quick_code, a_call_in_quick_code, a_case_in_quick_code, a_count_in_quick_code,
    a_loop_in_quick_code, a_program_in_quick_code, a_sign_in_quick_code,
    a_standard_block_in_quick_code, an_array_in_quick_code, constants_in_quick_code,
};
pub use laws::quick_code_does_what_its_program_does;
pub use noting::Noting;
pub use pace::Pace;
