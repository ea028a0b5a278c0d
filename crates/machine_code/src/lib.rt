//! Instructions over slots, their meaning, and the code of slot trees.
//!
//! The effect of an instruction is defined over any memory that is looked up, put and reset; a memory that marks what is
//! read and assigned runs as one that does not. A law here says that the code does what its tree means.
#![tactic(auto)]

mod code_laws;
mod comparison;
pub mod examples;
mod instr;
mod jump_targets;
mod limits;
mod machine_laws;
mod mark;

pub use code_laws::{
    code_does_what_its_program_does, marked_code_does_what_its_program_does, marks_change_nothing,
};
pub use instr::Instr;
pub use jump_targets::JumpTargets;
pub use limits::{MAX_INSTRUCTIONS, MAX_MEMORY, limits_of_code};
pub use machine_laws::{machine_goes_on, reads_suffice, what_is_read_is_asked_for};
pub use mark::Mark;
