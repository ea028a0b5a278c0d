//! Programs whose names are slots: their meaning, that it is the same as with names, and their trees as code, which a
//! linker makes and a compiler reads.
//!
//! A place is a slot and the subscripts that lead on from it; functions and blocks of a text are numbers. `specs/`
//! defines the meaning of the trees, and when a whole program is linked. Nothing here judges a tree.
#![tactic(auto)]

pub mod examples;
mod expression;
mod laws;
mod library;
mod statement;

pub use expression::{Anchor, Operands, Place, SlotExpr, Subscript};
pub use laws::{
    block_names_are_slots, functions_lie_as_declared, linked_programs_mean_the_same,
    linked_texts_have_their_programs, linked_texts_mean_the_same, names_are_looked_up,
    program_names_are_slots,
};
pub use library::{SlotFunction, SlotLibrary};
pub use statement::{BlockCode, SlotArgument, SlotArm, SlotCaseArm, SlotStmt};
