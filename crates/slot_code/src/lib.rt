//! The code of a program: its instructions, with the types of the slots that they run over, and quick code next to them.
//!
//! The meaning of code is defined here. A run of the quick code that ends well ends as the instructions do: with the same
//! ticks, values and marks. It uses only the slots that the program names.
#![tactic(auto)]

mod code;
mod comparison;
mod laws;
mod making;
mod memory;
mod parts;
mod program;
mod running;
mod sharing;
mod window;

pub use code::Code;
pub use laws::quick_code_answers_as_its_instructions;
pub use layout::Layout;
pub use machine_code::Instr;
pub use parts::{PlacedParts, QuickParts};
pub use program::QuickProgram;
pub use running::QuickRun;
