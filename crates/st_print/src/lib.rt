//! Values and paths as reports and traces spell them, and decimal numbers as plants and traces give them.
#![tactic(auto)]

mod hexadecimal;
pub mod number;
mod path;
mod type_text;
mod value;

pub use path::write_path;
pub use type_text::write_type;
pub use value::write_value;
