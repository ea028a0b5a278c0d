//! From slot trees to code.
//!
//! A draft is code that is being made. Functions that call each other add the code of expressions, statements and calls to
//! it, and the result stands for its program, or the program is refused.
#![tactic(auto)]

mod access;
mod calls;
mod compile_error;
mod compiler;
mod draft;
mod expressions;
mod labels;
mod limits;
mod places;
mod scope;
mod statements;
mod units;

pub use access::Access;
pub use compile_error::CompileError;
pub use compiler::{Compiled, compile};
pub use draft::Draft;
pub use labels::{put_labels, put_literal, put_number};
pub use limits::{CALL_DEPTH, FUNCTION_PLACES, limits_of_calls};
pub use places::{control_slot, first_slot, put_subscript, slot_after, slot_value, value_at};
pub use scope::Scope;
pub use statements::put_statements;
pub use units::{
    block_at, function_at, function_scope, given_count, has_signature, put_members, put_resets,
    put_stores,
};
