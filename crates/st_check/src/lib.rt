//! All rules of the language: a text is judged once, and the result is its tree in which each literal has its type.
//!
//! A text is accepted exactly if it breaks no rule, and a refusal names a rule that is broken and its place. Rules on
//! declarations come first, then types and initial values, then bodies.
#![tactic(auto)]

mod arrays;
mod assignments;
mod bodies;
mod checked;
mod checking;
mod choices;
mod declared_types;
mod enumerations;
mod exits;
mod expressions;
mod initials;
mod invocations;
mod listings;
mod lookups;
mod priorities;
mod roots;
mod selections;
mod starts;
mod targets;
mod types;

pub use bodies::wrong_bodies;
pub use checked::{Checked, check};
pub use checking::{judge, judge_all};
pub use st_decl::CheckError;
