//! The static meaning of a text: the meanings of its names, the types of its expressions, and the rules that it may break.
//!
//! `specs/` has the definitions, over the mirror of the trees. The functions here do nothing: their contracts are
//! worked examples and laws. The code that judges a text is proved against these definitions, in the crates above.
#![tactic(auto)]

mod broken_rules;
mod collecting;
mod demand;
pub mod examples;
mod laws;
pub mod limits;
mod reason;
mod rule;
mod typings;

pub use broken_rules::BrokenRules;
pub use demand::{Demand, Purpose, Sorts};
pub use laws::{chains_have_depths, typings_are_those_of_the_meaning};
pub use reason::{BlockSide, Bounds, Reason, TypeWord};
pub use rule::{Broken, Rule};
pub use typings::Typing;
