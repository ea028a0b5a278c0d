//! Worked examples of broken rules, by topic, each proved by computation: the whole list of faults in a text.

pub mod assignments;
pub mod calls;
pub mod configurations;
pub mod containment;
pub mod declarations;
pub mod enumerations;
pub mod expressions;
pub mod initials;
pub mod labels;
pub mod operators;
pub mod places;
pub mod scopes;
pub mod sections;
pub mod statements;
