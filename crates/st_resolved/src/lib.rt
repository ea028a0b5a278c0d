//! The resolved tree of a text: that of its parse, in which each literal has its type, and each name of a value of an
//! enumerated type is a number of its type.
//!
//! The tree is built in one pass, from its leaves up: an expression of only untyped literals waits until its place offers a
//! type, and takes it once.
#![tactic(auto)]

mod alone;
mod calls;
mod copies;
mod declarations;
mod expected;
mod expressions;
mod globals;
mod initials;
mod invocations;
mod kinds;
mod labels;
mod literals;
mod members;
mod operations;
mod resolutions;
mod settling;
mod sources;
mod statements;
mod units;

pub use sources::resolved_source;
