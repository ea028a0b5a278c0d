//! The rules on declarations: names that are declared twice, types that contain themselves or are too deep, bounds,
//! addresses.
#![tactic(auto)]

mod arrays;
mod bounds;
mod calls;
mod declarations;
mod declarings;
mod depths;
mod elements;
mod entries;
mod initial_scopes;
mod judging;
mod links;
mod long_lists;
mod names;
mod names_of;
mod parts;
mod retained;
mod scopes;
mod standard;
mod started;
mod starts;
mod statements;
mod too_deep;
mod twice_declared;

pub use bounds::{bound, elements_of_array};
pub use calls::calls_of;
pub use declarations::{declare, wrong_declarations};
pub use declarings::{Declaring, Role, declarings_of};
pub use elements::{types_in, units_in};
pub use entries::{Entry, entries_in};
pub use judging::{CheckError, answered};
pub use started::{array_at, field_of};
pub use starts::{Start, starts_of};
pub use statements::all_in;
