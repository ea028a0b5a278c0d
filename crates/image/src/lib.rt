//! Recorded plants: the rows of a CSV text.
//!
//! A row that is given has a value of its type for each input of the plan, and a moment that is later than that of
//! the row before. A plant is read whole or refused.
#![tactic(auto)]

mod header;
mod plant;
mod plant_error;
mod row;

pub use header::is_header;
pub use plant::read_plant;
pub use plant_error::PlantError;
pub use row::row_of;
