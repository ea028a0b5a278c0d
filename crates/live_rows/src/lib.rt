//! Rows of a plant as they come: lines of an input that goes on, and the row that a line spells.
//!
//! Lines are read in bounded memory, whatever comes. A line without its line feed is not taken for a row, since a row that was
//! cut off may spell another one.
#![tactic(auto)]

mod fields;
mod laws;
mod line_reader;
mod row_reader;
mod timed_line;

pub use laws::{
    a_line_spells_a_row, a_line_spells_one_row, bytes_begin_with_one_line, lines_end_so,
    moments_stand_before_lines,
};
pub use line_reader::{LineEnd, LineReader, MAX_LINE_BYTES};
pub use row_reader::{RowReader, moment_of};
pub use timed_line::{Moments, TimedLine};
