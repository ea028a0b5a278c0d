//! Plots: a trace that is run again, as a picture of values, executions and overruns over time.
//!
//! A picture is strips of values and marks over one axis of moments, in SVG that a browser shows.
#![tactic(auto)]

mod axis;
mod chart;
mod chart_lanes;
mod chart_lines;
mod colours;
mod frame;
mod hundredths;
mod labels;
mod lanes;
mod lines;
mod notes;
mod picture;
mod plotting;
mod scale;
mod shown;
mod steps;
mod text;

pub use chart::{Chart, Lane, Lanes, Level, Line, Mark, Point, Shape, Sign, Strip};
pub use frame::MOST_LEVELS;
pub use picture::write_chart;
pub use plotting::{Plot, SegmentNotes, gather, write_plot};
pub use scale::Scale;
pub use shown::{MOST_VARIABLES, Shown, find, first_variables};
pub use steps::round_step;
pub use text::write_text;
