//! Charts as pictures.

use crate::axis::Axis;
use crate::chart::{Chart, Sign, Strip};
use crate::chart_lanes::{lanes_height, write_lanes, write_sign};
use crate::chart_lines::{line_height, write_line};
use crate::colours::colour;
use crate::frame::{FOOT, HEAD, LEFT, MARGIN, WIDTH};
use crate::hundredths::Hundredths;
use crate::text::write_text;
use std::io;
use std::io::Write;

/// How the parts of a picture look.
const STYLE: &str = "<style>
text { font: 11px Helvetica, Arial, sans-serif; }
.ground { fill: #fdfdfb; }
.title { font-size: 16px; font-weight: bold; }
.steps, .ticks, .tick, .cross, .moment path, .level path, .base { fill: none; }
.note, .legend text, .moment text, .unit, .level text { font-size: 10px; fill: #666; }
.label { font-weight: bold; }
.moment text { text-anchor: middle; }
.unit, .level text, .name { text-anchor: end; }
.moment path, .level path, .base { stroke: #ddd; stroke-width: 1; }
.steps { stroke-width: 1.5; }
.surface { fill-opacity: 0.2; }
.ticks { stroke-width: 1; }
.tick { stroke: #333; stroke-width: 1; }
.cross { stroke: #d32f2f; stroke-width: 2; }
.triangle { fill: #f57c00; }
</style>
";

/// How high a strip is.
fn strip_height(strip: &Strip) -> u64 {
    match strip {
        Strip::Line(line) => u64::from(line_height(line)),
        Strip::Lanes(lanes) => lanes_height(lanes),
    }
}

/// Where the last strip ends.
fn bottom_of(strips: &[Strip]) -> u64 {
    let mut bottom = HEAD;
    for strip in strips {
        bottom = bottom.saturating_add(strip_height(strip));
    }
    bottom
}

/// Writes the meaning of the marks, next to one another.
fn write_legend<W: Write>(out: &mut W) -> io::Result<()> {
    write!(
        out,
        "<g class=\"legend\" transform=\"translate({LEFT} 44)\">\n"
    )?;
    for (x, y, sign, word) in [
        (0, 0, Sign::Tick, "execution"),
        (100, 0, Sign::Cross, "ended with a fault"),
        (240, -10, Sign::Triangle, "overrun"),
    ] {
        write_sign(out, Hundredths(x * 100), y, sign)?;
        write!(out, "/><text x=\"{}\" y=\"12\">{word}</text>\n", x + 10)?;
    }
    write!(out, "</g>\n")
}

/// Writes the part above the strips, for a picture of this height.
fn write_head<W: Write>(out: &mut W, chart: &Chart, height: u64) -> io::Result<()> {
    write!(
        out,
        "<svg xmlns=\"http://www.w3.org/2000/svg\" width=\"{WIDTH}\" height=\"{height}\""
    )?;
    write!(out, " viewBox=\"0 0 {WIDTH} {height}\">\n")?;
    out.write_all(STYLE.as_bytes())?;
    write!(
        out,
        "<rect class=\"ground\" width=\"{WIDTH}\" height=\"{height}\"/>\n"
    )?;
    write!(out, "<text class=\"title\" x=\"{MARGIN}\" y=\"24\">")?;
    write_text(out, &chart.title)?;
    write!(
        out,
        "</text>\n<text class=\"note\" x=\"{MARGIN}\" y=\"40\">"
    )?;
    write_text(out, &chart.note)?;
    write!(out, "</text>\n")
}

fn write_strip<W: Write>(out: &mut W, axis: &Axis, number: usize, strip: &Strip) -> io::Result<()> {
    match strip {
        Strip::Line(line) => write_line(out, axis, colour(number), line),
        Strip::Lanes(lanes) => write_lanes(out, axis, lanes),
    }
}

/// The class of a strip.
fn class_of(strip: &Strip) -> &'static str {
    match strip {
        Strip::Line(_) => "line",
        Strip::Lanes(_) => "lanes",
    }
}

/// Writes a chart as a picture in SVG: its title, its strips one below the other, and the axis below them.
pub fn write_chart<W: Write>(out: &mut W, chart: &Chart) -> io::Result<()> {
    let axis = Axis::over(chart.begin, chart.end);
    let bottom = bottom_of(&chart.strips);
    write_head(out, chart, bottom.saturating_add(FOOT))?;
    if chart
        .strips
        .iter()
        .any(|strip| matches!(strip, Strip::Lanes(_)))
    {
        write_legend(out)?;
    }
    axis.write(out, HEAD, bottom)?;
    let mut top = HEAD;
    for (number, strip) in chart.strips.iter().enumerate() {
        let class = class_of(strip);
        write!(
            out,
            "<g class=\"{class}\" transform=\"translate(0 {top})\">\n"
        )?;
        write_strip(out, &axis, number, strip)?;
        write!(out, "</g>\n")?;
        top = top.saturating_add(strip_height(strip));
    }
    write!(out, "</svg>\n")
}
