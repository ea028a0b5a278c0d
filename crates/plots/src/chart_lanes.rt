//! Strips that show what happens when.

use crate::axis::Axis;
use crate::chart::{Lane, Lanes, Mark, Sign};
use crate::colours::colour;
use crate::frame::{GAP, HEADING, LANE_HEIGHT, LEFT, RIGHT, SIDE};
use crate::hundredths::Hundredths;
use crate::text::write_text;
use std::io;
use std::io::Write;

/// How high a strip of lanes is.
pub(crate) fn lanes_height(lanes: &Lanes) -> u64 {
    let number = lanes.lanes.len() as u64;
    number
        .saturating_mul(u64::from(LANE_HEIGHT))
        .saturating_add(u64::from(HEADING + GAP))
}

/// Marks of one sign that are nearer than this are drawn as one, in hundredths of a pixel.
const NEAR: u32 = 50;

/// Whether a mark at this place merges with the last one that was drawn.
fn is_near(last: Option<Hundredths>, x: Hundredths) -> bool {
    match last {
        Some(last) => last.0.abs_diff(x.0) < NEAR,
        None => false,
    }
}

/// Writes the ticks as one path.
fn write_ticks<W: Write>(out: &mut W, axis: &Axis, colour: &str, marks: &[Mark]) -> io::Result<()> {
    write!(out, "<path class=\"ticks\" stroke=\"{colour}\" d=\"")?;
    let mut last = None;
    for mark in marks {
        let x = axis.x(mark.moment);
        if mark.sign == Sign::Tick && !is_near(last, x) {
            write!(out, "M{x} 3v10")?;
            last = Some(x);
        }
    }
    write!(out, "\"/>\n")
}

/// The path of a sign, from its place, and the name of its class.
fn drawing_of(sign: Sign) -> (&'static str, &'static str) {
    match sign {
        Sign::Tick => ("tick", "M0 3v10"),
        Sign::Cross => ("cross", "M-4 4l8 8m0 -8l-8 8"),
        Sign::Triangle => ("triangle", "M0 15l4.5 7h-9z"),
    }
}

/// Writes the beginning of a sign at a place from the left, moved down by `y` pixels.
pub(crate) fn write_sign<W: Write>(
    out: &mut W,
    x: Hundredths,
    y: i32,
    sign: Sign,
) -> io::Result<()> {
    let (class, way) = drawing_of(sign);
    write!(
        out,
        "<path class=\"{class}\" transform=\"translate({x} {y})\" d=\"{way}\""
    )
}

/// Writes the marks of a sign, each with its word and its moment.
fn write_marks<W: Write>(out: &mut W, axis: &Axis, sign: Sign, marks: &[Mark]) -> io::Result<()> {
    let mut last = None;
    for mark in marks {
        let x = axis.x(mark.moment);
        if mark.sign == sign && !is_near(last, x) {
            let moment = mark.moment;
            write_sign(out, x, 0, sign)?;
            write!(out, "><title>")?;
            write_text(out, mark.word)?;
            write!(out, " at {moment} ms</title></path>\n")?;
            last = Some(x);
        }
    }
    Ok(())
}

fn write_lane<W: Write>(out: &mut W, axis: &Axis, colour: &str, lane: &Lane) -> io::Result<()> {
    write!(
        out,
        "<path class=\"base\" d=\"M{LEFT} 13H{RIGHT}\"/><text class=\"name\" x=\"{SIDE}\" y=\"12\">"
    )?;
    write_text(out, &lane.label)?;
    write!(out, "</text>\n")?;
    write_ticks(out, axis, colour, &lane.marks)?;
    write_marks(out, axis, Sign::Triangle, &lane.marks)?;
    write_marks(out, axis, Sign::Cross, &lane.marks)
}

/// Writes a strip of lanes, from its own top.
pub(crate) fn write_lanes<W: Write>(out: &mut W, axis: &Axis, lanes: &Lanes) -> io::Result<()> {
    write!(out, "<text class=\"label\" x=\"{LEFT}\" y=\"12\">")?;
    write_text(out, &lanes.label)?;
    write!(out, "</text>\n")?;
    let mut top = u64::from(HEADING);
    for (number, lane) in lanes.lanes.iter().enumerate() {
        write!(out, "<g class=\"lane\" transform=\"translate(0 {top})\">\n")?;
        write_lane(out, axis, colour(number), lane)?;
        write!(out, "</g>\n")?;
        top = top.saturating_add(u64::from(LANE_HEIGHT));
    }
    Ok(())
}
