//! Strips that show how a number changes.

ghost use Rattle.std.specs.Prelude.{◌≤◌};

use crate::axis::Axis;
use crate::chart::{Level, Line, Point, Shape};
use crate::frame::{
    BAND_HEIGHT, GAP, HEADING, LEFT, LEVEL_HEIGHT, MOST_LEVELS, RIGHT, SIDE, STEPS_HEIGHT,
};
use crate::hundredths::Hundredths;
use crate::scale::Scale;
use crate::text::write_text;
use std::io;
use std::io::Write;

/// How high the drawing of a line is.
fn drawing_height(line: &Line) -> u32
    ensures { result ≤ 112 }
{
    match line.shape {
        Shape::Band => BAND_HEIGHT,
        Shape::Steps => {
            let levels = line.levels.len().min(MOST_LEVELS) as u32;
            STEPS_HEIGHT.max(LEVEL_HEIGHT * levels.saturating_sub(1))
        }
    }
}

/// How high its strip is.
pub(crate) fn line_height(line: &Line) -> u32 {
    HEADING + drawing_height(line) + GAP
}

/// The scale of all numbers of a line.
fn scale_of(line: &Line) -> Scale {
    let points = line.points.iter().map(|point| point.number);
    let levels = line.levels.iter().map(|level| level.number);
    let mut least = i128::MAX;
    let mut greatest = i128::MIN;
    for number in points.chain(levels) {
        least = least.min(number);
        greatest = greatest.max(number);
    }
    Scale::over(least, greatest.max(least))
}

/// A drawing: its scale and its height in pixels.
#[derive(Drop)]
struct Drawing {
    scale: Scale,
    height: u32,
    ghost low: { height ≤ 112 },
}

impl Drawing {
    /// The place of a number, from the top.
    fn y(&self, number: i128) -> Hundredths {
        let height = self.height * 100;
        Hundredths(height - self.scale.place(number, height))
    }
}

fn write_level<W: Write>(out: &mut W, drawing: &Drawing, level: &Level) -> io::Result<()> {
    let y = drawing.y(level.number);
    write!(
        out,
        "<g class=\"level\" transform=\"translate(0 {y})\"><path d=\"M{LEFT} 0H{RIGHT}\"/>"
    )?;
    write!(out, "<text x=\"{SIDE}\" y=\"4\">")?;
    write_text(out, &level.text)?;
    write!(out, "</text></g>\n")
}

/// Writes the steps as a path from the first point to the right edge.
fn write_way<W: Write>(
    out: &mut W,
    axis: &Axis,
    drawing: &Drawing,
    points: &[Point],
) -> io::Result<()> {
    let Some((first, others)) = points.split_first() else {
        return Ok(());
    };
    let mut y = drawing.y(first.number);
    write!(out, "M{} {y}", axis.x(first.moment))?;
    for point in others {
        let next = drawing.y(point.number);
        if next != y {
            write!(out, "H{}V{next}", axis.x(point.moment))?;
            y = next;
        }
    }
    write!(out, "H{RIGHT}")
}

/// Writes the area below a line of steps.
fn write_surface<W: Write>(
    out: &mut W,
    axis: &Axis,
    drawing: &Drawing,
    colour: &str,
    points: &[Point],
) -> io::Result<()> {
    let Some(first) = points.first() else {
        return Ok(());
    };
    write!(out, "<path class=\"surface\" fill=\"{colour}\" d=\"")?;
    write_way(out, axis, drawing, points)?;
    let height = drawing.height;
    write!(out, "V{height}H{}Z\"/>\n", axis.x(first.moment))
}

/// Writes the strip of a line, from its own top.
pub(crate) fn write_line<W: Write>(
    out: &mut W,
    axis: &Axis,
    colour: &str,
    line: &Line,
) -> io::Result<()> {
    let drawing = Drawing {
        scale: scale_of(line),
        height: drawing_height(line),
    };
    write!(
        out,
        "<text class=\"label\" x=\"{LEFT}\" y=\"12\" fill=\"{colour}\">"
    )?;
    write_text(out, &line.label)?;
    write!(
        out,
        "</text>\n<g class=\"drawing\" transform=\"translate(0 {HEADING})\">\n"
    )?;
    for level in line.levels.iter().take(MOST_LEVELS) {
        write_level(out, &drawing, level)?;
    }
    if line.shape == Shape::Band {
        write_surface(out, axis, &drawing, colour, &line.points)?;
    }
    write!(out, "<path class=\"steps\" stroke=\"{colour}\" d=\"")?;
    write_way(out, axis, &drawing, &line.points)?;
    write!(out, "\"/>\n</g>\n")
}
