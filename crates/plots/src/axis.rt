//! The axis of moments.

ghost use Rattle.std.specs.Prelude.{◌<◌, ◌≤◌};

use crate::frame::{LAST, LEFT, SIDE};
use crate::hundredths::Hundredths;
use crate::scale::Scale;
use crate::steps::round_step;
use std::io;
use std::io::Write;

/// The moments of a chart, spread over its width.
#[derive(Drop)]
pub(crate) struct Axis {
    begin: u64,
    end: u64,
    scale: Scale,
    ghost ordered: { begin ≤ end },
}

/// How many pixels a digit of a moment takes, and how many have to be free next to a moment.
const DIGIT_WIDTH: u32 = 7;

const SPACE_WIDTH: u32 = 36;

/// How many moments find room next to one another if the last one is this.
fn most_moments(last: u64) -> u64 {
    let digits = last.checked_ilog10().map_or(1, |more| more + 1);
    u64::from((LAST - LEFT) / (DIGIT_WIDTH * digits.min(20) + SPACE_WIDTH))
}

impl Axis {
    /// The axis from one moment to another that is not before it.
    pub(crate) fn over(begin: u64, end: u64) -> Axis {
        let end = end.max(begin);
        Axis {
            begin,
            end,
            scale: Scale::over(i128::from(begin), i128::from(end)),
        }
    }

    /// The place of a moment, from the left.
    pub(crate) fn x(&self, moment: u64) -> Hundredths {
        if self.begin == self.end {
            return Hundredths(LEFT * 100);
        }
        Hundredths(LEFT * 100 + self.scale.place(i128::from(moment), (LAST - LEFT) * 100))
    }

    /// How many milliseconds are between two moments that are written.
    fn step(&self) -> u64
        ensures { 0 < result }
    {
        let step = round_step(self.end - self.begin, most_moments(self.end).max(1));
        u64::try_from(step).unwrap_or(u64::MAX).max(1)
    }

    /// Writes an upright line at each moment of the axis's steps, from one height to another, and the moment below it.
    pub(crate) fn write<W: Write>(&self, out: &mut W, top: u64, bottom: u64) -> io::Result<()> {
        let step = self.step();
        let base = bottom.saturating_add(14);
        write!(
            out,
            "<g class=\"axis\">\n<text class=\"unit\" x=\"{SIDE}\" y=\"{base}\">ms</text>\n"
        )?;
        for count in self.begin.div_ceil(step)..=self.end / step {
            let moment = count.saturating_mul(step);
            let x = self.x(moment);
            write!(out, "<g class=\"moment\" transform=\"translate({x} 0)\">")?;
            write!(
                out,
                "<path d=\"M0 {top}V{bottom}\"/><text y=\"{base}\">{moment}</text></g>\n"
            )?;
        }
        write!(out, "</g>\n")
    }
}
