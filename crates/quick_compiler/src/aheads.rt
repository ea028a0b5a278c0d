//! The ticks that each way takes ahead.
//!
//! At a branch no ticks are ahead. So each way takes those of the statements up to the next branch, past jumps too, which
//! are counted in the code itself, from its end on. A jump takes none but the first one, with which a run begins.

use crate::legs::{Leg, is_count, is_turning, with_leg};
use crate::sheet::{Line, Point, Sheet};
use crate::stop::Stop;
use crate::unit::narrow;
use quick_code::{QuickCode, QuickInstr, Way};
use std::alloc::Global;

/// How many ticks are taken between each instruction and the next branch. They are stored from the last instruction on.
pub struct Aheads<'a> {
    sheet: &'a Sheet,
    counts: Vec<usize>,
}

impl Drop for Aheads<'_> {
    fn drop(self) {
        let Self {
            sheet: _,
            counts: _,
        } = self;
    }
}

impl Aheads<'_> {
    /// Counts the ticks of code.
    pub fn new(alloc: Global, sheet: &Sheet) -> Result<Aheads<'_>, Stop> {
        let mut aheads = Aheads {
            sheet,
            counts: Vec::new(alloc),
        };
        let mut below: Option<Line> = None;
        for line in sheet.lines.as_slice().iter().rev() {
            let count = aheads.count(*line, below)?;
            aheads.counts.push(count)?;
            below = Some(*line);
        }
        Ok(aheads)
    }

    /// The ticks between an instruction and the next branch, if those of the code further down are known.
    fn count(&self, line: Line, below: Option<Line>) -> Result<usize, Stop> {
        if let (QuickInstr::Jump { .. }, Some(lead)) = (line.instr, line.lead) {
            return self.at_mark(lead.mark);
        }
        if is_turning(line.instr) {
            return Ok(0);
        }
        let (Some(next), Some(count)) = (below, self.counts.last()) else {
            return Err(Stop::NotCovered);
        };
        sum(*count, difference(next.ticks, line.ticks)?)
    }

    /// The ticks between a point and the next branch.
    fn at(&self, point: Point) -> Result<usize, Stop> {
        let Some(line) = self.sheet.lines.get(point.place) else {
            return Err(Stop::NotCovered);
        };
        let behind = difference(self.sheet.lines.len(), point.place)?;
        let Some(count) = self.counts.get(difference(behind, 1)?) else {
            return Err(Stop::NotCovered);
        };
        sum(*count, difference(line.ticks, point.ticks)?)
    }

    /// The point of a mark.
    pub fn point_of(&self, mark: usize) -> Result<Point, Stop> {
        match self.sheet.marks.get(mark) {
            Some(Some(point)) => Ok(*point),
            _ => Err(Stop::NotCovered),
        }
    }

    /// The ticks between the point of a mark and the next branch.
    pub fn at_mark(&self, mark: usize) -> Result<usize, Stop> {
        self.at(self.point_of(mark)?)
    }

    /// The way to a mark, which takes some ticks more.
    fn way(&self, mark: usize, more: usize) -> Result<Way, Stop> {
        Ok(Way {
            place: narrow(self.point_of(mark)?.place)?,
            ticks: narrow(sum(self.at_mark(mark)?, more)?)?,
        })
    }

    /// An instruction of the code with its ways.
    fn led(&self, place: usize, line: Line) -> Result<QuickInstr, Stop> {
        let Some(lead) = line.lead else {
            return Ok(line.instr);
        };
        let way = self.way(lead.mark, usize::from(lead.is_turn))?;
        let leg = match line.instr {
            QuickInstr::Jump { .. } if place > 0 => Leg {
                way: Way { ticks: 0, ..way },
                past: 0,
            },
            QuickInstr::Jump { .. } => Leg { way, past: 0 },
            _ => Leg {
                way,
                past: self.past(place, line)?,
            },
        };
        Ok(with_leg(line.instr, leg))
    }

    /// The ticks of a branch that is not taken.
    fn past(&self, place: usize, line: Line) -> Result<u16, Stop> {
        let next = Point {
            place: sum(place, 1)?,
            ticks: line.ticks,
        };
        narrow(sum(self.at(next)?, usize::from(is_count(line.instr)))?)
    }

    /// The code with all its ways.
    pub fn code(&self, alloc: Global) -> Result<QuickCode, Stop> {
        let mut instrs = Vec::with_capacity(alloc, self.sheet.lines.len())?;
        for (place, line) in self.sheet.lines.as_slice().iter().enumerate() {
            instrs.push(self.led(place, *line)?)?;
        }
        let mut ways = Vec::with_capacity(alloc, self.sheet.table.len())?;
        for mark in &self.sheet.table {
            ways.push(self.way(*mark, 0)?)?;
        }
        Ok(QuickCode { instrs, ways })
    }
}

fn sum(one: usize, other: usize) -> Result<usize, Stop> {
    one.checked_add(other).ok_or(Stop::NotCovered)
}

fn difference(one: usize, other: usize) -> Result<usize, Stop> {
    one.checked_sub(other).ok_or(Stop::NotCovered)
}
