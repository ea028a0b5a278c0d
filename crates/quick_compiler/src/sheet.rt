//! Code that is being written.

use crate::stop::Stop;
use crate::unit::narrow;
use quick_code::{QuickInstr, Way};
use std::alloc::Global;

/// The greatest number of instructions of quick code: each place is a number of 16 bits.
const MAX_INSTRUCTIONS: usize = 65535;

/// The greatest number of ticks that the statements of a draft may take, calls in place.
const MAX_TICKS: usize = 4_000_000;

/// A way that is not known yet.
pub const NO_WAY: Way = Way { place: 0, ticks: 0 };

/// A point of the code: the instruction that follows it, and how many ticks the statements before it take.
#[derive(Clone, Copy)]
pub struct Point {
    pub place: usize,
    pub ticks: usize,
}

/// Where a branch leads.
#[derive(Clone, Copy)]
pub struct BranchMark {
    /// The number of a mark.
    pub mark: usize,
    /// A turn of a loop takes a tick on the way.
    pub is_turn: bool,
}

/// An instruction, with the ticks of the statements before it, and where it leads.
#[derive(Clone, Copy)]
pub struct Line {
    pub instr: QuickInstr,
    pub ticks: usize,
    pub lead: Option<BranchMark>,
}

/// Code that is being written, from its beginning on.
pub struct Sheet {
    pub lines: Vec<Line>,
    /// The points that ways lead to, once they are known.
    pub marks: Vec<Option<Point>>,
    /// The marks that the ways of switches lead to.
    pub table: Vec<usize>,
    /// The ticks of all statements so far.
    ticks: usize,
    /// How many words there are.
    pub words: usize,
}

impl Drop for Sheet {
    fn drop(self) {
        let Self {
            lines: _,
            marks: _,
            table: _,
            ticks: _,
            words: _,
        } = self;
    }
}

impl Sheet {
    /// No code yet, over this number of words.
    pub fn new(alloc: Global, words: usize) -> Sheet {
        Sheet {
            lines: Vec::new(alloc),
            marks: Vec::new(alloc),
            table: Vec::new(alloc),
            ticks: 0,
            words,
        }
    }

    fn write(&mut self, instr: QuickInstr, lead: Option<BranchMark>) -> Result<(), Stop> {
        if self.lines.len() >= MAX_INSTRUCTIONS {
            return Err(Stop::NotCovered);
        }
        self.lines.push(Line {
            instr,
            ticks: self.ticks,
            lead,
        })?;
        Ok(())
    }

    /// Writes an instruction.
    pub fn put(&mut self, instr: QuickInstr) -> Result<(), Stop> {
        self.write(instr, None)
    }

    /// Writes the instruction of an operation, if there is one.
    pub fn put_for(&mut self, instr: Option<QuickInstr>) -> Result<(), Stop> {
        match instr {
            Some(instr) => self.write(instr, None),
            None => Err(Stop::NotCovered),
        }
    }

    /// Writes the branch of an operation, if there is one, which leads to a mark.
    pub fn put_branch(&mut self, instr: Option<QuickInstr>, lead: BranchMark) -> Result<(), Stop> {
        match instr {
            Some(instr) => self.write(instr, Some(lead)),
            None => Err(Stop::NotCovered),
        }
    }

    /// Goes on at a mark.
    pub fn jump(&mut self, mark: usize) -> Result<(), Stop> {
        let lead = BranchMark {
            mark,
            is_turn: false,
        };
        self.write(QuickInstr::Jump { way: NO_WAY }, Some(lead))
    }

    /// A statement takes its tick.
    pub fn tick(&mut self) -> Result<(), Stop> {
        if self.ticks >= MAX_TICKS {
            return Err(Stop::NotCovered);
        }
        self.ticks += 1;
        Ok(())
    }

    /// A new mark, of a point that is not known yet.
    pub fn mark(&mut self) -> Result<usize, Stop> {
        let mark = self.marks.len();
        self.marks.push(None)?;
        Ok(mark)
    }

    /// The point of a mark is here.
    pub fn bind(&mut self, mark: usize) -> Result<(), Stop> {
        if mark >= self.marks.len() {
            return Err(Stop::NotCovered);
        }
        self.marks[mark] = Some(Point {
            place: self.lines.len(),
            ticks: self.ticks,
        });
        Ok(())
    }

    /// A way of the table leads to a mark.
    pub fn put_way(&mut self, mark: usize) -> Result<(), Stop> {
        self.table.push(mark)?;
        Ok(())
    }

    /// The number of the next way of the table.
    pub fn next_way(&self) -> Result<u16, Stop> {
        narrow(self.table.len())
    }

    /// Makes the number of words at least this one.
    pub fn need_words(&mut self, words: usize) {
        if self.words < words {
            self.words = words;
        }
    }
}
