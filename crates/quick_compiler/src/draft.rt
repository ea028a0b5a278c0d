//! A draft that is being made.

use crate::constants::constant_at;
use crate::known::{Known, Ways};
use crate::sheet::Sheet;
use crate::stop::Stop;
use crate::survey::Survey;
use crate::unit::{Unit, narrow};
use quick_code::QuickInstr;
use quick_trees::Noting;
use slot_trees::Anchor;
use st_types::Value;
use std::alloc::Global;

/// How many notings all landings may have.
const MAX_NOTINGS: usize = 50_000_000;

/// A point where runs come together, by its mark, and the facts known of the notes there.
#[derive(Drop)]
pub struct Promise {
    pub mark: usize,
    pub noted: Vec<Noting>,
}

/// Code that is being written, with the facts known at its end.
pub struct Draft {
    pub alloc: Global,
    pub sheet: Sheet,
    pub constants: Vec<Value>,
    pub known: Known<Noting>,
    /// The ways out of each loop around.
    pub outs: Vec<Ways<Noting>>,
    /// The ways of RETURN out of each block around, which are those to its end too.
    pub backs: Vec<Ways<Noting>>,
    pub promises: Vec<Promise>,
    /// No run comes here, so anything may be assumed.
    pub is_lost: bool,
    /// How many notings the promises have.
    notings: usize,
    pub survey: Survey,
}

impl Drop for Draft {
    fn drop(self) {
        let Self {
            alloc: _,
            sheet: _,
            constants: _,
            known: _,
            outs: _,
            backs: _,
            promises: _,
            is_lost: _,
            notings: _,
            survey: _,
        } = self;
    }
}

/// Code that is written to its end.
pub struct Written {
    pub sheet: Sheet,
    pub constants: Vec<Value>,
    pub promises: Vec<Promise>,
}

impl Draft {
    /// The code, once it is written to its end.
    pub fn into_written(self) -> Written {
        let Self {
            alloc: _,
            sheet,
            constants,
            known: _,
            outs: _,
            backs: _,
            promises,
            is_lost: _,
            notings: _,
            survey: _,
        } = self;
        Written {
            sheet,
            constants,
            promises,
        }
    }

    /// No code yet, of a program that names `named` of `slots` slots, with these constants at least.
    pub fn new(
        alloc: Global,
        named: usize,
        slots: usize,
        constants: Vec<Value>,
    ) -> Result<Draft, Stop> {
        let Some(words) = named.checked_add(constants.len()) else {
            return Err(Stop::NotCovered);
        };
        Ok(Draft {
            alloc,
            sheet: Sheet::new(alloc, words),
            constants,
            known: Known::new(alloc, named, Noting::Exact)?,
            outs: Vec::new(alloc),
            backs: Vec::new(alloc),
            promises: Vec::new(alloc),
            is_lost: false,
            notings: 0,
            survey: Survey::new(alloc, slots)?,
        })
    }

    /// The word of a constant.
    pub fn constant(&mut self, unit: Unit, value: Value) -> Result<u16, Stop> {
        let place = constant_at(&mut self.constants, value)?;
        match unit.window.count().checked_add(place) {
            Some(word) => narrow(word),
            None => Err(Stop::NotCovered),
        }
    }

    /// A temporary, which is a word.
    pub fn temporary(&mut self, depth: u16) -> u16 {
        self.sheet.need_words(depth as usize + 1);
        depth
    }

    /// Room for the facts at a landing, which comes after those before it.
    pub fn promise(&mut self, mark: usize) -> Result<usize, Stop> {
        let place = self.promises.len();
        let noted = Vec::new(self.alloc);
        self.promises.push(Promise { mark, noted })?;
        Ok(place)
    }

    fn keep(&mut self, place: usize, noted: Vec<Noting>) -> Result<(), Stop> {
        self.notings = self.notings.saturating_add(noted.len());
        if self.notings > MAX_NOTINGS || place >= self.promises.len() {
            return Err(Stop::NotCovered);
        }
        self.promises[place].noted = noted;
        Ok(())
    }

    /// The facts known here are known at a landing.
    pub fn keep_here(&mut self, place: usize) -> Result<(), Stop> {
        let noted = self.known.all()?;
        self.keep(place, noted)
    }

    /// The run goes on at a mark, and code after it is looked at from another one on.
    pub fn leave(&mut self, to: usize, behind: usize) -> Result<(), Stop> {
        self.sheet.jump(to)?;
        let place = self.promise(behind)?;
        let mut noted = Vec::new(self.alloc);
        for _ in 0..self.known.slots() {
            noted.push(Noting::Assigned)?;
        }
        self.keep(place, noted)
    }

    /// A way leads out of the loop around, or elsewhere.
    pub fn add_out(&mut self, comes: bool) -> Result<(), Stop> {
        let Some(mut ways) = self.outs.pop() else {
            return Err(Stop::NotCovered);
        };
        self.known.add(&mut ways, comes)?;
        self.outs.push(ways)?;
        Ok(())
    }

    /// A way leads to the end of the block around, if there is one, or elsewhere.
    pub fn add_back(&mut self, unit: Unit, comes: bool) -> Result<(), Stop> {
        if !unit.is_noted() {
            return Ok(());
        }
        let Some(mut ways) = self.backs.pop() else {
            return Ok(());
        };
        self.known.add(&mut ways, comes)?;
        self.backs.push(ways)?;
        Ok(())
    }

    /// A look that comes is noted, unless it is known.
    pub fn note_look(&mut self, word: u16) -> Result<(), Stop> {
        if let Some(noting) = self.known.at(word as usize)?.with_look_ahead() {
            self.sheet.put(QuickInstr::NoteRead { word })?;
            self.known.set(word as usize, noting)?;
        }
        Ok(())
    }

    /// The same for an assignment.
    pub fn note_assignment(&mut self, word: u16) -> Result<(), Stop> {
        if let Some(noting) = self.known.at(word as usize)?.with_assignment_ahead() {
            self.sheet.put(QuickInstr::NoteWritten { word })?;
            self.known.set(word as usize, noting)?;
        }
        Ok(())
    }

    /// The program looks a value up here.
    pub fn look(&mut self, unit: Unit, slot: usize) -> Result<(), Stop> {
        if self.is_lost || !unit.is_noted() {
            return Ok(());
        }
        let word = unit.word_of(Anchor::Absolute(slot))? as usize;
        let noting = self.known.at(word)?;
        match noting.at_look() {
            Some(looked) if looked == noting => Ok(()),
            Some(looked) => self.known.set(word, looked),
            None => Err(Stop::NotCovered),
        }
    }

    /// Whether it is known here that the program has looked a variable up, or assigned it.
    pub fn is_touched(&self, unit: Unit, anchor: Anchor) -> Result<bool, Stop> {
        if self.is_lost || !unit.is_noted() {
            return Ok(true);
        }
        let noting = self.known.at(unit.word_of(anchor)? as usize)?;
        Ok(noting.at_look() == Some(noting))
    }

    /// The program assigns a value here.
    pub fn assign(&mut self, unit: Unit, anchor: Anchor) -> Result<(), Stop> {
        if self.is_lost || !unit.is_noted() {
            return Ok(());
        }
        let word = unit.word_of(anchor)? as usize;
        let noting = self.known.at(word)?;
        match noting.at_assignment() {
            Some(assigned) if assigned == noting => Ok(()),
            Some(assigned) => self.known.set(word, assigned),
            None => Err(Stop::NotCovered),
        }
    }
}
