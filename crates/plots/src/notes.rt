//! Notes on a life that is run again.

ghost use Rattle.std.specs.Prelude.{⊤};

use crate::shown::Shown;
use commit_lock::Watcher;
use plan::Plan;
use serial_core::SerialCore;
use st_meaning::Outcome;
use st_types::{Entry, Fault, Row, Value};
use std::alloc::{AllocError, Global};
use trace_segments::{Position, SegmentWatcher};

/// A value that something took at a moment in milliseconds; no moment if it had it before the first row.
#[derive(Clone, Copy)]
pub(crate) struct Change {
    pub(crate) moment: Option<u64>,
    pub(crate) value: Value,
}

/// The values that something had, one after another.
#[derive(Drop)]
pub(crate) struct Course {
    pub(crate) shown: Shown,
    pub(crate) changes: Vec<Change>,
}

/// What happened to a program.
#[derive(Clone, Copy, Debug, PartialEq, Eq)]
pub(crate) enum Happening {
    /// An execution was committed that ran to its end.
    Done,
    /// An execution was committed that ended with a fault.
    Faulted(Fault),
    /// It was due while it still waited.
    Overrun,
}

/// What happened to a program, and when, in milliseconds.
#[derive(Clone, Copy, Debug, PartialEq, Eq)]
pub(crate) struct Event {
    pub(crate) moment: u64,
    pub(crate) happening: Happening,
}

/// The events of a program, one after another.
#[derive(Drop)]
pub(crate) struct History {
    pub(crate) events: Vec<Event>,
    /// How many overruns were seen.
    overruns: u64,
}

/// The notes on a life: the values shown, and the history of each program.
#[derive(Drop)]
pub(crate) struct Notes {
    pub(crate) courses: Vec<Course>,
    /// A history for each program, in declaration order.
    pub(crate) histories: Vec<History>,
    /// The first moment that was seen, and the last one.
    pub(crate) span: Option<(u64, u64)>,
}

/// A life whose values and overruns are noted.
pub(crate) trait Noted {
    /// The values of the variables, by their slots.
    fn values(&self) -> &[Value];

    /// How often a program was due while it waited.
    fn overruns(&self, program: usize) -> u64;
}

impl Noted for SerialCore {
    fn values(&self) -> &[Value] {
        self.values()
    }

    fn overruns(&self, program: usize) -> u64 {
        self.overruns(program)
    }
}

impl Noted for Position {
    fn values(&self) -> &[Value] {
        self.values()
    }

    fn overruns(&self, program: usize) -> u64 {
        self.overruns(program)
    }
}

/// The value of a variable or input, if the entry just done may have changed it.
fn value_of<L: Noted>(life: &L, row: Option<&Row>, shown: Shown) -> Option<Value> {
    match shown {
        Shown::Variable(number) => life.values().get(number).copied(),
        Shown::Input(number) => row?.image().get(number).copied(),
    }
}

impl Course {
    /// Notes a value, if it differs from the last one.
    fn note(&mut self, moment: Option<u64>, value: Value) -> Result<(), AllocError> {
        if let Some(last) = self.changes.last() {
            if last.value.is(value) {
                return Ok(());
            }
        }
        self.changes.push(Change { moment, value })?;
        Ok(())
    }
}

impl History {
    fn note(&mut self, moment: u64, happening: Happening) -> Result<(), AllocError> {
        self.events.push(Event { moment, happening })?;
        Ok(())
    }
}

impl Notes {
    /// Nothing is noted yet.
    pub(crate) fn new(alloc: Global, plan: &Plan, shown: &[Shown]) -> Result<Notes, AllocError> {
        let mut courses = Vec::new(alloc);
        for shown in shown {
            courses.push(Course {
                shown: *shown,
                changes: Vec::new(alloc),
            })?;
        }
        let mut histories = Vec::new(alloc);
        for _ in 0..plan.programs() {
            histories.push(History {
                events: Vec::new(alloc),
                overruns: 0,
            })?;
        }
        Ok(Notes {
            courses,
            histories,
            span: None,
        })
    }

    fn note_moment(&mut self, moment: u64) {
        self.span = match self.span {
            Some((begin, _)) => Some((begin, moment)),
            None => Some((moment, moment)),
        };
    }

    fn note_values<L: Noted>(
        &mut self,
        life: &L,
        row: Option<&Row>,
        moment: Option<u64>,
    ) -> Result<(), AllocError> {
        for course in &mut self.courses {
            if let Some(value) = value_of(life, row, course.shown) {
                course.note(moment, value)?;
            }
        }
        Ok(())
    }

    fn note_overruns<L: Noted>(&mut self, life: &L, moment: u64) -> Result<(), AllocError> {
        for (program, history) in self.histories.iter_mut().enumerate() {
            let overruns = life.overruns(program);
            if overruns > history.overruns {
                history.note(moment, Happening::Overrun)?;
                history.overruns = overruns;
            }
        }
        Ok(())
    }

    fn note_execution(
        &mut self,
        moment: u64,
        program: usize,
        outcome: Outcome,
    ) -> Result<(), AllocError> {
        let happening = match outcome {
            Outcome::Done => Happening::Done,
            Outcome::Faulted(fault) => Happening::Faulted(fault),
        };
        match self.histories.get_mut(program) {
            Some(history) => history.note(moment, happening),
            None => Ok(()),
        }
    }

    /// Notes the entry of this number, at this moment.
    fn note_entry(
        &mut self,
        core: &SerialCore,
        number: usize,
        moment: u64,
    ) -> Result<(), AllocError> {
        match core.entry(number) {
            Some(Entry::Row(row)) => {
                self.note_values(core, Some(row), Some(moment))?;
                self.note_overruns(core, moment)
            }
            Some(Entry::Done(activation)) => {
                self.note_values(core, None, Some(moment))?;
                match core.outcome(number) {
                    Some(outcome) => self.note_execution(moment, activation.program, outcome),
                    None => Ok(()),
                }
            }
            None => self.note_values(core, None, Some(moment)),
        }
    }
}

impl SegmentWatcher for Notes {
    fn begun(&mut self, position: &Position) -> Result<(), AllocError> {
        for (program, history) in self.histories.iter_mut().enumerate() {
            history.overruns = position.overruns(program);
        }
        // a life that begins later has its values from the last moment that was seen
        let moment = match (position.last_moment(), self.span) {
            (Some(moment), Some((_, last))) => Some(moment.max(last)),
            (moment, None) => moment,
            (None, Some((_, last))) => Some(last),
        };
        self.note_values(position, position.last_row(), moment)
    }

    fn latched(&mut self, position: &Position) -> Result<(), AllocError> {
        let Some(moment) = position.last_moment() else {
            return Ok(());
        };
        self.note_moment(moment);
        self.note_values(position, position.last_row(), Some(moment))?;
        self.note_overruns(position, moment)
    }

    fn ran(
        &mut self,
        position: &Position,
        program: usize,
        outcome: Outcome,
    ) -> Result<(), AllocError> {
        self.note_values(position, None, position.last_moment())?;
        match position.last_moment() {
            Some(moment) => self.note_execution(moment, program, outcome),
            None => Ok(()),
        }
    }
}

impl Watcher for Notes {
    // nothing is said about the notes
    ghost sees = { λ _ _ _. ⊤ };

    fn seen(&mut self, core: &SerialCore) -> Result<(), AllocError> {
        let Some(moment) = core.last_moment() else {
            return self.note_values(core, None, None);
        };
        self.note_moment(moment);
        match core.len().checked_sub(1) {
            Some(number) => self.note_entry(core, number, moment),
            None => self.note_values(core, None, Some(moment)),
        }
    }
}
