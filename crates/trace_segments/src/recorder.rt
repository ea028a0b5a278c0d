//! The text of segments, made while a life goes on.

ghost use Rattle.std.specs.Prelude.{◌≡◌, ◌+◌, ◌++◌, [], None, Some, IfOk, OnOk, length, map};
ghost use Rattle.st_types.specs.declared.entry.Entry.TheVariants as entries;
ghost use Rattle.plan.specs.declared.plan.Plan.{Plan};
ghost use Rattle.trace.specs.Texts.{end_line};
ghost use Rattle.core_engine.specs.Checkpointed.{checkpoint_of};
ghost use Rattle.trace_segments.specs.Heads.{resting};
ghost use Rattle.trace_segments.specs.Recorders.{Begins, Records};
ghost use Rattle.trace_segments.specs.Segments.{IsResting, segment_line};

use crate::head::{Head, push_head, push_row};
use core_engine::Engine;
use plan::Plan;
use st_meaning::Outcome;
use st_types::{Activation, Row};
use std::alloc::{AllocError, Global};
use std::io;
use std::io::Write;
use std::marker::Model;
use trace::put_done;

/// As many bytes as the entries of a segment have before the next row that settles ends it.
const SEGMENT_BYTES: usize = 1024 * 1024;

/// Makes the lines of the segments of a life, one after another.
#[derive(Drop)]
pub struct Recorder {
    /// The lines that are made and not yet taken.
    lines: Vec<u8>,
    /// The number of the segment, from 0.
    number: u64,
    /// How many entries it has.
    entries: u64,
    /// How many bytes its head has.
    head: usize,
    /// How many bytes of it were taken.
    taken: usize,
}

impl Model for Recorder {
    ghost use Rattle.trace_segments.specs.Recorders.{RecorderView};

    ghost Value = { RecorderView };

    ghost view = { λ r. record { lines = r.lines.items; number = r.number; entries = r.entries } };
}

/// How often each program was due while it waited.
fn overruns(alloc: Global, engine: &Engine) -> Result<Vec<u64>, AllocError>
    ensures number { IfOk result (λ ns. length ns.items ≡ length engine.now.plan.programs.items) }
    ensures progress { IfOk result (λ ns. ns.items ≡ map (λ p. p.overruns) (checkpoint_of engine.now).programs) }
{
    engine.lived();
    let mut overruns = Vec::new(alloc);
    for program in 0..engine.plan().programs() {
        overruns.push(engine.overruns(program))?;
    }
    Ok(overruns)
}

/// The error for lack of memory, or of numbers.
fn no_room() -> io::Error {
    io::Error::from(io::ErrorKind::OutOfMemory)
}

/// Appends the line of an execution that ended so.
fn push_execution(
    text: &mut Vec<u8>,
    plan: &Plan,
    activation: Activation,
    outcome: Outcome,
) -> io::Result<()>
    ensures { OnOk result (text.new.items ≡ text.old.items ++ segment_line plan.now (entries.Done activation) (Some outcome)) }
{
    let program = plan.programs.get(activation.program);
    if put_done(text, true, program, activation.row, Some(outcome)) {
        Ok(())
    } else {
        Err(no_room())
    }
}

impl Recorder {
    /// The first segment of a life, which begins where the engine is. The error is out of memory.
    pub fn begin(alloc: Global, engine: &Engine) -> io::Result<Recorder>
        ensures { IfOk result (Begins engine.now 0 []) }
    {
        let mut recorder = Recorder {
            lines: Vec::new(alloc),
            number: 0,
            entries: 0,
            head: 0,
            taken: 0,
        };
        recorder.push_head(alloc, engine)?;
        Ok(recorder)
    }

    fn push_head(&mut self, alloc: Global, engine: &Engine) -> io::Result<()>
        requires { self.old.entries ≡ 0 }
        ensures { OnOk result (Begins engine.now self.old.number self.old.lines self.new) }
    {
        let overruns = overruns(alloc, engine)?;
        engine.lived();
        let head = Head {
            rows: engine.rows(),
            first: engine.first_moment(),
            last_row: engine.last_row(),
            samples: engine.samples(),
            overruns: &overruns,
            values: engine.values(),
        };
        push_head(
            &mut self.lines,
            engine.plan(),
            self.number,
            engine.start_moment(),
            &head,
        )?;
        self.head = self.lines.len();
        Ok(())
    }

    /// A row was latched. The error is out of memory.
    pub fn push_row(&mut self, row: &Row) -> io::Result<()>
        ensures { (plan : Plan) → OnOk result (Records plan (entries.Row row.now) None self.old self.new) }
    {
        if self.entries == u64::MAX {
            return Err(no_room());
        }
        self.entries += 1;
        write!(self.lines, "row ")?;
        push_row(&mut self.lines, row.moment(), row.image())?;
        writeln!(self.lines, "")
    }

    /// An activation has run, and ended so. The error is out of memory.
    pub fn push_done(
        &mut self,
        plan: &Plan,
        activation: Activation,
        outcome: Outcome,
    ) -> io::Result<()>
        ensures { OnOk result (Records plan.now (entries.Done activation) (Some outcome) self.old self.new) }
    {
        if self.entries == u64::MAX {
            return Err(no_room());
        }
        self.entries += 1;
        push_execution(&mut self.lines, plan, activation, outcome)
    }

    /// The last line of the segment. The error is out of memory.
    pub fn push_end(&mut self) -> io::Result<()>
        ensures lines { OnOk result (self.new.lines ≡ self.old.lines ++ end_line self.old.entries) }
        ensures number { self.new.number ≡ self.old.number }
        ensures entries { self.new.entries ≡ self.old.entries }
    {
        writeln!(self.lines, "end {}", self.entries)
    }

    /// The next segment, which begins where the engine is. The error is out of memory.
    pub fn push_next(&mut self, alloc: Global, engine: &Engine) -> io::Result<()>
        ensures { OnOk result (Begins engine.now (self.old.number + 1) self.old.lines self.new) }
    {
        if self.number == u64::MAX {
            return Err(no_room());
        }
        self.number += 1;
        self.entries = 0;
        self.taken = 0;
        self.push_head(alloc, engine)
    }

    /// Whether the segment ends with the row that has settled.
    pub fn is_full(&self) -> bool {
        let bytes = self.taken.saturating_add(self.lines.len());
        bytes.saturating_sub(self.head) >= SEGMENT_BYTES
    }

    /// The lines that are made and not yet taken.
    pub fn lines(&self) -> &[u8]
        ensures { result.now ≡ self.now.lines }
    {
        &self.lines
    }

    /// The lines were taken.
    pub fn take(&mut self)
        ensures { self.new ≡ record { lines = []; number = self.old.number; entries = self.old.entries } }
    {
        self.taken = self.taken.saturating_add(self.lines.len());
        self.lines.clear();
    }
}
