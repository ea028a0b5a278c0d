//! From a trace to a picture.

ghost use Rattle.std.specs.Prelude.{◌≢◌, IfOk, IfErr};
ghost use Rattle.st_meaning.specs.Restarts.{Start};
ghost use Rattle.st_meaning.specs.Logs.{Log};
ghost use Rattle.durable_core.specs.declared.starting.StartMode.{StartMode};
ghost use Rattle.trace.specs.declared.trace_error.ReplayError.{ReplayError};
ghost use Rattle.commit_lock.specs.Replays.{AreFindings, IsTrace};

use crate::chart::{Chart, Strip};
use crate::lanes::lanes;
use crate::lines::line;
use crate::notes::{Course, Notes};
use crate::picture::write_chart;
use crate::shown::Shown;
use commit_lock::{ReplayError, Replayed, replay_watched};
use plan::Plan;
use st_meaning::Outcome;
use st_types::Row;
use std::alloc::{AllocError, Global};
use std::io;
use std::io::Write;
use std::sync::Arc;
use trace_segments::{Position, SegmentWatcher};

/// The contents of a plot: a life that was run again, the values shown, and the history of each program.
pub struct Plot {
    /// The findings on the life.
    pub found: Replayed,
    notes: Notes,
}

impl Drop for Plot {
    fn drop(self) {
        let Self { found: _, notes: _ } = self;
    }
}

/// Runs a trace again over the first of these rows, as `replay_text` does, and gathers the contents of a plot.
///
/// V1 to V4 if the text isn't a trace of the plan, V5 out of memory.
pub fn gather(
    alloc: Global,
    plan: Arc<Plan>,
    rows: &[Row],
    text: &[u8],
    shown: &[Shown],
) -> Result<Plot, ReplayError>
    ensures told { IfOk result (λ p. (mode : StartMode) × (start : Start) × (log : Log)
        × IsTrace plan.value rows.now text.now mode start log
        × AreFindings plan.value start log p.found.rows p.found.done p.found.faults p.found.overruns
        p.found.values.items) }
    ensures refused { IfErr result (λ e. e ≢ ReplayError.NoMemory
        → (mode : StartMode) (start : Start) (log : Log) → IsTrace plan.value rows.now text.now mode start log → ⊥) }
{
    let mut notes = match Notes::new(alloc, &plan, shown) {
        Ok(notes) => notes,
        Err(_) => return Err(ReplayError::NoMemory),
    };
    match replay_watched(alloc, plan, rows, text, &mut notes) {
        Ok(found) => Ok(Plot { found, notes }),
        Err(error) => Err(error),
    }
}

/// The notes on segments that are run again, for a plot.
pub struct SegmentNotes {
    notes: Notes,
}

impl Drop for SegmentNotes {
    fn drop(self) {
        let Self { notes: _ } = self;
    }
}

impl SegmentNotes {
    /// Nothing is noted yet of these variables. The error is out of memory.
    pub fn new(alloc: Global, plan: &Plan, shown: &[Shown]) -> Result<SegmentNotes, AllocError> {
        Ok(SegmentNotes {
            notes: Notes::new(alloc, plan, shown)?,
        })
    }

    /// The plot of what was noted, with these findings.
    pub fn plot(self, found: Replayed) -> Plot {
        let SegmentNotes { notes } = self;
        Plot { found, notes }
    }
}

impl SegmentWatcher for SegmentNotes {
    fn begun(&mut self, position: &Position) -> Result<(), AllocError> {
        self.notes.begun(position)
    }

    fn latched(&mut self, position: &Position) -> Result<(), AllocError> {
        self.notes.latched(position)
    }

    fn ran(
        &mut self,
        position: &Position,
        program: usize,
        outcome: Outcome,
    ) -> Result<(), AllocError> {
        self.notes.ran(position, program, outcome)
    }
}

/// How many variables of the plan are not shown.
fn left_out(plan: &Plan, courses: &[Course]) -> usize {
    let is_shown = |number| {
        courses
            .iter()
            .any(|course| course.shown == Shown::Variable(number))
    };
    (0..plan.slots())
        .filter(|number| !is_shown(*number))
        .count()
}

/// The note on a plot in small print.
fn note(alloc: Global, plan: &Plan, plot: &Plot) -> Result<String, AllocError> {
    let Replayed {
        rows,
        done,
        faults,
        overruns,
        ..
    } = &plot.found;
    let mut note = format!(in alloc;
        "rows {rows}, done {done}, faults {faults}, overruns {overruns}"
    )?;
    let left_out = left_out(plan, &plot.notes.courses);
    if left_out > 0 {
        write!(note, "; {left_out} of the variables are not shown")?;
    }
    Ok(note)
}

/// The strips of a plot, those of values before those of executions.
fn strips(alloc: Global, plan: &Plan, begin: u64, notes: &Notes) -> Result<Vec<Strip>, AllocError> {
    let mut strips = Vec::new(alloc);
    for course in &notes.courses {
        if let Some(line) = line(alloc, plan, begin, course)? {
            strips.push(Strip::Line(line))?;
        }
    }
    for resource in 0..plan.resources() {
        if let Some(lanes) = lanes(alloc, plan, resource, &notes.histories)? {
            strips.push(Strip::Lanes(lanes))?;
        }
    }
    Ok(strips)
}

fn chart(alloc: Global, plan: &Plan, plot: &Plot, title: &str) -> Result<Chart, AllocError> {
    let (begin, end) = plot.notes.span.unwrap_or((0, 0));
    Ok(Chart {
        title: String::from_str(alloc, title)?,
        note: note(alloc, plan, plot)?,
        begin,
        end,
        strips: strips(alloc, plan, begin, &plot.notes)?,
    })
}

/// Writes a plot of a life of this plan as a picture in SVG under a title, in many small parts. An error is the
/// writer's, or out of memory.
pub fn write_plot<W: Write>(
    alloc: Global,
    plan: &Plan,
    plot: &Plot,
    title: &str,
    out: &mut W,
) -> io::Result<()> {
    let chart = chart(alloc, plan, plot, title)?;
    write_chart(out, &chart)
}
