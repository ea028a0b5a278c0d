//! Segments of a trace that are run again in a row.

ghost use Rattle.std.specs.Prelude.{◌≡◌, ◌++◌, IfOk, OnOk, length};
ghost use Rattle.trace_segments.specs.Runs.{IsRunAlone};
ghost use Rattle.trace_segments.specs.Segments.{begin_text};
ghost use Rattle.plant_main.specs.Jobs.{IsPlanFor, IsReplayOfSegments};
ghost use Rattle.plant_main.specs.SegmentRows.{IsRowTo, IsRunNext, added, first_totals, segments_text, title_text};

use crate::replaying::read_trace;
use commit_lock::{ReplayError, Replayed};
use plan::Plan;
use source_run::{Counts, Fault, Files, plan_of, report_with};
use st_meaning::Outcome;
use std::alloc::{AllocError, Global};
use std::io;
use std::io::Write;
use std::sync::Arc;
use trace_segments::{
    Ended, Position, SegmentWatcher, is_first, replay_first, replay_next, segment_budget,
};

/// The counts of segments that were run again in a row, each up to the greatest number of 64 bits.
#[derive(Drop)]
pub(crate) struct Totals {
    segments: u64,
    /// How many lives they are of: that of the first one, and each that begins in a later one.
    lives: u64,
    rows: u64,
    done: u64,
    faults: u64,
    overruns: u64,
}

impl Totals {
    /// The counts of the first segment.
    fn first(ended: &Ended) -> Totals
        ensures { result ≡ first_totals ended.now }
    {
        Totals {
            segments: 1,
            lives: 1,
            rows: ended.rows,
            done: ended.entries.saturating_sub(ended.rows),
            faults: ended.faults,
            overruns: ended.overruns,
        }
    }

    /// Counts a segment after others.
    fn add(&mut self, ended: &Ended)
        ensures { self.new ≡ added self.old ended.now }
    {
        self.segments = self.segments.saturating_add(1);
        self.lives = self.lives.saturating_add(u64::from(ended.number == 0));
        self.rows = self.rows.saturating_add(ended.rows);
        self.done = self
            .done
            .saturating_add(ended.entries.saturating_sub(ended.rows));
        self.faults = self.faults.saturating_add(ended.faults);
        self.overruns = self.overruns.saturating_add(ended.overruns);
    }
}

/// Whether the text begins as a segment does.
pub(crate) fn is_segment(text: &[u8]) -> bool {
    text.starts_with(b"trace 2\n")
}

/// Nobody watches.
#[derive(Drop)]
struct Nobody;

impl SegmentWatcher for Nobody {
    fn begun(&mut self, _: &Position) -> Result<(), AllocError> {
        Ok(())
    }

    fn latched(&mut self, _: &Position) -> Result<(), AllocError> {
        Ok(())
    }

    fn ran(&mut self, _: &Position, _: usize, _: Outcome) -> Result<(), AllocError> {
        Ok(())
    }
}

/// Segments of one source, of which the first is read.
#[derive(Drop)]
pub(crate) struct Segments<'a> {
    first: Vec<u8>,
    /// The names of the files of the others.
    others: &'a [String],
    pub(crate) plan: Arc<Plan>,
}

/// Segments that were run again in a row: their counts, and where the last one has ended.
#[derive(Drop)]
pub(crate) struct RunAgain {
    totals: Totals,
    last: Ended,
}

/// Runs a segment again, alone.
fn run_alone<W: SegmentWatcher>(
    alloc: Global,
    plan: &Arc<Plan>,
    text: &[u8],
    watcher: &mut W,
) -> Result<Ended, ReplayError>
    ensures { IfOk result (λ ended. IsRunAlone plan.now.value text.now ended) }
{
    match Arc::clone(plan) {
        Ok(plan) => replay_first(alloc, plan, text, watcher),
        Err(_) => Err(ReplayError::NoMemory),
    }
}

/// Runs a segment again after one that has ended: alone if it is the first of another life, else as the next one.
fn run_next<W: SegmentWatcher>(
    alloc: Global,
    plan: &Arc<Plan>,
    before: Ended,
    text: &[u8],
    watcher: &mut W,
) -> Result<Ended, ReplayError>
    ensures { IfOk result (λ ended. IsRunNext plan.now.value before text.now ended) }
{
    if !is_first(text) {
        return replay_next(alloc, before, text, watcher);
    }
    let ended = run_alone(alloc, plan, text, watcher)?;
    if ended.number == 0 {
        Ok(ended)
    } else {
        Err(ReplayError::Form)
    }
}

impl<'a> Segments<'a> {
    /// Builds the source for the budget in the first segment.
    pub(crate) fn new<F: Files>(
        alloc: Global,
        files: &mut F,
        source: &str,
        first: Vec<u8>,
        others: &'a [String],
    ) -> Result<Segments<'a>, Fault>
        ensures plan { IfOk result (λ segments. IsPlanFor begin_text first.items segments.plan.value) }
        ensures first { IfOk result (λ segments. segments.first ≡ first) }
        ensures others { IfOk result (λ segments. segments.others ≡ others.entry) }
    {
        let budget = match segment_budget(&first) {
            Ok(budget) => budget,
            Err(error) => return Err(Fault::Trace(error)),
        };
        let plan = plan_of(alloc, files, source, budget)?;
        let plan = Arc::new(alloc, plan)?;
        Ok(Segments {
            first,
            others,
            plan,
        })
    }

    /// Runs them again in a row.
    pub(crate) fn run_again<F: Files, W: SegmentWatcher>(
        &self,
        alloc: Global,
        files: &mut F,
        watcher: &mut W,
    ) -> Result<RunAgain, ReplayError>
        ensures { IfOk result (λ run. IsRowTo self.now.plan.value self.now.first.items (length self.now.others.now)
            run.totals run.last) }
    {
        let mut last = run_alone(alloc, &self.plan, &self.first, watcher)?;
        let mut totals = Totals::first(&last);
        for name in self.others {
            let text = read_trace(alloc, files, name)?;
            last = run_next(alloc, &self.plan, last, &text, watcher)?;
            totals.add(&last);
        }
        Ok(RunAgain { totals, last })
    }
}

/// Appends how many segments there were, of how many lives, and whether the last one is cut off.
fn push_title(text: &mut Vec<u8>, totals: &Totals, last: &Ended) -> io::Result<()>
    ensures { OnOk result (text.new.items ≡ text.old.items ++ title_text totals.now last.now) }
{
    writeln!(text, "segments {}", totals.segments)?;
    writeln!(text, "lives {}", totals.lives)?;
    if last.is_whole {
        return Ok(());
    }
    writeln!(text, "the last segment is cut off")
}

impl RunAgain {
    /// The findings as those of a run.
    pub(crate) fn findings(&self, alloc: Global) -> Result<Replayed, AllocError> {
        Ok(Replayed {
            rows: self.totals.rows,
            done: self.totals.done,
            faults: self.totals.faults,
            overruns: self.totals.overruns,
            values: Vec::from_slice(alloc, self.last.position.values())?,
        })
    }

    /// The report: how many segments there were, of how many lives, and then as a run reports. The error is out of memory.
    fn report(&self, alloc: Global) -> Result<Vec<u8>, AllocError>
        ensures { IfOk result (λ text. text.items ≡ segments_text self.now.totals self.now.last) }
    {
        let plan = self.last.position.plan();
        let counts = Counts {
            rows: self.totals.rows,
            done: self.totals.done,
            faults: self.totals.faults,
            overruns: self.totals.overruns,
            acked: None,
        };
        let report = report_with(
            alloc,
            &counts,
            &plan.enumerations,
            &plan.variables,
            self.last.position.values(),
        )?;
        let mut text = Vec::new(alloc);
        if push_title(&mut text, &self.totals, &self.last).is_err() {
            return Err(AllocError);
        }
        text.extend_from_slice(&report)?;
        Ok(text)
    }
}

/// Builds the source for the budget in the first of the segments, runs them again in a row, and gives the report.
pub(crate) fn replay_segments<F: Files>(
    alloc: Global,
    files: &mut F,
    source: &str,
    first: Vec<u8>,
    others: &[String],
) -> Result<Vec<u8>, Fault>
    ensures { IfOk result (λ text. IsReplayOfSegments first.items (length others.now) text.items) }
{
    let segments = Segments::new(alloc, files, source, first, others)?;
    match segments.run_again(alloc, files, &mut Nobody) {
        Ok(again) => Ok(again.report(alloc)?),
        Err(error) => Err(Fault::Trace(error)),
    }
}
