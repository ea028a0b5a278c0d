//! What is reported of a life whose rows come as lines.

use crate::files::Folder;
use crate::report::{Counts, report_with};
use crate::segments::{Segments, TraceEnd};
use core_engine::Engine;
use disk::Disk;
use durable_core::EndlessCore;
use live_drive::{Answered, Latencies, LineCounts, Missed, Observer};
use plan::Plan;
use st_meaning::Outcome;
use st_types::{Activation, Row};
use std::alloc::{AllocError, Global};
use std::io::Write;
use std::time::{Clock, Instant};

/// How lines or ticks fared so far. A refused line is reported as it comes, and so is one whose executions had faults.
#[derive(Drop)]
pub(crate) struct Tally<'a, R: Eprint + Clock, D: Folder + Drop> {
    rt: &'a R,
    /// The segments of the trace, as long as they can be written.
    segments: Option<Segments<D>>,
    /// Whether the clock makes rows, so that there is no line for each.
    by_clock: bool,
    /// When the line or the tick came that is served.
    begun: Option<Instant>,
    latencies: Latencies,
    counts: LineCounts,
    /// How many executions ended with a fault.
    faults: u64,
}

impl<'a, R: Eprint + Clock, D: Folder + Drop> Tally<'a, R, D> {
    pub(crate) fn new(rt: &'a R, by_clock: bool, segments: Option<Segments<D>>) -> Tally<'a, R, D> {
        Tally {
            rt,
            segments,
            by_clock,
            begun: None,
            latencies: Latencies::new(),
            counts: LineCounts {
                lines: 0,
                refused: 0,
                missed: 0,
            },
            faults: 0,
        }
    }

    /// Reports a number of faults on the standard error, with the line, where the header is line 1, or the row.
    fn report_faults(&self, faults: u64) {
        let lines = self.counts.lines;
        let _ = if self.by_clock {
            eprintln!(self.rt; "row {lines}: {faults} faults")
        } else {
            eprintln!(self.rt; "line {}: {faults} faults", lines.saturating_add(1))
        };
    }

    /// The trace ends, and the life goes on.
    fn stop_trace(&mut self, why: TraceEnd) {
        let _ = eprintln!(self.rt; "the trace ends: {why}");
        self.segments = None;
    }

    /// Ends the trace with the life.
    pub(crate) fn end_trace(&mut self) {
        if let Some(segments) = &mut self.segments {
            if let Err(why) = segments.end() {
                self.stop_trace(why);
            }
        }
    }

    /// Counts the time since the line was read, if there is a clock.
    fn count_latency(&mut self) {
        if let Some(begun) = self.begun {
            if let Ok(time) = begun.elapsed(self.rt) {
                let micros = u64::try_from(time.as_micros()).unwrap_or(u64::MAX);
                self.latencies.add(micros);
            }
        }
    }
}

impl<R: Eprint + Clock, D: Folder + Drop> Observer for Tally<'_, R, D> {
    fn begun(&mut self) {
        self.counts.lines = self.counts.lines.saturating_add(1);
        self.begun = Instant::now(self.rt).ok();
    }

    fn latched(&mut self, row: &Row) {
        if let Some(segments) = &mut self.segments {
            if let Err(why) = segments.latched(row) {
                self.stop_trace(why);
            }
        }
    }

    fn ran(&mut self, plan: &Plan, activation: Activation, outcome: Outcome) {
        if let Some(segments) = &mut self.segments {
            if let Err(why) = segments.ran(plan, activation, outcome) {
                self.stop_trace(why);
            }
        }
    }

    fn saved(&mut self, engine: &Engine) {
        if let Some(segments) = &mut self.segments {
            if let Err(why) = segments.saved(engine) {
                self.stop_trace(why);
            }
        }
    }

    fn answered(&mut self, answered: Answered) {
        match answered {
            Answered::Served { faults } => {
                self.faults = self.faults.saturating_add(faults);
                self.count_latency();
                if faults > 0 {
                    self.report_faults(faults);
                }
            }
            Answered::Missed(Missed::Newer) => {
                self.counts.missed = self.counts.missed.saturating_add(1);
            }
            Answered::Missed(missed) => {
                self.counts.refused = self.counts.refused.saturating_add(1);
                let number = self.counts.lines.saturating_add(1);
                let _ = eprintln!(self.rt; "line {number}: {}", missed.text());
            }
        }
    }
}

/// How often a program of the plan was due while it still waited, up to the greatest number of 64 bits.
fn overruns<D: Disk>(core: &EndlessCore<D>) -> u64 {
    let mut overruns = 0u64;
    for program in 0..core.plan().programs() {
        overruns = overruns.saturating_add(core.overruns(program));
    }
    overruns
}

/// The report of a life: how many lines came and were refused, how long served lines took, then the counts and the variables
/// as a run reports them. The feed has the counts of lines if it doesn't give them one by one. The only error is out of
/// memory.
pub(crate) fn live_report<D: Disk, R: Eprint + Clock, S: Folder + Drop>(
    alloc: Global,
    core: &EndlessCore<D>,
    tally: &Tally<'_, R, S>,
    came: Option<LineCounts>,
) -> Result<Vec<u8>, AllocError> {
    let rows = core.rows();
    let counts = Counts {
        rows,
        done: core.entries().saturating_sub(rows),
        faults: tally.faults,
        overruns: overruns(core),
        acked: Some(core.acked()),
    };
    let plan = core.plan();
    let report = report_with(
        alloc,
        &counts,
        &plan.enumerations,
        &plan.variables,
        core.values(),
    )?;
    let mut text = Vec::new(alloc);
    let latencies = &tally.latencies;
    let came = came.unwrap_or(tally.counts);
    match write!(
        text,
        "lines {}\nrefused {}\nmissed {}\np50 {} us\np99 {} us\nmax {} us\n",
        came.lines,
        came.refused,
        came.missed,
        latencies.percentile(50),
        latencies.percentile(99),
        latencies.longest()
    ) {
        Ok(()) => {}
        Err(_) => return Err(AllocError),
    }
    text.extend_from_slice(&report)?;
    Ok(text)
}
