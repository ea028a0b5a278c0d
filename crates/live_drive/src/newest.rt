//! The newest row of an input that another thread reads.

use crate::feed::{FeedEnd, Incoming, LineCounts};
use crate::line_feed::read_line;
use live_rows::{LineReader, RowReader, TimedLine};
use plan::Plan;
use st_types::Row;
use std::alloc::{AllocError, Global};
use std::io::Read;
use std::sync::{Mutex, Wait};

/// What has come of an input so far. The thread that reads puts rows here, and the one that latches takes them.
#[derive(Drop)]
pub struct Newest {
    /// The newest row, unless it was taken.
    row: Option<Row>,
    counts: LineCounts,
    /// How the input has ended, if it has.
    end: Option<FeedEnd>,
}

/// What was taken.
#[derive(Drop)]
pub(crate) struct Taken {
    /// The newest row, unless it was taken before.
    pub(crate) row: Option<Row>,
    pub(crate) counts: LineCounts,
    pub(crate) end: Option<FeedEnd>,
}

impl Newest {
    /// Nothing has come.
    pub fn new() -> Newest {
        Newest {
            row: None,
            counts: LineCounts {
                lines: 0,
                refused: 0,
                missed: 0,
            },
            end: None,
        }
    }

    /// A line has come, with this row if it spells one. It gives the line's number; the header is line 1.
    fn put(&mut self, incoming: Incoming) -> u64 {
        let counts = &mut self.counts;
        counts.lines = counts.lines.saturating_add(1);
        let number = counts.lines.saturating_add(1);
        match incoming {
            Incoming::Row(row) => {
                if self.row.is_some() {
                    counts.missed = counts.missed.saturating_add(1);
                }
                self.row = Some(row);
            }
            Incoming::NoRow(_) | Incoming::Old(_) => {
                counts.refused = counts.refused.saturating_add(1);
            }
        }
        number
    }

    pub(crate) fn has_ended(&self) -> bool {
        self.end.is_some()
    }

    pub(crate) fn take(&mut self) -> Taken {
        Taken {
            row: self.row.take(),
            counts: self.counts,
            end: self.end,
        }
    }
}

/// Reads lines without moments to the end of an input, and reports those that spell no row on the standard error.
fn read_all<I: Read + Drop, R: Wait + Eprint>(
    rt: &R,
    alloc: Global,
    lines: &mut LineReader<I>,
    plan: &Plan,
    newest: &Mutex<Newest>,
) -> Result<FeedEnd, AllocError> {
    let mut rows = RowReader::new(alloc);
    let mut timed = TimedLine::new(alloc)?;
    for _ in 0..u64::MAX {
        let end = match lines.next() {
            Ok(Some(end)) => end,
            Ok(None) => return Ok(FeedEnd::Ended),
            Err(_) => return Ok(FeedEnd::Unreadable),
        };
        // The row gets its moment when it is latched.
        let line = timed.timed(Some(0), lines.line())?;
        let incoming = read_line(&mut rows, alloc, plan.inputs(), end, line)?;
        let is_row = matches!(incoming, Incoming::Row(_));
        let number = newest.lock(rt).put(incoming);
        if !is_row {
            let _ = eprintln!(rt; "line {number}: refused I2");
        }
    }
    Ok(FeedEnd::Unreadable)
}

/// Reads lines without moments to the end of an input, and keeps the newest row. A thread of its own does this, since a read
/// may wait for ever.
pub fn read_newest<I: Read + Drop, R: Wait + Eprint>(
    rt: &R,
    alloc: Global,
    lines: LineReader<I>,
    plan: &Plan,
    newest: &Mutex<Newest>,
) {
    let mut lines = lines;
    let end = match read_all(rt, alloc, &mut lines, plan, newest) {
        Ok(end) => end,
        Err(_) => FeedEnd::NoMemory,
    };
    newest.lock(rt).end = Some(end);
}
