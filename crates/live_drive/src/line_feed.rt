//! Rows that come as lines.

ghost use Rattle.std.specs.Prelude.{◌≡◌, IfOk, MatchBool};
ghost use Rattle.live_drive.specs.LineFeeds.{ComesWith, EndsLines, GivesLine, HasRead, IsNew, IsOld};

use crate::feed::{Feed, FeedEnd, Incoming, LineCounts};
use crate::stamps::Stamps;
use image::PlantError;
use live_rows::{LineEnd, LineReader, RowReader, TimedLine, moment_of};
use plan::Plan;
use st_meaning::PlanInput;
use std::alloc::{AllocError, Global};
use std::io::Read;
use std::marker::Model;
use std::time::Clock;

/// Which of the rows that were read together are latched.
#[derive(Clone, Copy, Debug, PartialEq, Eq)]
pub enum Backlog {
    /// All, in their order.
    All,
    /// Only the newest.
    Newest,
}

/// The lines of an input, as rows.
#[derive(Drop)]
pub struct LineFeed<'a, R: Read + Drop, C: Clock> {
    lines: LineReader<R>,
    /// How the line that was read last has ended.
    end: LineEnd,
    rows: RowReader,
    timed: TimedLine,
    backlog: Backlog,
    stamps: Stamps<'a, C>,
}

impl<'a, R: Read + Drop, C: Clock> Model for LineFeed<'a, R, C> {
    ghost use Rattle.live_drive.specs.LineFeeds.{LineFeedView};

    ghost Value = { LineFeedView };

    ghost view = { λ x. record {
      backlog = x.backlog;
      moments = x.stamps.moments;
      left = x.lines.left;
      ahead = x.lines.ahead;
      line = x.lines.line;
      end = x.end;
    } };
}

/// What came with a line that ended so: a row if it is whole and spells one. The error is out of memory.
pub(crate) fn read_line(
    rows: &mut RowReader,
    alloc: Global,
    inputs: &[PlanInput],
    end: LineEnd,
    line: &[u8],
) -> Result<Incoming, AllocError>
    ensures { IfOk result (ComesWith inputs.now end line.now) }
{
    if end != LineEnd::Whole {
        return Ok(Incoming::NoRow(None));
    }
    match rows.row(alloc, inputs, line) {
        Ok(row) => Ok(Incoming::Row(row)),
        Err(PlantError::NoMemory) => Err(AllocError),
        Err(_) => Ok(Incoming::NoRow(moment_of(line))),
    }
}

impl<'a, R: Read + Drop, C: Clock> LineFeed<'a, R, C> {
    /// The lines that are left of an input. The error is out of memory.
    pub fn new(
        alloc: Global,
        lines: LineReader<R>,
        backlog: Backlog,
        stamps: Stamps<'a, C>,
    ) -> Result<LineFeed<'a, R, C>, AllocError>
        ensures backlog { IfOk result (λ feed. feed.backlog ≡ backlog) }
        ensures moments { IfOk result (λ feed. feed.moments ≡ stamps.entry.moments) }
        ensures left { IfOk result (λ feed. feed.left ≡ lines.left) }
    {
        Ok(LineFeed {
            lines,
            end: LineEnd::Unfinished,
            rows: RowReader::new(alloc),
            timed: TimedLine::new(alloc)?,
            backlog,
            stamps,
        })
    }

    /// Whether the row of the line that was read last is old: the newest alone counts, and a newer line was read with it.
    fn is_old(&self) -> bool
        ensures { MatchBool result (IsOld self.now.backlog self.now.ahead) (IsNew self.now.backlog self.now.ahead) }
    {
        match self.backlog {
            Backlog::All => false,
            Backlog::Newest => self.lines.has_line(),
        }
    }
}

impl<'a, R: Read + Drop, C: Clock> Feed for LineFeed<'a, R, C> {
    ghost came = { HasRead };

    ghost gives = { GivesLine };

    ghost ended = { EndsLines };

    fn wait(&mut self) -> Result<(), FeedEnd> {
        match self.lines.next() {
            Ok(Some(end)) => {
                self.end = end;
                Ok(())
            }
            Ok(None) => Err(FeedEnd::Ended),
            Err(_) => Err(FeedEnd::Unreadable),
        }
    }

    fn take(
        &mut self,
        alloc: Global,
        plan: &Plan,
        last: Option<u64>,
    ) -> Result<Incoming, AllocError> {
        let is_old = self.is_old();
        let stamp = self.stamps.next(last);
        let line = self.timed.timed(stamp, self.lines.line())?;
        match read_line(&mut self.rows, alloc, plan.inputs(), self.end, line)? {
            Incoming::Row(row) if is_old => Ok(Incoming::Old(row.moment())),
            incoming => Ok(incoming),
        }
    }

    fn counts(&self) -> Option<LineCounts> {
        None
    }
}
