//! Rows by the clock, with the newest inputs.

ghost use Rattle.std.specs.Prelude.{◌≡◌, IfOk};
ghost use Rattle.live_drive.specs.TickFeeds.{EndsTicks, GivesTick, HasTicked};

use crate::feed::{Feed, FeedEnd, Incoming, LineCounts};
use crate::newest::Newest;
use crate::stamps::Stamps;
use live_rows::Moments;
use plan::Plan;
use st_types::{Row, Value};
use std::alloc::{AllocError, Global};
use std::marker::Model;
use std::sync::{Arc, Mutex, Wait};
use std::thread;
use std::time::{Clock, Duration, Instant};

/// How many microseconds the feed sleeps before it looks whether the input has ended.
const SLICE: u64 = 100_000;

/// Rows that the clock makes, one in each period, with the newest inputs.
#[derive(Drop)]
pub struct TickFeed<'a, R: Wait + Clock> {
    rt: &'a R,
    newest: Arc<Mutex<Newest>, Global>,
    /// The newest row, whose inputs count at the next tick.
    row: Option<Row>,
    counts: LineCounts,
    /// Milliseconds from tick to tick, at least 1.
    period: u64,
    /// When ticks began, if the clock can be read.
    begun: Option<Instant>,
    stamps: Stamps<'a, R>,
}

impl<'a, R: Wait + Clock> Model for TickFeed<'a, R> {
    ghost use Rattle.std.specs.Prelude.{List};
    ghost use Rattle.live_drive.specs.TickFeeds.{inputs_of};
    ghost use Rattle.st_types.specs.Values.{Datum};

    ghost Value = { List Datum };

    ghost view = { λ x. inputs_of x.row };
}

fn micros(time: Duration) -> u64 {
    u64::try_from(time.as_micros()).unwrap_or(u64::MAX)
}

/// A row at a moment in milliseconds with these inputs.
fn row_at(alloc: Global, moment: u64, image: &[Value]) -> Result<Row, AllocError>
    ensures { IfOk result (λ row. row ≡ record { moment = moment; image = image.now }) }
{
    let mut values = Vec::with_capacity(alloc, image.len())?;
    values.extend_from_slice(image)?;
    Ok(Row::new(moment, values))
}

impl<'a, R: Wait + Clock> TickFeed<'a, R> {
    /// Ticks from now on, one each `period` milliseconds. Another thread reads the newest row; until one has come, this
    /// first one counts, if there is one.
    pub fn new(
        rt: &'a R,
        newest: Arc<Mutex<Newest>, Global>,
        period: u64,
        first: Option<Row>,
    ) -> TickFeed<'a, R> {
        TickFeed {
            rt,
            newest,
            row: first,
            counts: LineCounts {
                lines: 0,
                refused: 0,
                missed: 0,
            },
            period: period.max(1),
            begun: Instant::now(rt).ok(),
            stamps: Stamps::new(rt, Moments::Clock),
        }
    }

    /// How many microseconds there are until the next tick. Ticks that have passed are left out.
    fn left(&self) -> u64 {
        let since = match self.begun {
            Some(begun) => begun.elapsed(self.rt).map(micros).unwrap_or(0),
            None => 0,
        };
        let period = self.period.saturating_mul(1000).max(1);
        period.saturating_sub(since % period)
    }

    /// Waits until the next tick, or until the input has ended.
    fn sleep(&self) {
        for _ in 0..u64::MAX {
            let left = self.left();
            if left <= SLICE {
                thread::sleep(self.rt, Duration::from_micros(left));
                return;
            }
            thread::sleep(self.rt, Duration::from_micros(SLICE));
            if self.newest.lock(self.rt).has_ended() {
                return;
            }
        }
    }

    /// Waits for a tick, and takes what has come until then.
    fn tick(&mut self) -> Result<(), FeedEnd> {
        self.sleep();
        let taken = self.newest.lock(self.rt).take();
        self.counts = taken.counts;
        match (taken.row, taken.end) {
            (Some(row), _) => self.row = Some(row),
            (None, Some(end)) => return Err(end),
            (None, None) => {}
        }
        Ok(())
    }
}

impl<'a, R: Wait + Clock> Feed for TickFeed<'a, R> {
    ghost came = { HasTicked };

    ghost gives = { GivesTick };

    ghost ended = { EndsTicks };

    /// Ticks before the first row are left out.
    fn wait(&mut self) -> Result<(), FeedEnd> {
        for _ in 0..u64::MAX {
            self.tick()?;
            if self.row.is_some() {
                return Ok(());
            }
        }
        Err(FeedEnd::Unreadable)
    }

    fn take(
        &mut self,
        alloc: Global,
        _plan: &Plan,
        last: Option<u64>,
    ) -> Result<Incoming, AllocError> {
        let moment = self.stamps.after(last);
        match &self.row {
            Some(row) => Ok(Incoming::Row(row_at(alloc, moment, row.image())?)),
            None => Ok(Incoming::Row(row_at(alloc, moment, &[])?)),
        }
    }

    fn counts(&self) -> Option<LineCounts> {
        Some(self.counts)
    }
}
