//! Moments from the clock.

ghost use Rattle.std.specs.Prelude.{◌≡◌, ◌<◌, ◌+◌, ℕ, Some, IfNone};
ghost use Rattle.st_types.specs.declared.limits.TheConstants.{MOMENT_LIMIT};
ghost use Rattle.live_drive.specs.Stamps.{IsAfter, IsStamp};

use live_rows::Moments;
use st_types::limits::MOMENT_LIMIT;
use std::time::{Clock, Duration, Instant, SystemTime, UNIX_EPOCH};

/// Gives moments to rows that have none.
#[derive(Drop)]
pub struct Stamps<'a, C: Clock> {
    clock: &'a C,
    moments: Moments,
    /// Milliseconds since 1970 when it was made; 0 if the system doesn't say.
    wall: u64,
    /// When it was made, by the clock that never goes back.
    made: Option<Instant>,
}

fn millis(time: Duration) -> u64 {
    u64::try_from(time.as_millis()).unwrap_or(u64::MAX)
}

fn wall<C: Clock>(clock: &C) -> u64 {
    let Ok(now) = SystemTime::now(clock) else {
        return 0;
    };
    match now.duration_since(UNIX_EPOCH) {
        Ok(time) => millis(time),
        Err(_) => 0,
    }
}

/// The first moment in milliseconds after this one.
fn first_after(last: Option<u64>) -> u64
    ensures none { IfNone last (result ≡ 0) }
    ensures next { (n : ℕ) → last ≡ Some n → n < MOMENT_LIMIT → result ≡ n + 1 }
{
    match last {
        Some(moment) => moment.saturating_add(1),
        None => 0,
    }
}

impl<'a, C: Clock> Stamps<'a, C> {
    pub fn new(clock: &'a C, moments: Moments) -> Stamps<'a, C>
        ensures { result.moments ≡ moments }
    {
        Stamps {
            clock,
            moments,
            wall: wall(clock),
            made: Instant::now(clock).ok(),
        }
    }

    /// Milliseconds since 1970 by the wall clock when it was made, and by the time since then. So it never goes back, even if
    /// the wall clock is set back.
    fn now(&self) -> u64
        ensures { result < MOMENT_LIMIT }
    {
        let since = match self.made {
            Some(made) => made.elapsed(self.clock).map(millis).unwrap_or(0),
            None => 0,
        };
        let now = self.wall.saturating_add(since);
        if now < MOMENT_LIMIT {
            now
        } else {
            MOMENT_LIMIT - 1
        }
    }

    /// The moment in milliseconds for a row after the last one: now, or the first after the last one's if that is later.
    pub(crate) fn after(&self, last: Option<u64>) -> u64
        ensures { IsAfter last result }
    {
        let now = self.now();
        let first = first_after(last);
        if now < first { first } else { now }
    }

    /// The same if the clock gives moments; none if rows have their own.
    pub(crate) fn next(&self, last: Option<u64>) -> Option<u64>
        ensures { IsStamp self.now.moments last result }
    {
        match self.moments {
            Moments::Own => None,
            Moments::Clock => Some(self.after(last)),
        }
    }
}
