//! Units of durations.

ghost use Rattle.std.specs.Prelude.{◌≡◌};
ghost use Rattle.st_lex.specs.TimeUnits.{unit_row};

/// A unit of a duration.
#[derive(Clone, Copy)]
pub enum TimeUnit {
    Day,
    Hour,
    Minute,
    Second,
    Millisecond,
}

impl TimeUnit {
    /// The length of one in milliseconds.
    pub fn length(self) -> u64
        ensures { result ≡ (unit_row self).milliseconds }
    {
        match self {
            TimeUnit::Day => 86_400_000,
            TimeUnit::Hour => 3_600_000,
            TimeUnit::Minute => 60_000,
            TimeUnit::Second => 1000,
            TimeUnit::Millisecond => 1,
        }
    }

    /// The limit for the number of a part that isn't the first. That of a day is never used.
    pub fn limit(self) -> u64
        ensures { result ≡ (unit_row self).limit }
    {
        match self {
            TimeUnit::Day => 0,
            TimeUnit::Hour => 24,
            TimeUnit::Minute | TimeUnit::Second => 60,
            TimeUnit::Millisecond => 1000,
        }
    }
}
