//! How long lines took, in bounded memory.

/// Times below this many microseconds have a count each.
const FINE: u64 = 128;

/// How many counts each doubling above has.
const HALF: u64 = FINE / 2;

/// How many doublings there are, up to 2 to the power of 64.
const DOUBLINGS: usize = 57;

const COUNTS: usize = FINE as usize + DOUBLINGS * HALF as usize;

/// How many lines took how long. A time is known to one part in 64.
#[derive(Drop)]
pub struct Latencies {
    counts: [u64; COUNTS],
    /// How many lines were counted.
    lines: u64,
    /// The longest time in microseconds.
    longest: u64,
}

/// The count for a time in microseconds: its first seven binary digits, and how many more it has.
fn place(micros: u64) -> usize {
    let doublings = 57u32.saturating_sub(micros.leading_zeros());
    (micros >> doublings).saturating_add(doublings as u64 * HALF) as usize
}

/// The least time with this count.
fn least(place: usize) -> u64 {
    let place = place as u64;
    if place < FINE {
        return place;
    }
    let doublings = (place - FINE) / HALF + 1;
    let top = place - doublings * HALF;
    let times = u32::try_from(doublings).unwrap_or(u32::MAX);
    top.checked_shl(times).unwrap_or(u64::MAX)
}

impl Latencies {
    pub fn new() -> Latencies {
        Latencies {
            counts: [0; COUNTS],
            lines: 0,
            longest: 0,
        }
    }

    /// Counts a line that took so many microseconds.
    pub fn add(&mut self, micros: u64) {
        if let Some(count) = self.counts.get_mut(place(micros)) {
            *count = count.saturating_add(1);
        }
        self.lines = self.lines.saturating_add(1);
        self.longest = self.longest.max(micros);
    }

    /// The time in microseconds that so many of a hundred lines did not exceed, to one part in 64.
    pub fn percentile(&self, percent: u64) -> u64 {
        let rank = self.lines.saturating_mul(percent).div_ceil(100);
        let mut seen: u64 = 0;
        for (at, count) in self.counts.iter().enumerate() {
            seen = seen.saturating_add(*count);
            if *count > 0 && seen >= rank {
                return least(at);
            }
        }
        self.longest
    }

    /// The longest time in microseconds.
    pub fn longest(&self) -> u64 {
        self.longest
    }
}
