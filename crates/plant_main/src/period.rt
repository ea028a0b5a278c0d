//! Periods.

use crate::number::plain_number;

/// The longest period in milliseconds: an hour.
const LONGEST: u64 = 3_600_000;

/// The milliseconds that a period spells, as `10ms` or `2s`: from one to those of an hour.
pub(crate) fn period(text: &str) -> Option<u64> {
    let (digits, scale) = match text.strip_suffix("ms") {
        Some(digits) => (digits, 1),
        None => (text.strip_suffix("s")?, 1000),
    };
    let millis = u64::from(plain_number(digits)?).checked_mul(scale)?;
    if 1 <= millis && millis <= LONGEST {
        Some(millis)
    } else {
        None
    }
}
