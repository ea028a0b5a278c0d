//! Durations.

ghost use Rattle.std.specs.Prelude.{◌≡◌, ◌≤◌, ◌<◌, ◌^◌, ◌*◌, length, Option};
ghost use Rattle.std.specs.Str.{str_eq_ignore_ascii_case};
ghost use Rattle.st_lex.specs.TimeUnits.{unit_row};
ghost use Rattle.st_lex.specs.Numbers.{below};
ghost use Rattle.st_lex.specs.Durations as durations;

use crate::number::{after_hash, before_hash, value};
use crate::table::same_word;
use crate::time_unit::TimeUnit;

/// All units, from large to small.
const UNITS: [TimeUnit; 5] = [
    TimeUnit::Day,
    TimeUnit::Hour,
    TimeUnit::Minute,
    TimeUnit::Second,
    TimeUnit::Millisecond,
];

/// Whether the letters are the unit's.
fn is_written(unit: TimeUnit, letters: &[u8]) -> bool
    ensures { result ≡ str_eq_ignore_ascii_case letters.now (unit_row unit).letters }
{
    match unit {
        TimeUnit::Day => same_word(letters, b"D"),
        TimeUnit::Hour => same_word(letters, b"H"),
        TimeUnit::Minute => same_word(letters, b"M"),
        TimeUnit::Second => same_word(letters, b"S"),
        TimeUnit::Millisecond => same_word(letters, b"MS"),
    }
}

fn starts_with_underscore(text: &[u8]) -> bool
    ensures { result ≡ durations.starts_with_underscore text.now }
{
    match text {
        [b, ..] => *b == b'_',
        [] => false,
    }
}

/// The text after an underscore that may come before a later part.
fn over_underscore(is_first: bool, text: &[u8]) -> &[u8]
    ensures { result.now ≡ durations.over_underscore is_first text.now }
{
    if !is_first && starts_with_underscore(text) {
        &text[1..]
    } else {
        text
    }
}

fn digits_len(text: &[u8]) -> usize
    ensures value { result ≡ length (durations.digits_of text.now) }
    ensures bound { result ≤ length text.now }
{
    text.iter().take_while(|b| b.is_ascii_digit()).count()
}

fn letters_len(text: &[u8]) -> usize
    ensures value { result ≡ length (durations.leading_letters text.now) }
    ensures bound { result ≤ length text.now }
{
    text.iter().take_while(|b| b.is_ascii_alphabetic()).count()
}

/// A number of a unit in front of a text, and the text after it.
#[derive(Clone, Copy)]
struct Part<'a> {
    digits: &'a [u8],
    letters: &'a [u8],
    rest: &'a [u8],
}

fn leading_part(text: &[u8]) -> Part<'_>
    ensures digits { result.digits.now ≡ durations.digits_of text.now }
    ensures letters { result.letters.now ≡ durations.letters_of text.now }
    ensures rest { result.rest.now ≡ durations.after_part text.now }
{
    let (digits, behind) = text.split_at(digits_len(text));
    let (letters, rest) = behind.split_at(letters_len(behind));
    Part {
        digits,
        letters,
        rest,
    }
}

/// `part(unit) = digit, { digit }, unit .`
fn is_part_in(unit: TimeUnit, text: &[u8]) -> bool
    ensures { result ≡ durations.is_part_in unit text.now }
{
    let part = leading_part(text);
    !part.digits.is_empty() && is_written(unit, part.letters)
}

/// At most 9,223,372,036,854,775,807.
fn fits(milliseconds: u64) -> Option<u64>
    ensures { result ≡ below (2 ^ 63) milliseconds }
{
    if milliseconds <= i64::MAX as u64 {
        Some(milliseconds)
    } else {
        None
    }
}

fn product(count: u64, milliseconds: u64) -> Option<u64>
    ensures { result ≡ below (2 ^ 63) (count * milliseconds) }
{
    fits(count.checked_mul(milliseconds)?)
}

/// The milliseconds of the part in front, if its number is allowed.
fn part_milliseconds(unit: TimeUnit, is_first: bool, text: &[u8]) -> Option<u64>
    ensures { result ≡ durations.fits (durations.part_milliseconds unit is_first text.now) }
{
    let count = value(10, leading_part(text).digits)?;
    if !is_first && count >= unit.limit() {
        return None;
    }
    product(count, unit.length())
}

fn sum(part: Option<u64>, smaller: Option<u64>) -> Option<u64>
    ensures { result ≡ durations.fits (durations.sum part smaller) }
{
    let (part, smaller) = (part?, smaller?);
    fits(part.checked_add(smaller)?)
}

/// `parts = part, { [ "_" ], part } .`
/// The milliseconds of the parts in the text, in some of these units and in their order.
fn parts(units: &[TimeUnit], is_first: bool, text: &[u8]) -> Option<u64>
    ensures { result ≡ durations.fits (durations.parts units.now is_first text.now) }
{
    let [unit, smaller @ ..] = units else {
        return if is_first || !text.is_empty() {
            None
        } else {
            Some(0)
        };
    };
    let front = over_underscore(is_first, text);
    if !is_part_in(*unit, front) {
        return parts(smaller, is_first, text);
    }
    let behind = parts(smaller, false, leading_part(front).rest);
    sum(part_milliseconds(*unit, is_first, front), behind)
}

#[tactic(auto, unfolding(crate::specs::Durations::milliseconds))]
fn milliseconds(text: &[u8]) -> Option<u64>
    ensures { result ≡ durations.milliseconds text.now }
{
    parts(&UNITS, true, text)
}

fn is_duration(word: &[u8]) -> bool
    ensures { result ≡ durations.is_duration word.now }
{
    same_word(before_hash(word), b"T") || same_word(before_hash(word), b"TIME")
}

/// `duration = ( "T#" | "TIME#" ), parts .`
/// The milliseconds of the word as a duration.
#[tactic(auto, unfolding(crate::specs::Durations::duration))]
pub fn duration(word: &[u8]) -> Option<u64>
    ensures { result ≡ durations.duration word.now }
{
    if !is_duration(word) {
        return None;
    }
    milliseconds(after_hash(word))
}
