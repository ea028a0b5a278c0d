//! Whole numbers and bit strings.

ghost use Rattle.std.specs.Prelude.{◌≡◌, ◌+◌, ◌*◌, ◌-◌, ◌≤◌, ◌<◌, ◌^◌, ◌==◌, ◌||◌, not, length, take};
ghost use Rattle.std.specs.List.{list_all, take_while};
ghost use Rattle.std.specs.Char.{is_digit, digit_value};
ghost use Rattle.st_types.specs.Kinds.{row_of};
ghost use Rattle.st_lex.specs.Numbers as numbers;

use crate::keyword::elementary;
use crate::table::lookup;
use crate::token::WholeNumber;
use st_types::{Kind, Sort, is_spaced};

/// The value of a digit or letter, from 0 to 35, and 36 for any other byte.
fn digit_value(b: u8) -> u64
    ensures value { result ≡ digit_value b }
    ensures bound { result ≤ 36 }
{
    let value = match b {
        b'0'..=b'9' => b - b'0',
        b'A'..=b'Z' => b - b'A' + 10,
        b'a'..=b'z' => b - b'a' + 10,
        _ => 36,
    };
    value as u64
}

fn starts_with_digit(base: u64, word: &[u8]) -> bool
    ensures { result ≡ numbers.starts_with_digit base word.now }
{
    match word {
        [b, ..] => digit_value(*b) < base,
        [] => false,
    }
}

fn has_digits_alone(base: u64, word: &[u8]) -> bool
    ensures { result ≡ list_all (λ b. (b == 95) || is_digit b base) word.now }
{
    word.iter().all(|b| *b == b'_' || digit_value(*b) < base)
}

fn is_numeral(base: u64, word: &[u8]) -> bool
    ensures { result ≡ numbers.is_numeral base word.now }
{
    starts_with_digit(base, word) && is_spaced(word) && has_digits_alone(base, word)
}

fn with_digit(base: u64, value: u64, b: u8) -> Option<u64>
    ensures { result ≡ numbers.below (2 ^ 64) (value * base + digit_value b) }
{
    value.checked_mul(base)?.checked_add(digit_value(b))
}

/// The number of 64 bits that the digits write.
pub fn value(base: u64, digits: &[u8]) -> Option<u64>
    requires { 1 ≤ base }
    ensures { result ≡ numbers.below (2 ^ 64) (numbers.value_from base 0 digits.now) }
{
    let mut value: u64 = 0;
    let mut rest = digits;
    while let [b, after @ ..] = rest {
        if *b != b'_' {
            value = with_digit(base, value, *b)?;
        }
        rest = after;
    }
    Some(value)
}

/// `numeral(b) = digit(b), { [ "_" ], digit(b) } .`
#[tactic(auto, unfolding(crate::specs::Numbers::numeral))]
fn numeral(base: u64, word: &[u8]) -> Option<u64>
    requires { 1 ≤ base }
    ensures { result ≡ numbers.numeral base word.now }
{
    if !is_numeral(base, word) {
        return None;
    }
    value(base, word)
}

/// How many bytes come before the first `#`.
fn to_hash(word: &[u8]) -> usize
    ensures value { result ≡ length (numbers.before_hash word.now) }
    ensures bound { result ≤ length word.now }
{
    word.iter().take_while(|b| **b != b'#').count()
}

pub fn before_hash(word: &[u8]) -> &[u8]
    ensures { result.now ≡ numbers.before_hash word.now }
{
    &word[..to_hash(word)]
}

pub fn after_hash(word: &[u8]) -> &[u8]
    ensures { result.now ≡ numbers.after_hash word.now }
{
    let end = to_hash(word);
    if end < word.len() {
        &word[end + 1..]
    } else {
        &[]
    }
}

const BASES: [(&[u8], u64); 3] = [(b"2", 2), (b"8", 8), (b"16", 16)];

/// `based = "2#", numeral(2) | "8#", numeral(8) | "16#", numeral(16) .`
#[tactic(auto, unfolding(crate::specs::Numbers::based))]
fn based(word: &[u8]) -> Option<u64>
    ensures { result ≡ numbers.based word.now }
{
    match lookup(&BASES, before_hash(word)) {
        Some(base) => numeral(base, after_hash(word)),
        None => None,
    }
}

/// `magnitude = numeral(10) | based .`
#[tactic(auto, unfolding(crate::specs::Numbers::magnitude))]
fn magnitude(word: &[u8]) -> Option<u64>
    ensures { result ≡ numbers.magnitude word.now }
{
    match numeral(10, word) {
        Some(n) => Some(n),
        None => based(word),
    }
}

/// Whether its values are whole numbers or bit strings.
fn is_whole(kind: Kind) -> bool
    ensures { result ≡ numbers.is_whole (row_of kind).sort }
{
    match kind.row().sort {
        Sort::Signed | Sort::Unsigned | Sort::Bits => true,
        Sort::Duration | Sort::Truth | Sort::Place => false,
    }
}

fn with_type(kind: Option<Kind>, magnitude: Option<u64>) -> Option<WholeNumber>
    ensures { result ≡ numbers.with_type kind magnitude }
{
    let (kind, magnitude) = (kind?, magnitude?);
    if !is_whole(kind) {
        return None;
    }
    Some(WholeNumber {
        written: Some(kind),
        magnitude,
        is_decimal: false,
    })
}

/// `typed = elementary, "#", magnitude .`
/// The type is one of whole numbers or bit strings.
#[tactic(auto, unfolding(crate::specs::Numbers::typed))]
fn typed(word: &[u8]) -> Option<WholeNumber>
    ensures { result ≡ numbers.typed word.now }
{
    with_type(elementary(before_hash(word)), magnitude(after_hash(word)))
}

fn untyped(is_decimal: bool, magnitude: u64) -> WholeNumber
    ensures { result ≡ numbers.untyped is_decimal magnitude }
{
    WholeNumber {
        written: None,
        magnitude,
        is_decimal,
    }
}

/// `whole_number = numeral(10) | based | typed .`
/// The word as a decimal, based or typed literal.
#[tactic(auto, unfolding(crate::specs::Numbers::whole_number))]
pub fn whole_number(word: &[u8]) -> Option<WholeNumber>
    ensures { result ≡ numbers.whole_number word.now }
{
    if let Some(n) = numeral(10, word) {
        return Some(untyped(true, n));
    }
    if let Some(n) = based(word) {
        return Some(untyped(false, n));
    }
    typed(word)
}
