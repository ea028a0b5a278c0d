//! Shifts and rotations of bit strings.

ghost use Rattle.std.specs.Prelude.{◌≡◌, ◌+◌, ◌<◌, ◌≤◌, ◌-◌, ◌%◌, ◌^◌, ◌<ℤ◌, IfSome, IfNone, pos, false};
ghost use Rattle.st_types.specs.Kinds.{row_of};
ghost use Rattle.st_types.specs.Values.{in_range};
ghost use Rattle.st_types.specs.Words.{is_wide};
ghost use Rattle.st_meaning.specs.Operators.{natural};
ghost use Rattle.st_meaning.specs.StandardFunctions.{shifted, bits_up, bits_down, bits_turned, turned_down};

use crate::numbers::{bits, holds_word, is_negative};
use st_types::{Fault, Kind, Value, is_wide};

/// The width of a type in bits.
#[tactic(auto, using(crate::proofs::ShiftLemmas::widths))]
fn width(kind: Kind) -> u64
    ensures is { result ≡ (row_of kind).bits }
    ensures some { 0 < result }
    ensures most { result ≤ 64 }
{
    match kind {
        Kind::Bool => 1,
        Kind::Sint | Kind::Usint | Kind::Byte | Kind::Enumerated { .. } => 8,
        Kind::Int | Kind::Uint | Kind::Word => 16,
        Kind::Dint | Kind::Udint | Kind::Dword => 32,
        Kind::Lint | Kind::Ulint | Kind::Lword | Kind::Time => 64,
    }
}

/// By how many places a value says to shift; none for a negative one.
#[inline(always)]
fn count(places: Value) -> Option<u64>
    ensures some { IfSome result (λ n. places.number ≡ pos n) }
    ensures none { IfNone result (places.number <ℤ pos 0) }
{
    if is_negative(places) {
        return None;
    }
    Some(bits(places))
}

/// The value of a type for a word; F1 if the type does not hold it.
#[inline(always)]
#[tactic(auto, using(crate::proofs::ShiftLemmas::held, crate::proofs::ShiftLemmas::not_held))]
fn of_word(x: Value, word: i64) -> Result<Value, Fault>
    requires { is_wide x.kind ≡ false }
    ensures { result ≡ in_range x.kind word }
{
    if !holds_word(x.kind(), word) {
        return Err(Fault::Range);
    }
    Ok(x.with_word(word))
}

/// The value of a type for these bits; F1 if the type does not hold them.
#[inline(always)]
fn of_bits(x: Value, bits: u64) -> Result<Value, Fault>
    ensures { result ≡ in_range x.kind (pos bits) }
{
    if is_wide(x.kind()) || bits > i64::MAX as u64 {
        return Value::new(x.kind(), i128::from(bits));
    }
    of_word(x, bits as i64)
}

/// The value of the type of `x` for bits that are at most those of `x`. Its type holds them.
#[inline(always)]
#[tactic(auto, using(crate::proofs::ShiftLemmas::fewer_are, crate::proofs::ShiftLemmas::fewer_held))]
fn of_fewer(x: Value, bits: u64) -> Result<Value, Fault>
    requires { bits ≤ natural x.number }
    ensures { result ≡ in_range x.kind (pos bits) }
{
    let _word = x.word();
    if is_wide(x.kind()) || bits > i64::MAX as u64 {
        return Value::new(x.kind(), i128::from(bits));
    }
    Ok(x.with_word(bits as i64))
}

/// The bits moved up: zeros follow, and bits that leave the width are lost.
#[inline(always)]
fn bits_up(width: u64, x: u64, n: u64) -> u64
    requires some { 0 < width }
    requires most { width ≤ 64 }
    ensures is { result ≡ bits_up width x n }
    ensures fits { result < 2 ^ width }
{
    if width <= n {
        return 0;
    }
    if width <= 32 && x < 1 << 32 {
        return x * (1u64 << n) % (1u64 << width);
    }
    (u128::from(x) * (1u128 << n) % (1u128 << width)) as u64
}

/// The bits moved down.
#[inline(always)]
fn bits_down(width: u64, x: u64, n: u64) -> u64
    requires most { width ≤ 64 }
    ensures is { result ≡ bits_down width x n }
    ensures fewer { result ≤ x }
{
    if width <= n {
        return 0;
    }
    x / (1u64 << n)
}

/// The remainder of a number of places, which is mostly below the width.
#[inline(always)]
#[tactic(auto, using(crate::proofs::ShiftLemmas::below))]
fn remainder(width: u64, n: u64) -> u64
    requires { 0 < width }
    ensures { result ≡ n % width }
{
    if n < width { n } else { n % width }
}

/// The value of the type of `x` for these two together; F1 if the type does not hold it.
#[inline(always)]
fn of_sum(x: Value, up: u64, down: u64) -> Result<Value, Fault>
    ensures { result ≡ in_range x.kind (pos (up + down)) }
{
    match up.checked_add(down) {
        Some(bits) => of_bits(x, bits),
        None => Value::new(x.kind(), i128::from(up) + i128::from(down)),
    }
}

/// The bits of a value rotated up: bits that leave at the top come in below.
#[inline(always)]
fn turned(x: Value, width: u64, n: u64) -> Result<Value, Fault>
    requires some { 0 < width }
    requires most { width ≤ 64 }
    ensures { result ≡ in_range x.kind (pos (bits_turned width (natural x.number) n)) }
{
    let bits = bits(x);
    let places = remainder(width, n);
    of_sum(
        x,
        bits_up(width, bits, places),
        bits_down(width, bits, width - places),
    )
}

/// SHL: the bits of a value moved up; F1 for a negative number of places.
#[tactic(auto, using(crate::proofs::ShiftLemmas::by_none))]
pub fn shift_left(x: Value, places: Value) -> Result<Value, Fault>
    ensures { result ≡ shifted bits_up x places.number }
{
    let Some(n) = count(places) else {
        return Err(Fault::Range);
    };
    of_bits(x, bits_up(width(x.kind()), bits(x), n))
}

/// SHR: the bits of a value moved down; F1 for a negative number of places.
#[tactic(auto, using(crate::proofs::ShiftLemmas::by_none))]
pub fn shift_right(x: Value, places: Value) -> Result<Value, Fault>
    ensures { result ≡ shifted bits_down x places.number }
{
    let Some(n) = count(places) else {
        return Err(Fault::Range);
    };
    of_fewer(x, bits_down(width(x.kind()), bits(x), n))
}

/// ROL: the bits of a value rotated up; F1 for a negative number of places.
#[tactic(auto, using(crate::proofs::ShiftLemmas::by_none))]
pub fn rotate_left(x: Value, places: Value) -> Result<Value, Fault>
    ensures { result ≡ shifted bits_turned x places.number }
{
    let Some(n) = count(places) else {
        return Err(Fault::Range);
    };
    turned(x, width(x.kind()), n)
}

/// ROR: the bits of a value rotated down; F1 for a negative number of places.
#[tactic(auto, using(crate::proofs::ShiftLemmas::by_none))]
pub fn rotate_right(x: Value, places: Value) -> Result<Value, Fault>
    ensures { result ≡ shifted turned_down x places.number }
{
    let Some(n) = count(places) else {
        return Err(Fault::Range);
    };
    let width = width(x.kind());
    turned(x, width, width - remainder(width, n))
}
