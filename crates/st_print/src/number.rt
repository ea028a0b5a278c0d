//! Decimal numbers in the fields of a plant and the lines of a trace.

ghost use Rattle.std.specs.Prelude.{◌≡◌, ◌≢◌, ◌^◌, ◌<◌, ◌+◌, ◌∷◌, ℕ, ℤ, IfSome, IfNone};
ghost use Rattle.std.specs.Fmt.{decimal, signed_decimal};
ghost use Rattle.st_types.specs.Kinds.{names_in};
ghost use Rattle.st_types.specs.Values.{Datum};
ghost use Rattle.st_print.specs.Numbers.{IsShort, SpellsValue, may_begin};

use st_types::limits::MOMENT_LIMIT;
use st_types::{Kind, Value};

/// Whether the bytes begin like a decimal number: with another digit than 0, or they are a 0 alone.
fn may_begin(field: &[u8]) -> bool
    ensures { result ≡ may_begin field.now }
{
    match field {
        [] => false,
        [b'0', rest @ ..] => rest.is_empty(),
        [first, ..] => b'1' <= *first && *first <= b'9',
    }
}

/// The number below 2^64 that the field spells in decimal.
pub fn number(field: &[u8]) -> Option<u64>
    ensures spelled { IfSome result (λ n. field.now ≡ decimal n) }
    ensures none { IfNone result ((n : ℕ) → n < 2 ^ 64 → field.now ≢ decimal n) }
{
    if !may_begin(field) {
        return None;
    }
    match str::from_utf8(field) {
        Ok(text) => text.parse().ok(),
        Err(_) => None,
    }
}

/// The negative number whose digits these are.
fn negative(digits: &[u8]) -> Option<i128>
    ensures spelled { IfSome result (λ z. 45 ∷ digits.now ≡ signed_decimal z) }
    ensures short { IfSome result IsShort }
    ensures none { IfNone result ((n : ℕ) → n + 1 < 2 ^ 64 → digits.now ≢ decimal (n + 1)) }
{
    let magnitude = number(digits)?;
    if magnitude == 0 {
        return None;
    }
    Some(-i128::from(magnitude))
}

/// The number that the field spells in decimal, with a `-` if it is negative.
fn whole_number(field: &[u8]) -> Option<i128>
    ensures spelled { IfSome result (λ z. field.now ≡ signed_decimal z) }
    ensures short { IfSome result IsShort }
    ensures none { IfNone result ((z : ℤ) → IsShort z → field.now ≢ signed_decimal z) }
{
    if let [b'-', digits @ ..] = field {
        return negative(digits);
    }
    Some(i128::from(number(field)?))
}

/// The moment in milliseconds that the field spells: at most 4,611,686,018,427,387,903.
pub fn moment(field: &[u8]) -> Option<u64>
    ensures spelled { IfSome result (λ n. field.now ≡ decimal n) }
    ensures limit { IfSome result (λ n. n < MOMENT_LIMIT) }
    ensures none { IfNone result ((n : ℕ) → n < MOMENT_LIMIT → field.now ≢ decimal n) }
{
    let moment = number(field)?;
    if moment < MOMENT_LIMIT {
        Some(moment)
    } else {
        None
    }
}

/// How many names a type has: fewer than 65,536, so that its greatest number is short.
fn names(kind: Kind) -> u16
    ensures { result ≡ names_in kind }
{
    match kind {
        Kind::Enumerated { names, .. } => names,
        _ => 0,
    }
}

/// The value of the type that the field spells.
pub fn value(kind: Kind, field: &[u8]) -> Option<Value>
    ensures spelled { IfSome result (SpellsValue kind field.now) }
    ensures none { IfNone result ((v : Datum) → ¬ (SpellsValue kind field.now v)) }
{
    let _few = names(kind);
    let number = whole_number(field)?;
    Value::new(kind, number).ok()
}
