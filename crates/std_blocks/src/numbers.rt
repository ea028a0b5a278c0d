//! Numbers of values, which are compared and added as words if words are numbers.

ghost use Rattle.std.specs.Prelude.{◌≡◌, int_le, int_lt, pos, false};
ghost use Rattle.std.specs.Ordering.{int_eq};
ghost use Rattle.st_types.specs.Kinds.{greatest, holds, least};
ghost use Rattle.st_types.specs.Words.{is_wide};
ghost use Rattle.st_meaning.specs.Operators.{natural};

use st_types::{Kind, Value, is_wide};

/// Whether the two are the same number.
#[inline(always)]
pub fn is_same_number(a: Value, b: Value) -> bool
    ensures { result ≡ int_eq a.number b.number }
{
    if is_wide(a.kind()) == is_wide(b.kind()) {
        a.word() == b.word()
    } else {
        a.number() == b.number()
    }
}

/// Whether the first number is at most the second.
#[inline(always)]
pub fn is_at_most(a: Value, b: Value) -> bool
    ensures { result ≡ int_le a.number b.number }
{
    if is_wide(a.kind()) == is_wide(b.kind()) {
        a.word() <= b.word()
    } else {
        a.number() <= b.number()
    }
}

/// Whether the number is below 0.
#[inline(always)]
pub fn is_negative(a: Value) -> bool
    ensures { result ≡ int_lt a.number (pos 0) }
{
    a.word() < 0 && !is_wide(a.kind())
}

/// The bits of a number that has no sign; none of one below 0.
#[inline(always)]
pub fn bits(a: Value) -> u64
    ensures { result ≡ natural a.number }
{
    if is_wide(a.kind()) {
        return bits_of_number(a);
    }
    let word = a.word();
    if word < 0 { 0 } else { word as u64 }
}

/// The same for any type.
fn bits_of_number(a: Value) -> u64
    ensures { result ≡ natural a.number }
{
    let number = a.number();
    if number < 0 { 0 } else { number as u64 }
}

fn least_word(kind: Kind) -> i64
    ensures { result ≡ least kind }
{
    match kind {
        Kind::Sint => i8::MIN as i64,
        Kind::Int => i16::MIN as i64,
        Kind::Dint => i32::MIN as i64,
        Kind::Lint | Kind::Time => i64::MIN,
        _ => 0,
    }
}

fn greatest_word(kind: Kind) -> i64
    requires { is_wide kind ≡ false }
    ensures { result ≡ greatest kind }
{
    match kind {
        Kind::Sint => i8::MAX as i64,
        Kind::Int => i16::MAX as i64,
        Kind::Dint => i32::MAX as i64,
        Kind::Usint | Kind::Byte => u8::MAX as i64,
        Kind::Uint | Kind::Word => u16::MAX as i64,
        Kind::Udint | Kind::Dword => u32::MAX as i64,
        Kind::Bool => 1,
        Kind::Enumerated { names, .. } => i64::from(names.saturating_sub(1)),
        _ => i64::MAX,
    }
}

/// Whether a type whose words are its numbers holds one.
#[inline(always)]
pub fn holds_word(kind: Kind, word: i64) -> bool
    requires { is_wide kind ≡ false }
    ensures { result ≡ holds kind word }
{
    least_word(kind) <= word && word <= greatest_word(kind)
}
