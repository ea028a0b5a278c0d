//! Values as bytes: big-endian, two's complement; a BOOL is one byte 0 or 1.

ghost use Rattle.std.specs.Prelude.{◌≡◌, ◌<◌, ◌^◌, length, option_map, pos, ◌≤ℤ◌};
ghost use Rattle.std.specs.Int.{byte_len, cast_unsigned, from_be_bytes};
ghost use mir.Val.{bits};
ghost use Rattle.st_types.specs.Kinds.{width_of};
ghost use Rattle.retain_records.specs.Records.{wide_of};
ghost use Rattle.retain_records.specs.Reading.{number_of, value_at};

use st_types::{Kind, Sort, Value};

/// How many bytes a value of the type takes in a record: one for a BOOL, else its width.
pub(crate) fn width(kind: Kind) -> usize
    ensures exact { result ≡ width_of kind }
    ensures wide { result ≡ byte_len (wide_of kind) }
{
    usize::from(kind.row().bits).div_ceil(8)
}

/// How many numbers the bytes of a value of the type can spell.
fn span(kind: Kind) -> i128
    ensures exact { result ≡ pos (2 ^ bits (wide_of kind)) }
    ensures small { result ≤ℤ pos (2 ^ 64) }
{
    1 << (8 * width(kind))
}

/// The value in two's complement, in the width of its type.
pub(crate) fn bits(value: Value) -> u64
    ensures { result ≡ cast_unsigned (wide_of value.kind) value.number }
{
    let number = value.number();
    if number < 0 {
        (number + span(value.kind())) as u64
    } else {
        number as u64
    }
}

/// The value of the type at the front of the bytes, and the bytes after it.
#[tactic(auto, unfolding(crate::specs::Reading::value_at))]
pub(crate) fn value_at(kind: Kind, bytes: &[u8]) -> Option<(Value, &[u8])>
    ensures { option_map (λ p. (p.0, p.1.now)) result ≡ value_at kind bytes.now }
{
    let width = width(kind);
    if bytes.len() < width {
        return None;
    }
    let (front, behind) = bytes.split_at(width);
    match Value::new(kind, number(kind, bits_in(kind, front))) {
        Ok(value) => Some((value, behind)),
        Err(_) => None,
    }
}

/// The bits of a value of the type.
fn bits_in(kind: Kind, bytes: &[u8]) -> u64
    requires { length bytes.now ≡ byte_len (wide_of kind) }
    ensures exact { result ≡ from_be_bytes (wide_of kind) bytes.now }
    ensures below { result < 2 ^ bits (wide_of kind) }
{
    match kind.row().bits {
        16 => u64::from(u16::from_be_bytes([bytes[0], bytes[1]])),
        32 => u64::from(u32::from_be_bytes([bytes[0], bytes[1], bytes[2], bytes[3]])),
        64 => u64::from_be_bytes([
            bytes[0], bytes[1], bytes[2], bytes[3], bytes[4], bytes[5], bytes[6], bytes[7],
        ]),
        _ => u64::from(bytes[0]),
    }
}

/// The number that these bits of a value of the type stand for.
fn number(kind: Kind, code: u64) -> i128
    requires { code < 2 ^ bits (wide_of kind) }
    ensures { result ≡ number_of kind code }
{
    let number = i128::from(code);
    let is_signed = matches!(kind.row().sort, Sort::Signed | Sort::Duration);
    if is_signed && kind.greatest() < number {
        number - span(kind)
    } else {
        number
    }
}
