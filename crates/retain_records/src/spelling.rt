//! A record as bytes.

ghost use Rattle.std.specs.Prelude.{◌≡◌, ◌+◌, ◌<◌, ◌≤◌, ◌^◌, ◌++◌, length, take, IfSome};
ghost use Rattle.std.specs.List.{flat_map};
ghost use Rattle.st_types.specs.declared.limits.TheConstants.{MOMENT_LIMIT};
ghost use Rattle.retain_records.specs.Records.{moment_code, value_bytes, record_bytes};

use crate::value_bytes::{bits, width};
use st_types::Value;

/// Writes the record to the front of the buffer, which has room for it, and gives its length in bytes. It allocates nothing.
pub fn spell(moment: Option<u64>, layout: &[u8], values: &[Value], buffer: &mut [u8]) -> usize
    requires moment { IfSome moment (λ t. t < MOMENT_LIMIT) }
    requires layout { length layout.now < 2 ^ 32 }
    requires room { length (record_bytes (record { moment = moment; layout = layout.now; values = values.now }))
        ≤ length buffer.old }
    ensures length { result
        ≡ length (record_bytes (record { moment = moment; layout = layout.now; values = values.now })) }
    ensures spelled { take result buffer.new
        ≡ record_bytes (record { moment = moment; layout = layout.now; values = values.now }) }
    ensures same_room { length buffer.new ≡ length buffer.old }
{
    let at = put(buffer, 0, &moment_code(moment).to_be_bytes());
    let at = put(buffer, at, &(layout.len() as u32).to_be_bytes());
    let at = put(buffer, at, layout);
    put_values(buffer, at, values)
}

/// 0 for no moment, else the moment plus 1.
fn moment_code(moment: Option<u64>) -> u64
    requires { IfSome moment (λ t. t < MOMENT_LIMIT) }
    ensures { result ≡ moment_code moment }
{
    match moment {
        Some(moment) => moment + 1,
        None => 0,
    }
}

/// Writes bytes from an offset on, and gives the offset after them.
fn put(buffer: &mut [u8], at: usize, bytes: &[u8]) -> usize
    requires { at + length bytes.now ≤ length buffer.old }
    ensures end { result ≡ at + length bytes.now }
    ensures front { take result buffer.new ≡ take at buffer.old ++ bytes.now }
    ensures same_room { length buffer.new ≡ length buffer.old }
{
    let end = at + bytes.len();
    buffer[at..end].copy_from_slice(bytes);
    end
}

fn put_values(buffer: &mut [u8], at: usize, values: &[Value]) -> usize
    requires { at + length (flat_map value_bytes values.now) ≤ length buffer.old }
    ensures end { result ≡ at + length (flat_map value_bytes values.now) }
    ensures front { take result buffer.new ≡ take at buffer.old ++ flat_map value_bytes values.now }
    ensures same_room { length buffer.new ≡ length buffer.old }
{
    let mut end = at;
    for value in values {
        end = put_value(buffer, end, *value);
    }
    end
}

fn put_value(buffer: &mut [u8], at: usize, value: Value) -> usize
    requires { at + length (value_bytes value) ≤ length buffer.old }
    ensures end { result ≡ at + length (value_bytes value) }
    ensures front { take result buffer.new ≡ take at buffer.old ++ value_bytes value }
    ensures same_room { length buffer.new ≡ length buffer.old }
{
    let bytes = bits(value).to_be_bytes();
    put(buffer, at, &bytes[8 - width(value.kind())..])
}
