//! Hexadecimal digits.

ghost use Rattle.std.specs.Prelude.{◌≡◌, ◌≤◌, ◌<◌, ◌/◌, ◌%◌, ◌^◌, OnOk, true};
ghost use Rattle.std.specs.Fmt.{digit_glyph};
ghost use Rattle.std.specs.Io.KnownBytes.{Appends};
ghost use Rattle.st_print.specs.Spelling.{hexadecimal};

use std::io;
use std::io::Write;

/// The digit of a number below 16.
fn digit(number: u8) -> u8
    requires { number < 16 }
    ensures { result ≡ digit_glyph true number }
{
    if number < 10 {
        b'0' + number
    } else {
        b'A' + (number - 10)
    }
}

/// Writes the last `count` hexadecimal digits of a number, in upper case.
pub(crate) fn write_hexadecimal<W: Write>(out: &mut W, count: usize, number: u64) -> io::Result<()>
    ensures { OnOk result (Appends (W.contents out.old) (W.contents out.new) (hexadecimal count number)) }
{
    if count == 0 {
        return Ok(());
    }
    write_hexadecimal(out, count - 1, number / 16)?;
    let last = [digit((number % 16) as u8)];
    out.write_all(last.as_slice())
}
