//! Writing a text in parts, of which a writer takes all or a beginning.

ghost use Rattle.std.specs.Prelude.{◌++◌, List, ℕ, Option};
ghost use Rattle.std.specs.Fmt.{decimal};
ghost use Rattle.trace.specs.Puts.{Puts};

use std::io::{ErrorKind, Write};

/// Writes these bytes, unless a part before them was not written whole. It answers whether all was.
pub fn put<W: Write>(out: &mut W, works: bool, bytes: &[u8]) -> bool
    ensures { Puts (W.contents out.old) works (W.contents out.new) result bytes.now }
{
    if !works {
        return false;
    }
    let mut rest = bytes;
    'tries: for _ in 0..u64::MAX {
        if rest.is_empty() {
            return true;
        }
        match out.write(rest) {
            Ok(0) => return false,
            Ok(n) => rest = &rest[n..],
            Err(error) => {
                if error.kind() != ErrorKind::Interrupted {
                    return false;
                }
            }
        }
    }
    false
}

/// Writes a number in decimal.
pub(crate) fn put_number<W: Write>(out: &mut W, works: bool, number: u64) -> bool
    ensures { Puts (W.contents out.old) works (W.contents out.new) result (decimal number) }
{
    let mut digits = itoa::Buffer::new();
    put(out, works, digits.format(number).as_bytes())
}
