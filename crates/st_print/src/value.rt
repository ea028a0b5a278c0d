//! Values.

ghost use Rattle.std.specs.Prelude.{◌≡◌, OnOk, map, option_map};
ghost use Rattle.std.specs.Vec.{vec_items};
ghost use Rattle.std.specs.Io.KnownBytes.{Appends};
ghost use Rattle.st_print.specs.Spelling.{name_of, number_text, bool_text, value_text};
ghost use Rattle.st_types.specs.Kinds.{row_of};

use crate::hexadecimal::write_hexadecimal;
use st_types::{Kind, Name, Sort, Value};
use std::io;
use std::io::Write;

/// The name of a value of an enumerated type, if it is among the names.
fn name<'a>(names: &'a [Vec<Name>], value: Value) -> Option<&'a Name>
    ensures { option_map (λ x. x.now) result ≡ name_of (map vec_items names.now) value.kind value.number }
{
    let Kind::Enumerated { number, .. } = value.kind() else {
        return None;
    };
    let place = usize::try_from(value.number()).ok()?;
    names.get(number as usize)?.get(place)
}

/// Writes the number of a value as its type spells it.
fn write_number<W: Write>(out: &mut W, value: Value) -> io::Result<()>
    ensures { OnOk result (Appends (W.contents out.old) (W.contents out.new)
        (number_text (row_of value.kind).sort (row_of value.kind).bits value.number)) }
{
    let row = value.kind().row();
    let number = value.number();
    match row.sort {
        Sort::Signed | Sort::Unsigned | Sort::Place => write!(out, "{number}"),
        Sort::Duration => write!(out, "{number}ms"),
        Sort::Truth => write!(out, "{}", if value.is_true() { "TRUE" } else { "FALSE" }),
        Sort::Bits => {
            write!(out, "16#")?;
            write_hexadecimal(out, usize::from(row.bits / 4), number as u64)
        }
    }
}

/// Writes a value: a whole number in decimal, a BOOL as TRUE or FALSE, a bit string as `16#` and all its hexadecimal
/// digits in upper case, a TIME as its milliseconds and `ms`, a value of an enumerated type as its name in upper case.
///
/// The names are those of each enumerated type of the text, in the order of the types' numbers. A value whose type isn't
/// among them is written as its place, from 0.
pub fn write_value<W: Write>(out: &mut W, value: Value, names: &[Vec<Name>]) -> io::Result<()>
    ensures spelled { OnOk result
        (Appends (W.contents out.old) (W.contents out.new) (value_text (map vec_items names.now) value)) }
{
    match name(names, value) {
        Some(name) => out.write_all(name.as_slice()),
        None => write_number(out, value),
    }
}
