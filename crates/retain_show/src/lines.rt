//! The lines of a layout text with their values.

ghost use Rattle.std.specs.Prelude.{◌≡◌, ◌∷◌, [], IfOk, OnOk, map};
ghost use Rattle.std.specs.Vec.{vec_items};
ghost use Rattle.std.specs.Io.KnownBytes.{Appends};
ghost use Rattle.retain_records.specs.Splits.{parted};
ghost use Rattle.retain_show.specs.Shown.{inner, line_shown, lines_shown, spelling_of};

use retain_records::split_at;
use st_print::write_value;
use st_types::{Name, Value};
use std::alloc::{AllocError, Global};
use std::io;
use std::io::Write;

/// The spelling of the type in a line `PATH TYPE`.
fn spelling_of(line: &[u8]) -> &[u8]
    ensures { result.now ≡ spelling_of line.now }
{
    match split_at(b' ', line) {
        Some((_, spelling)) => spelling,
        None => &[],
    }
}

/// The bytes between the first and the last one.
fn inner(word: &[u8]) -> &[u8]
    ensures { result.now ≡ inner word.now }
{
    if word.len() < 2 {
        return &[];
    }
    &word[1..word.len() - 1]
}

/// The parts between commas.
fn parts(alloc: Global, text: &[u8]) -> Result<Vec<Name>, AllocError>
    ensures { IfOk result (λ names. names.items ≡ parted 44 text.now) }
{
    let mut names = Vec::new(alloc);
    let mut rest = text;
    while let Some((name, behind)) = split_at(b',', rest) {
        names.push(Name::from_slice(alloc, name)?)?;
        rest = behind;
    }
    names.push(Name::from_slice(alloc, rest)?)?;
    Ok(names)
}

/// The names of the enumerated type with this spelling.
pub(crate) fn names_of_type(alloc: Global, spelling: &[u8]) -> Result<Vec<Vec<Name>>, AllocError>
    ensures { IfOk result (λ types. map vec_items types.items ≡ parted 44 (inner spelling.now) ∷ []) }
{
    let mut types = Vec::new(alloc);
    types.push(parts(alloc, inner(spelling))?)?;
    Ok(types)
}

/// Writes a line `PATH TYPE = VALUE`.
fn write_line<W: Write>(alloc: Global, out: &mut W, line: &[u8], value: Value) -> io::Result<()>
    ensures { OnOk result (Appends (W.contents out.old) (W.contents out.new) (line_shown line.now value)) }
{
    let types = names_of_type(alloc, spelling_of(line))?;
    out.write_all(line)?;
    out.write_all(b" = ")?;
    write_value(out, value, &types)?;
    out.write_all(b"\n")
}

/// Writes a line `PATH TYPE = VALUE` for each line of a layout text.
pub(crate) fn write_lines<W: Write>(
    alloc: Global,
    out: &mut W,
    layout: &[u8],
    values: &[Value],
) -> io::Result<()>
    ensures { OnOk result
        (Appends (W.contents out.old) (W.contents out.new) (lines_shown (parted 10 layout.now) values.now)) }
{
    let mut rest = layout;
    for value in values {
        let Some((line, behind)) = split_at(b'\n', rest) else {
            return write_line(alloc, out, rest, *value);
        };
        write_line(alloc, out, line, *value)?;
        rest = behind;
    }
    Ok(())
}
