//! Types as records spell them.

ghost use Rattle.std.specs.Prelude.{OnOk, map};
ghost use Rattle.std.specs.Vec.{vec_items};
ghost use Rattle.std.specs.Io.KnownBytes.{Appends};
ghost use Rattle.st_types.specs.UpperNames.{joined};
ghost use Rattle.st_meaning.specs.Layouts.{type_text};

use st_types::{Kind, Name};
use std::io;
use std::io::Write;

/// Writes names separated by commas.
fn write_names<W: Write>(out: &mut W, names: &[Name]) -> io::Result<()>
    ensures { OnOk result (Appends (W.contents out.old) (W.contents out.new) (joined names.now)) }
{
    match names {
        [] => Ok(()),
        [last] => out.write_all(last.as_slice()),
        [first, others @ ..] => {
            out.write_all(first.as_slice())?;
            out.write_all(b",")?;
            write_names(out, others)
        }
    }
}

/// Writes a type: its keyword, or the names of an enumerated one between parentheses.
pub fn write_type<W: Write>(out: &mut W, types: &[Vec<Name>], kind: Kind) -> io::Result<()>
    ensures { OnOk result
        (Appends (W.contents out.old) (W.contents out.new) (type_text (map vec_items types.now) kind)) }
{
    let Kind::Enumerated { number, .. } = kind else {
        return out.write_all(kind.row().keyword.as_bytes());
    };
    let Some(names) = types.get(number as usize) else {
        return Ok(());
    };
    out.write_all(b"(")?;
    write_names(out, names)?;
    out.write_all(b")")
}
