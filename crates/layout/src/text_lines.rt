//! The layout text of a record.

ghost use Rattle.std.specs.Prelude.{◌≡◌, ◌++◌, IfOk, OnOk, map};
ghost use Rattle.std.specs.Vec.{vec_items};
ghost use Rattle.std.specs.Io.KnownBytes.{Appends};
ghost use Rattle.st_meaning.specs.Layouts.{line_of, layout_text};

use st_meaning::PlanVariable;
use st_print::{write_path, write_type};
use st_types::Name;
use std::alloc::{AllocError, Global};
use std::io;
use std::io::Write;

/// Writes a line `PATH TYPE` with LF.
fn write_line<W: Write>(out: &mut W, types: &[Vec<Name>], variable: &PlanVariable) -> io::Result<()>
    ensures { OnOk result (Appends (W.contents out.old) (W.contents out.new)
        (line_of (map vec_items types.now) variable.now)) }
{
    write_path(out, &variable.path)?;
    out.write_all(b" ")?;
    write_type(out, types, variable.initial.kind())?;
    out.write_all(b"\n")
}

/// Appends a line.
fn push_line(
    text: &mut Vec<u8>,
    types: &[Vec<Name>],
    variable: &PlanVariable,
) -> Result<(), AllocError>
    ensures { IfOk result (λ _. text.new.items ≡ text.old.items ++ line_of (map vec_items types.now) variable.now) }
{
    match write_line(text, types, variable) {
        Ok(()) => Ok(()),
        Err(_) => Err(AllocError),
    }
}

/// The layout text of a record of these variables: a line `PATH TYPE` with LF for each retained one, in order. The
/// enumerated types have their names, in the order of the types' numbers.
pub fn layout_text(
    alloc: Global,
    types: &[Vec<Name>],
    variables: &[PlanVariable],
) -> Result<Vec<u8>, AllocError>
    ensures { IfOk result (λ text. text.items ≡ layout_text (map vec_items types.now) variables.now) }
{
    let mut text = Vec::new(alloc);
    for variable in variables {
        if variable.retained {
            push_line(&mut text, types, variable)?;
        }
    }
    Ok(text)
}
