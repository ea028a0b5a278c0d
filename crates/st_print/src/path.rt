//! Paths.

ghost use Rattle.std.specs.Prelude.{◌++◌, codes, OnOk};
ghost use Rattle.std.specs.Fmt.{signed_decimal};
ghost use Rattle.std.specs.Io.KnownBytes.{Appends};
ghost use Rattle.st_meaning.specs.Layouts.{owner_text, path_text, step_text, steps_text};

use st_types::{Owner, Path, Step};
use std::io;
use std::io::Write;

/// RESOURCE/INSTANCE and a dot, for a variable of a program.
fn write_owner<W: Write>(out: &mut W, owner: &Option<Owner>) -> io::Result<()>
    ensures { OnOk result (Appends (W.contents out.old) (W.contents out.new) (owner_text owner.now)) }
{
    let Some(owner) = owner else {
        return Ok(());
    };
    out.write_all(owner.resource.as_slice())?;
    out.write_all(b"/")?;
    out.write_all(owner.instance.as_slice())?;
    out.write_all(b".")
}

/// A dot and a member, or a subscript in brackets.
fn write_step<W: Write>(out: &mut W, step: &Step) -> io::Result<()>
    ensures { OnOk result (Appends (W.contents out.old) (W.contents out.new) (step_text step.now)) }
{
    match step {
        Step::Member(name) => {
            out.write_all(b".")?;
            out.write_all(name.as_slice())
        }
        Step::Element(subscript) => write!(out, "[{}]", *subscript),
    }
}

fn write_steps<W: Write>(out: &mut W, steps: &[Step]) -> io::Result<()>
    ensures { OnOk result (Appends (W.contents out.old) (W.contents out.new) (steps_text steps.now)) }
{
    for step in steps {
        write_step(out, step)?;
    }
    Ok(())
}

/// Writes a path: RESOURCE/INSTANCE.NAME or NAME, then .MEMBER and [subscript].
pub fn write_path<W: Write>(out: &mut W, path: &Path) -> io::Result<()>
    ensures spelled { OnOk result (Appends (W.contents out.old) (W.contents out.new) (path_text path.now)) }
{
    write_owner(out, path.owner())?;
    out.write_all(path.name().as_slice())?;
    write_steps(out, path.steps())
}
