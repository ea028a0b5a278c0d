//! The changes that a warm start makes to the variables of a text.

ghost use Rattle.std.specs.Prelude.{◌≡◌, ◌++◌, IfOk, OnOk, Some, None, filter, length, map, option_map};
ghost use Rattle.std.specs.List.{flat_map};
ghost use Rattle.std.specs.Vec.{vec_items};
ghost use Rattle.std.specs.Io.KnownBytes.{Appends};
ghost use Rattle.retain_show.specs.Against.{dropped_shown, typed_shown, was_shown, with_value};
ghost use Rattle.retain_show.specs.InitialLines.{all_changes, all_shown, fate_in, line_view, match_shown, match_view, matched};
ghost use Rattle.retain_show.specs.InitialLines.{record_lines, text_lines, types_of};

use crate::fate::{Changes, Fate};
use crate::lines::names_of_type;
use crate::matching::{Match, dropped_in, matched};
use crate::written_lines::Line;
use st_print::write_value;
use st_types::{Name, Value};
use std::alloc::{AllocError, Global};
use std::io;
use std::io::Write;

/// The retained variables of a text, and the lines of a record.
pub(crate) struct Sides<'a> {
    /// The names of each enumerated type of the text, in the order of the types' numbers.
    pub types: &'a [Vec<Name>],
    /// The variables, with their initial values.
    pub wanted: Vec<Line>,
    /// The lines of the record.
    pub lines: Vec<Line>,
}

impl Drop for Sides<'_> {
    fn drop(self) {
        let Self {
            types: _,
            wanted: _,
            lines: _,
        } = self;
    }
}

/// Writes `TYPE = VALUE` of a line of a record.
fn write_typed<W: Write>(alloc: Global, out: &mut W, line: &Line) -> io::Result<()>
    ensures { OnOk result (Appends (W.contents out.old) (W.contents out.new) (typed_shown (line_view line.now))) }
{
    let types = names_of_type(alloc, &line.spelling)?;
    out.write_all(&line.spelling)?;
    out.write_all(b" = ")?;
    write_value(out, line.value, &types)
}

/// Writes the old line of a retyped variable.
fn write_was<W: Write>(
    alloc: Global,
    out: &mut W,
    fate: Fate,
    other: &Option<&Line>,
) -> io::Result<()>
    ensures { OnOk result (Appends (W.contents out.old) (W.contents out.new)
        (was_shown fate (option_map (λ l. line_view l.now) other.now))) }
{
    match (fate, other) {
        (Fate::Retyped, Some(line)) => {
            out.write_all(b", was ")?;
            write_typed(alloc, out, line)
        }
        _ => Ok(()),
    }
}

/// Writes `PATH TYPE = VALUE` of a variable.
fn write_with_value<W: Write>(
    out: &mut W,
    types: &[Vec<Name>],
    wanted: &Line,
    value: Value,
) -> io::Result<()>
    ensures { OnOk result (Appends (W.contents out.old) (W.contents out.new)
        (with_value (map vec_items types.now) wanted.now.path.items wanted.now.spelling.items value)) }
{
    out.write_all(&wanted.path)?;
    out.write_all(b" ")?;
    out.write_all(&wanted.spelling)?;
    out.write_all(b" = ")?;
    write_value(out, value, types)
}

/// Writes the line of a variable.
fn write_match<W: Write>(
    alloc: Global,
    out: &mut W,
    types: &[Vec<Name>],
    variable: &Match<'_>,
) -> io::Result<()>
    ensures { OnOk result (Appends (W.contents out.old) (W.contents out.new)
        (match_shown (map vec_items types.now) (match_view variable.now))) }
{
    let fate = variable.fate();
    let value = variable.value();
    out.write_all(fate.word())?;
    write_with_value(out, types, variable.wanted, value)?;
    write_was(alloc, out, fate, &variable.other)?;
    out.write_all(b"\n")
}

/// Writes a line for each variable.
fn write_all_matches<W: Write>(alloc: Global, out: &mut W, sides: &Sides<'_>) -> io::Result<()>
    ensures { OnOk result (Appends (W.contents out.old) (W.contents out.new)
        (flat_map (match_shown (types_of sides.now)) (map (matched (record_lines sides.now)) (text_lines sides.now)))) }
{
    for wanted in &sides.wanted {
        write_match(alloc, out, sides.types, &matched(wanted, &sides.lines))?;
    }
    Ok(())
}

/// The fate of each variable.
fn fates(alloc: Global, sides: &Sides<'_>) -> Result<Vec<Fate>, AllocError>
    ensures { IfOk result
        (λ fates. fates.items ≡ map fate_in (map (matched (record_lines sides.now)) (text_lines sides.now))) }
{
    let mut fates = Vec::new(alloc);
    for wanted in &sides.wanted {
        fates.push(matched(wanted, &sides.lines).fate())?;
    }
    Ok(fates)
}

/// How many variables and lines of the record there are of each sort.
pub(crate) fn changes(alloc: Global, sides: &Sides<'_>) -> Result<Changes, AllocError>
    ensures { IfOk result (λ changes. changes ≡ all_changes (record_lines sides.now) (text_lines sides.now)) }
{
    let fates = fates(alloc, sides)?;
    let dropped = dropped_in(alloc, &sides.wanted, &sides.lines)?;
    Ok(Changes::of(&fates, dropped.len()))
}

/// Writes a line of the record that is dropped.
fn write_dropped<W: Write>(alloc: Global, out: &mut W, line: &Line) -> io::Result<()>
    ensures { OnOk result (Appends (W.contents out.old) (W.contents out.new) (dropped_shown (line_view line.now))) }
{
    out.write_all(b"dropped ")?;
    out.write_all(&line.path)?;
    out.write_all(b" ")?;
    write_typed(alloc, out, line)?;
    out.write_all(b"\n")
}

/// Writes a line for each line of the record that is dropped.
fn write_all_dropped<W: Write>(alloc: Global, out: &mut W, dropped: &[&Line]) -> io::Result<()>
    ensures { OnOk result (Appends (W.contents out.old) (W.contents out.new)
        (flat_map dropped_shown (map (λ l. line_view l.now) dropped.now))) }
{
    for line in dropped {
        write_dropped(alloc, out, line)?;
    }
    Ok(())
}

/// Writes a line for each variable, one for each line of the record that is dropped, and how many there are of each.
pub(crate) fn write_changes<W: Write>(
    alloc: Global,
    out: &mut W,
    sides: &Sides<'_>,
) -> io::Result<()>
    ensures { OnOk result (Appends (W.contents out.old) (W.contents out.new)
        (all_shown (types_of sides.now) (record_lines sides.now) (text_lines sides.now))) }
{
    let dropped = dropped_in(alloc, &sides.wanted, &sides.lines)?;
    write_all_matches(alloc, out, sides)?;
    write_all_dropped(alloc, out, &dropped)?;
    let changes = changes(alloc, sides)?;
    changes.write(out)
}
