//! The head of a segment, as a text.

ghost use Rattle.std.specs.Prelude.{◌≡◌, ◌++◌, ◌∷◌, OnOk, codes, length, map, option_map};
ghost use Rattle.std.specs.List.{flat_map};
ghost use Rattle.std.specs.Vec.{vec_items};
ghost use Rattle.std.specs.Fmt.{decimal, signed_decimal};
ghost use Rattle.live_rows.specs.RowLines.{row_line};
ghost use Rattle.trace.specs.Texts.{keep_line, line, moment_text};
ghost use Rattle.trace_segments.specs.Heads.{checkpoint_in, overruns_lines, paired_text};
ghost use Rattle.trace_segments.specs.Segments.{head_text, last_text, overruns_line, rows_text, samples_line, title_text};

use plan::{Plan, ProgramInstance};
use st_meaning::PlanVariable;
use st_types::{Name, Value};
use std::io;
use std::io::Write;
use std::marker::Model;
use trace::put_keep;

/// How far a life has come in which nothing waits. Contracts see its checkpoint.
#[derive(Drop)]
pub struct Head<'a> {
    /// How many rows there were.
    pub rows: u64,
    /// The moment of the first row in milliseconds.
    pub first: u64,
    /// The moment in milliseconds and the inputs of the last row, if there is one.
    pub last_row: Option<(u64, &'a [Value])>,
    /// SINGLE of each task at the last row.
    pub samples: &'a [bool],
    /// For each program, how often it was due while it waited.
    pub overruns: &'a [u64],
    /// The values of the variables, by their slots.
    pub values: &'a [Value],
}

impl<'a> Model for Head<'a> {
    ghost use Rattle.std.specs.Prelude.{option_map};
    ghost use Rattle.trace_segments.specs.Heads.{HeadView};

    ghost Value = { HeadView };

    ghost view = { λ h. record {
      rows = h.rows;
      first = h.first;
      last_row = option_map (λ r. record { moment = r.0; image = r.1.now }) h.last_row;
      samples = h.samples.now;
      overruns = h.overruns.now;
      values = h.values.now;
    } };
}

/// Appends words, a number and LF.
fn push_number(text: &mut Vec<u8>, words: &str, number: u64) -> io::Result<()>
    ensures { OnOk result (text.new.items ≡ text.old.items ++ line (words.now ++ decimal number)) }
{
    writeln!(text, "{words}{number}")
}

/// Appends the line of the moment that the life's first row had to be later than.
fn push_moment(text: &mut Vec<u8>, before: Option<u64>) -> io::Result<()>
    ensures { OnOk result (text.new.items ≡ text.old.items ++ line (codes "moment " ++ moment_text before)) }
{
    match before {
        Some(moment) => push_number(text, "moment ", moment),
        None => writeln!(text, "moment none"),
    }
}

/// Appends the lines that say which life it is, and which segment.
fn push_title(text: &mut Vec<u8>, plan: &Plan, number: u64, before: Option<u64>) -> io::Result<()>
    ensures { OnOk result (text.new.items ≡ text.old.items ++ title_text plan.now number before) }
{
    writeln!(text, "trace 2")?;
    push_number(text, "budget ", u64::from(plan.budget))?;
    push_number(text, "segment ", number)?;
    push_moment(text, before)
}

/// Appends a comma and the number of each value.
fn push_values(text: &mut Vec<u8>, image: &[Value]) -> io::Result<()>
    ensures { OnOk result (text.new.items ≡ text.old.items ++ flat_map (λ v. 44 ∷ signed_decimal v.number) image.now) }
{
    for value in image {
        write!(text, ",{}", value.number())?;
    }
    Ok(())
}

/// Appends a row as a line of a plant has it.
pub(crate) fn push_row(text: &mut Vec<u8>, moment: u64, image: &[Value]) -> io::Result<()>
    ensures { OnOk result (text.new.items ≡ text.old.items ++ row_line record { moment = moment; image = image.now }) }
{
    write!(text, "{moment}")?;
    push_values(text, image)
}

/// Appends the line of the last row.
fn push_last(text: &mut Vec<u8>, row: Option<(u64, &[Value])>) -> io::Result<()>
    ensures { OnOk result (text.new.items ≡ text.old.items ++ line (codes "last "
        ++ last_text (option_map (λ r. record { moment = r.0; image = r.1.now }) row.entry))) }
{
    match row {
        Some((moment, image)) => {
            write!(text, "last ")?;
            push_row(text, moment, image)?;
            writeln!(text, "")
        }
        None => writeln!(text, "last none"),
    }
}

/// Appends the line of the samples.
fn push_samples(text: &mut Vec<u8>, samples: &[bool]) -> io::Result<()>
    ensures { OnOk result (text.new.items ≡ text.old.items ++ samples_line samples.now) }
{
    write!(text, "single")?;
    for sample in samples {
        text.extend_from_slice(if *sample { b" 1" } else { b" 0" })?;
    }
    writeln!(text, "")
}

/// Appends the line of the overruns of a program.
fn push_overruns(text: &mut Vec<u8>, program: &ProgramInstance, overruns: u64) -> io::Result<()>
    ensures { OnOk result (text.new.items ≡ text.old.items ++ overruns_line program.now overruns) }
{
    write!(text, "overruns ")?;
    text.extend_from_slice(program.owner.resource.as_slice())?;
    text.push(b'/')?;
    text.extend_from_slice(program.owner.instance.as_slice())?;
    writeln!(text, " {overruns}")
}

/// Appends the lines of the overruns of all programs.
fn push_all_overruns(
    text: &mut Vec<u8>,
    programs: &[ProgramInstance],
    overruns: &[u64],
) -> io::Result<()>
    requires sized { length overruns.now ≡ length programs.now }
    ensures { OnOk result (text.new.items ≡ text.old.items ++ overruns_lines programs.now overruns.now) }
{
    for i in 0..programs.len() {
        push_overruns(text, &programs[i], overruns[i])?;
    }
    Ok(())
}

/// Appends the line of a variable.
fn push_keep(
    text: &mut Vec<u8>,
    types: &[Vec<Name>],
    variable: &PlanVariable,
    value: Value,
) -> io::Result<()>
    ensures { OnOk result (text.new.items ≡ text.old.items ++ keep_line (map vec_items types.now) variable.now.path value) }
{
    if put_keep(text, true, types, &variable.path, value) {
        Ok(())
    } else {
        Err(io::Error::from(io::ErrorKind::OutOfMemory))
    }
}

/// Appends the lines of all variables.
fn push_keeps(
    text: &mut Vec<u8>,
    types: &[Vec<Name>],
    variables: &[PlanVariable],
    values: &[Value],
) -> io::Result<()>
    requires sized { length values.now ≡ length variables.now }
    ensures { OnOk result (text.new.items ≡ text.old.items ++ paired_text (map vec_items types.now) variables.now values.now) }
{
    for i in 0..variables.len() {
        push_keep(text, types, &variables[i], values[i])?;
    }
    Ok(())
}

/// Appends the lines of the rows.
fn push_rows(text: &mut Vec<u8>, head: &Head<'_>) -> io::Result<()>
    ensures { (plan : _) → OnOk result (text.new.items ≡ text.old.items ++ rows_text (checkpoint_in plan head.now)) }
{
    push_number(text, "rows ", head.rows)?;
    push_number(text, "first ", head.first)?;
    push_last(text, head.last_row)?;
    push_samples(text, head.samples)
}

/// Appends the head of the segment of this number, of a life whose first row had to be later than a moment. The error is out
/// of memory.
pub fn push_head(
    text: &mut Vec<u8>,
    plan: &Plan,
    number: u64,
    before: Option<u64>,
    head: &Head<'_>,
) -> io::Result<()>
    requires programs { length head.now.overruns ≡ length plan.now.programs.items }
    requires values { length head.now.values ≡ length plan.now.variables.items }
    ensures { OnOk result (text.new.items ≡ text.old.items ++ head_text plan.now number before (checkpoint_in plan.now head.now)) }
{
    push_title(text, plan, number, before)?;
    push_rows(text, head)?;
    push_all_overruns(text, &plan.programs, head.overruns)?;
    push_keeps(text, &plan.enumerations, &plan.variables, head.values)
}
