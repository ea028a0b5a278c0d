//! The report of a run.

ghost use Rattle.std.specs.Prelude.{◌≡◌, IfOk, OnOk, map};
ghost use Rattle.std.specs.Vec.{vec_items};
ghost use Rattle.std.specs.Io.KnownBytes.{Appends};
ghost use Rattle.source_run.specs.Reports.{counts_text, report_text, variable_line, variables_text};

use st_meaning::PlanVariable;
use st_print::{write_path, write_value};
use st_types::{Name, Path, Value};
use std::alloc::{AllocError, Global};
use std::io;
use std::io::Write;

/// The counts of a run.
#[derive(Clone, Copy, Debug, PartialEq, Eq)]
pub struct Counts {
    /// How many rows were latched.
    pub rows: u64,
    /// How many executions were committed.
    pub done: u64,
    /// How many of these ended with a fault.
    pub faults: u64,
    /// How often a program was due while it still waited.
    pub overruns: u64,
    /// How many entries of the log are acknowledged; none for a trace that was run again.
    pub acked: Option<u64>,
}

fn write_counts<W: Write>(out: &mut W, counts: &Counts) -> io::Result<()>
    ensures { OnOk result (Appends (W.contents out.old) (W.contents out.new) (counts_text counts.now)) }
{
    let Counts {
        rows,
        done,
        faults,
        overruns,
        acked,
    } = *counts;
    write!(
        out,
        "rows {rows}\ndone {done}\nfaults {faults}\noverruns {overruns}\n"
    )?;
    match acked {
        Some(acked) => write!(out, "acked {acked}\n"),
        None => Ok(()),
    }
}

/// Writes a line `PATH = VALUE`. A value of an enumerated type is its name, of the names of each such type.
pub fn write_variable<W: Write>(
    out: &mut W,
    names: &[Vec<Name>],
    path: &Path,
    value: Value,
) -> io::Result<()>
    ensures spelled { OnOk result (Appends (W.contents out.old) (W.contents out.new)
        (variable_line (map vec_items names.now) path.now value)) }
{
    write_path(out, path)?;
    out.write_all(b" = ")?;
    write_value(out, value, names)?;
    out.write_all(b"\n")
}

fn write_variables<W: Write>(
    out: &mut W,
    names: &[Vec<Name>],
    variables: &[PlanVariable],
    values: &[Value],
) -> io::Result<()>
    ensures { OnOk result (Appends (W.contents out.old) (W.contents out.new)
        (variables_text (map vec_items names.now) variables.now values.now)) }
{
    for (variable, value) in variables.iter().zip(values) {
        write_variable(out, names, &variable.path, *value)?;
    }
    Ok(())
}

/// Writes the report of a run: its counts, and a line `PATH = VALUE` for each of the variables, in layout order. Each
/// enumerated type has its names.
fn write_report<W: Write>(
    out: &mut W,
    counts: &Counts,
    names: &[Vec<Name>],
    variables: &[PlanVariable],
    values: &[Value],
) -> io::Result<()>
    ensures spelled { OnOk result (Appends (W.contents out.old) (W.contents out.new)
        (report_text counts.now (map vec_items names.now) variables.now values.now)) }
{
    write_counts(out, counts)?;
    write_variables(out, names, variables, values)
}

/// The report of a run as it is printed; the only error is out of memory.
pub fn report_with(
    alloc: Global,
    counts: &Counts,
    names: &[Vec<Name>],
    variables: &[PlanVariable],
    values: &[Value],
) -> Result<Vec<u8>, AllocError>
    ensures { IfOk result
        (λ text. text.items ≡ report_text counts.now (map vec_items names.now) variables.now values.now) }
{
    let mut report = Vec::new(alloc);
    match write_report(&mut report, counts, names, variables, values) {
        Ok(()) => Ok(report),
        Err(_) => Err(AllocError),
    }
}
