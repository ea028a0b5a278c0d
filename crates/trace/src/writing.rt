//! Writing a trace.

ghost use Rattle.std.specs.Prelude.{◌≡◌, ◌++◌, List, ℕ, Option, OnOk, IfErr, length, map};
ghost use Rattle.std.specs.Vec.{vec_items};
ghost use Rattle.std.specs.Io.KnownBytes.{Appends};
ghost use Rattle.st_meaning.specs.Logs.{outcomes_of};
ghost use Rattle.plan.specs.PlanViews.{plan_view};
ghost use Rattle.trace.specs.Puts.{Puts};
ghost use Rattle.trace.specs.Texts.{kept_line, kept_text, log_text, trace_of};

use crate::lines::{put_begin, put_end, put_entry, put_keep};
use crate::putting::put;
use crate::trace_error::ReplayError;
use disk::Disk;
use durable_core::Core;
use st_meaning::PlanVariable;
use st_types::{Name, Value};
use std::io::Write;

/// Writes the line of a variable with its value at the start, if it is retained.
fn put_kept_line<W: Write>(
    out: &mut W,
    works: bool,
    types: &[Vec<Name>],
    variable: &PlanVariable,
    value: Value,
) -> bool
    ensures { Puts (W.contents out.old) works (W.contents out.new) result
        (kept_line (map vec_items types.now) variable.now value) }
{
    if variable.retained {
        put_keep(out, works, types, &variable.path, value)
    } else {
        put(out, works, b"")
    }
}

/// Writes the lines of the retained variables, with the names of these enumerated types, unless a part before them was
/// not written whole. It answers whether all was.
pub fn put_kept<W: Write>(
    out: &mut W,
    works: bool,
    types: &[Vec<Name>],
    variables: &[PlanVariable],
    values: &[Value],
) -> bool
    requires sized { length values.now ≡ length variables.now }
    ensures { Puts (W.contents out.old) works (W.contents out.new) result
        (kept_text (map vec_items types.now) variables.now values.now) }
{
    let mut works = works;
    for i in 0..variables.len() {
        works = put_kept_line(out, works, types, &variables[i], values[i]);
    }
    works
}

/// Writes the lines of the log.
fn put_log<W: Write, D: Disk>(out: &mut W, works: bool, core: &Core<D>) -> bool
    ensures { Puts (W.contents out.old) works (W.contents out.new) result (log_text core.now.state.plan
        core.now.state.log (outcomes_of (plan_view core.now.state.plan) core.now.state.start core.now.state.log)) }
{
    let mut works = works;
    for i in 0..core.len() {
        works = put_entry(out, works, core.plan(), core.entry(i), core.outcome(i));
    }
    works
}

/// Writes the trace of a core: its life so far. It runs no code and takes no memory.
///
/// V6 if the writer fails; it has got a beginning of the trace then.
pub fn write_trace<D: Disk, W: Write>(core: &Core<D>, out: &mut W) -> Result<(), ReplayError>
    ensures whole { OnOk result (Appends (W.contents out.old) (W.contents out.new) (trace_of core.now)) }
    ensures part { IfErr result (λ error. (error ≡ ReplayError.Device) × (front : List ℕ) × (rest : List ℕ)
        × (trace_of core.now ≡ front ++ rest) × Appends (W.contents out.old) (W.contents out.new) front) }
{
    let plan = core.plan();
    let works = put_begin(out, plan.budget, core.mode(), core.start_moment());
    let works = put_kept(
        out,
        works,
        &plan.enumerations,
        &plan.variables,
        core.start_values(),
    );
    let works = put_log(out, works, core);
    let works = put_end(out, works, core.len());
    if works {
        Ok(())
    } else {
        Err(ReplayError::Device)
    }
}
