//! The outcome that a warm start of a text would have with a retain file.

ghost use Rattle.std.specs.Prelude.{◌≡◌, ◌≢◌, ℕ, IfOk, IfErr, OnOk, map};
ghost use Rattle.std.specs.Vec.{vec_items};
ghost use Rattle.std.specs.Io.KnownBytes.{Appends};
ghost use Rattle.st_meaning.specs.Layouts.{layout_text};
ghost use Rattle.plan.specs.PlanViews.{plan_view};
ghost use Rattle.retain_store.specs.Opening.{RefusesFor};
ghost use Rattle.retain_store.specs.Recovered.{Found, Nothing, recovered};
ghost use Rattle.retain_show.specs.Shown.{IsAccepted};
ghost use Rattle.retain_show.specs.Against.{against, against_shown, changes, changes_against, valued_lines, retained, saved_shown};
ghost use Rattle.retain_show.specs.InitialLines.{record_lines, text_lines, types_of, initial_line};

use crate::changes::{Sides, changes, write_changes};
use crate::contents::opened;
use crate::fate::Changes;
use crate::initial_lines::retained;
use crate::record::{write_generation, write_moment};
use crate::written_lines::valued_lines;
use plan::Plan;
use retain_store::{Record, StoreFault};
use st_meaning::PlanVariable;
use st_types::Name;
use std::alloc::Global;
use std::io;
use std::io::Write;

/// The variables of a text, as a start needs them.
#[derive(Clone, Copy)]
struct Text<'a> {
    /// The names of each enumerated type, in the order of the types' numbers.
    types: &'a [Vec<Name>],
    /// The variables in layout order.
    variables: &'a [PlanVariable],
    /// The layout text of its records.
    layout: &'a [u8],
}

/// The variables of a plan's text.
fn text_of(plan: &Plan) -> Text<'_>
    ensures types { map vec_items result.types.now ≡ (plan_view plan.now).enumerations }
    ensures variables { result.variables.now ≡ plan.now.variables.items }
    ensures layout { result.layout.now ≡ layout_text (map vec_items result.types.now) result.variables.now }
{
    Text {
        types: &plan.enumerations,
        variables: &plan.variables,
        layout: plan.layout().text(),
    }
}

/// Writes which record a start saves over one of that generation.
fn write_saved<W: Write>(out: &mut W, is_same: bool, generation: u64) -> io::Result<()>
    ensures { OnOk result (Appends (W.contents out.old) (W.contents out.new) (saved_shown is_same generation)) }
{
    if is_same {
        return out.write_all(b"saves nothing\n");
    }
    if generation == u64::MAX {
        return out.write_all(b"fault S4\n");
    }
    let next = generation + 1;
    write!(out, "saves generation {next}\n")
}

/// Writes the outcome of a start with a file without a record.
fn write_first<W: Write>(alloc: Global, out: &mut W, text: &Text<'_>) -> io::Result<()>
    ensures { OnOk result (Appends (W.contents out.old) (W.contents out.new)
        (against (map vec_items text.now.types.now) text.now.variables.now Nothing)) }
{
    let sides = Sides {
        types: text.types,
        wanted: retained(alloc, text.types, text.variables)?,
        lines: Vec::new(alloc),
    };
    out.write_all(b"no record\n")?;
    write_changes(alloc, out, &sides)?;
    write_saved(out, true, 0)
}

/// The retained variables of a text, and the lines of this record.
fn sides_with<'a>(alloc: Global, text: &Text<'a>, last: &Record) -> io::Result<Sides<'a>>
    ensures types { IfOk result (λ sides. types_of sides ≡ map vec_items text.now.types.now) }
    ensures wanted { IfOk result (λ sides. text_lines sides
        ≡ map (initial_line (map vec_items text.now.types.now)) (retained text.now.variables.now)) }
    ensures lines { IfOk result (λ sides. record_lines sides ≡ valued_lines last.now.layout last.now.values) }
{
    Ok(Sides {
        types: text.types,
        wanted: retained(alloc, text.types, text.variables)?,
        lines: valued_lines(alloc, last.layout(), last.values())?,
    })
}

/// Writes the outcome of a start with a file with this record.
fn write_next<W: Write>(
    alloc: Global,
    out: &mut W,
    text: &Text<'_>,
    generation: u64,
    last: &Record,
) -> io::Result<()>
    requires layout { text.now.layout.now ≡ layout_text (map vec_items text.now.types.now) text.now.variables.now }
    ensures { OnOk result (Appends (W.contents out.old) (W.contents out.new)
        (against (map vec_items text.now.types.now) text.now.variables.now (Found generation last.now))) }
{
    let sides = sides_with(alloc, text, last)?;
    write_generation(out, generation)?;
    write_moment(out, last.moment())?;
    write_changes(alloc, out, &sides)?;
    let is_same = last.layout() == text.layout;
    write_saved(out, is_same, generation)
}

/// The outcome of a start with a file without a record, as a text; S5 if an allocation fails.
fn first_text(alloc: Global, text: &Text<'_>) -> Result<Vec<u8>, StoreFault>
    ensures told { IfOk result (λ shown. shown.items
        ≡ against (map vec_items text.now.types.now) text.now.variables.now Nothing) }
    ensures memory { IfErr result (λ fault. fault ≡ StoreFault.NoMemory) }
{
    let mut shown = Vec::new(alloc);
    match write_first(alloc, &mut shown, text) {
        Ok(()) => Ok(shown),
        Err(_) => Err(StoreFault::NoMemory),
    }
}

/// The outcome of a start with a file with this record, as a text; S5 if an allocation fails.
fn next_text(
    alloc: Global,
    text: &Text<'_>,
    generation: u64,
    last: &Record,
) -> Result<Vec<u8>, StoreFault>
    requires layout { text.now.layout.now ≡ layout_text (map vec_items text.now.types.now) text.now.variables.now }
    ensures told { IfOk result (λ shown. shown.items
        ≡ against (map vec_items text.now.types.now) text.now.variables.now (Found generation last.now)) }
    ensures memory { IfErr result (λ fault. fault ≡ StoreFault.NoMemory) }
{
    let mut shown = Vec::new(alloc);
    match write_next(alloc, &mut shown, text, generation, last) {
        Ok(()) => Ok(shown),
        Err(_) => Err(StoreFault::NoMemory),
    }
}

/// The outcome of a warm start of the text with the bytes of a file.
fn text_against(alloc: Global, text: &Text<'_>, file: Vec<u8>) -> Result<Vec<u8>, StoreFault>
    requires layout { text.now.layout.now ≡ layout_text (map vec_items text.now.types.now) text.now.variables.now }
    ensures told { IfOk result (λ shown. shown.items
        ≡ against (map vec_items text.now.types.now) text.now.variables.now (recovered file.items)) }
    ensures accepted { IfOk result (λ _. IsAccepted (recovered file.items)) }
    ensures refused { IfErr result (λ fault. RefusesFor fault (recovered file.items)) }
    ensures read { IfErr result (λ fault. fault ≢ StoreFault.Device) }
{
    let store = opened(alloc, file)?;
    match store.last() {
        Some(last) => next_text(alloc, text, store.generation(), last),
        None => first_text(alloc, text),
    }
}

/// The outcome that a warm start of the plan would have with a file, as a text: the generation of the last record and
/// its moment, or `no record`; a line for each RETAIN variable of the plan, in order, `carried PATH TYPE = VALUE`,
/// `new PATH TYPE = VALUE` or `retyped PATH TYPE = VALUE, was TYPE = VALUE`; a line `dropped PATH TYPE = VALUE` for each
/// line of the record whose path none of them has; how many there are of each; and `saves generation N`,
/// `saves nothing` or `fault S4`.
///
/// S1 if the file is too long, S2 if it is damaged, S5 if an allocation fails.
pub fn shown_against(alloc: Global, plan: &Plan, file: Vec<u8>) -> Result<Vec<u8>, StoreFault>
    ensures told { IfOk result (λ text. text.items ≡ against_shown plan.now (recovered file.items)) }
    ensures accepted { IfOk result (λ _. IsAccepted (recovered file.items)) }
    ensures refused { IfErr result (λ fault. RefusesFor fault (recovered file.items)) }
    ensures read { IfErr result (λ fault. fault ≢ StoreFault.Device) }
{
    text_against(alloc, &text_of(plan), file)
}

/// How many variables and lines there are of each sort if this record's layout text is not the text's own.
fn changes_over(alloc: Global, text: &Text<'_>, last: &Record) -> io::Result<Option<Changes>>
    requires layout { text.now.layout.now ≡ layout_text (map vec_items text.now.types.now) text.now.variables.now }
    ensures { IfOk result (λ found. (generation : ℕ) → found
        ≡ changes (map vec_items text.now.types.now) text.now.variables.now (Found generation last.now)) }
{
    if last.layout() == text.layout {
        return Ok(None);
    }
    let sides = sides_with(alloc, text, last)?;
    let changes = changes(alloc, &sides)?;
    Ok(Some(changes))
}

/// The same for the bytes of a file.
fn text_changes(
    alloc: Global,
    text: &Text<'_>,
    file: Vec<u8>,
) -> Result<Option<Changes>, StoreFault>
    requires layout { text.now.layout.now ≡ layout_text (map vec_items text.now.types.now) text.now.variables.now }
    ensures told { IfOk result (λ found. found
        ≡ changes (map vec_items text.now.types.now) text.now.variables.now (recovered file.items)) }
    ensures accepted { IfOk result (λ _. IsAccepted (recovered file.items)) }
    ensures refused { IfErr result (λ fault. RefusesFor fault (recovered file.items)) }
    ensures read { IfErr result (λ fault. fault ≢ StoreFault.Device) }
{
    let store = opened(alloc, file)?;
    let Some(last) = store.last() else {
        return Ok(None);
    };
    match changes_over(alloc, text, last) {
        Ok(changes) => Ok(changes),
        Err(_) => Err(StoreFault::NoMemory),
    }
}

/// How many variables a warm start of the plan would carry over from a file and how many not, and how many lines of its
/// record it would drop; none if the file has no record, or one of the plan's own layout text.
///
/// S1 if the file is too long, S2 if it is damaged, S5 if an allocation fails.
pub fn changes_against(
    alloc: Global,
    plan: &Plan,
    file: Vec<u8>,
) -> Result<Option<Changes>, StoreFault>
    ensures told { IfOk result (λ found. found ≡ changes_against plan.now (recovered file.items)) }
    ensures accepted { IfOk result (λ _. IsAccepted (recovered file.items)) }
    ensures refused { IfErr result (λ fault. RefusesFor fault (recovered file.items)) }
    ensures read { IfErr result (λ fault. fault ≢ StoreFault.Device) }
{
    text_changes(alloc, &text_of(plan), file)
}
