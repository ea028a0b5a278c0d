//! The head of a segment, read.
//!
//! A head is read part by part into a position. Then it is written again, and has to be the same text: so each head has one
//! spelling, and no reading can be another than the writing.

ghost use Rattle.std.specs.Prelude.{◌≡◌, ◌≤◌, ◌<◌, IfOk, IfSome, length, map};
ghost use Rattle.std.specs.List.{AllByRecursion};
ghost use Rattle.st_types.specs.declared.limits.TheConstants.{MOMENT_LIMIT};
ghost use Rattle.trace_segments.specs.Heads.{resting};
ghost use Rattle.trace_segments.specs.Positions.{IsTyped, most_rows};

use crate::position::Position;
use crate::progress::Progress;
use image::PlantError;
use live_rows::RowReader;
use plan::{Plan, ProgramInstance};
use ready_list::plan_schedules;
use st_types::{Row, Value};
use std::alloc::Global;
use std::sync::Arc;
use trace::{
    ReplayError, after_count, after_program, after_words, first_field, first_number, kept_value,
    moment,
};

/// The number after these words, and the text after its line.
fn number_line<'a>(text: &'a [u8], words: &[u8]) -> Result<(u64, &'a [u8]), ReplayError> {
    let Some(field) = after_words(text, words) else {
        return Err(ReplayError::Form);
    };
    match first_number(b'\n', field) {
        Some(read) => Ok(read),
        None => Err(ReplayError::Form),
    }
}

/// The last row, if there is one, and the text after its line.
fn last_line<'a>(
    alloc: Global,
    plan: &Plan,
    text: &'a [u8],
) -> Result<(Option<Row>, &'a [u8]), ReplayError>
    ensures typed { IfOk result (λ read. IfSome read.0 (λ row. IsTyped plan.now row)) }
    ensures early { IfOk result (λ read. IfSome read.0 (λ row. row.moment < MOMENT_LIMIT)) }
{
    let Some(words) = after_words(text, b"last ") else {
        return Err(ReplayError::Form);
    };
    let Some((field, rest)) = first_field(b'\n', words) else {
        return Err(ReplayError::Form);
    };
    if field == b"none".as_slice() {
        return Ok((None, rest));
    }
    match RowReader::new(alloc).row(alloc, plan.inputs(), field) {
        Ok(row) => Ok((Some(row), rest)),
        Err(PlantError::NoMemory) => Err(ReplayError::NoMemory),
        Err(_) => Err(ReplayError::Form),
    }
}

/// A sample, and the text after it.
fn sample(text: &[u8]) -> Result<(bool, &[u8]), ReplayError> {
    if let Some(rest) = after_words(text, b" 1") {
        return Ok((true, rest));
    }
    match after_words(text, b" 0") {
        Some(rest) => Ok((false, rest)),
        None => Err(ReplayError::Form),
    }
}

/// The samples of so many tasks, and the text after their line.
fn samples_line<'a>(
    alloc: Global,
    tasks: usize,
    text: &'a [u8],
) -> Result<(Vec<bool>, &'a [u8]), ReplayError> {
    let Some(mut rest) = after_words(text, b"single") else {
        return Err(ReplayError::Form);
    };
    let mut samples = Vec::new(alloc);
    for _ in 0..tasks {
        let (one, after) = sample(rest)?;
        if samples.push(one).is_err() {
            return Err(ReplayError::NoMemory);
        }
        rest = after;
    }
    match after_words(rest, b"\n") {
        Some(rest) => Ok((samples, rest)),
        None => Err(ReplayError::Form),
    }
}

/// The overruns of a program, and the text after its line.
fn overruns_line<'a>(
    program: &ProgramInstance,
    text: &'a [u8],
) -> Result<(u64, &'a [u8]), ReplayError> {
    let Some(words) = after_words(text, b"overruns ") else {
        return Err(ReplayError::Form);
    };
    let Some(field) = after_program(words, program) else {
        return Err(ReplayError::Form);
    };
    match first_number(b'\n', field) {
        Some(read) => Ok(read),
        None => Err(ReplayError::Form),
    }
}

/// The programs, none of which waits or has more overruns than there were rows, and the text after their lines.
fn programs_lines<'a>(
    alloc: Global,
    plan: &Plan,
    rows: u64,
    text: &'a [u8],
) -> Result<(Vec<Progress>, &'a [u8]), ReplayError>
    ensures placed { IfOk result (λ read. length read.0.items ≡ length plan.now.programs.items) }
    ensures resting { IfOk result (λ read. AllByRecursion (λ p. p ≡ resting p.overruns) read.0.items) }
    ensures overruns { IfOk result (λ read. AllByRecursion (λ p. p.overruns ≤ rows) read.0.items) }
{
    let mut programs = Vec::new(alloc);
    let mut rest = text;
    for program in &plan.programs {
        let (overruns, after) = overruns_line(program, rest)?;
        if overruns > rows {
            return Err(ReplayError::Form);
        }
        if programs.push(Progress::resting(overruns)).is_err() {
            return Err(ReplayError::NoMemory);
        }
        rest = after;
    }
    Ok((programs, rest))
}

/// The values of the variables, and the text after their lines.
fn values_lines<'a>(
    alloc: Global,
    plan: &Plan,
    text: &'a [u8],
) -> Result<(Vec<Value>, &'a [u8]), ReplayError>
    ensures typed { IfOk result (λ read. map (λ d. d.kind) read.0.items
        ≡ map (λ v. v.initial.kind) plan.now.variables.items) }
{
    let mut values = Vec::new(alloc);
    let mut rest = text;
    for variable in &plan.variables {
        match kept_value(alloc, &plan.enumerations, variable, rest) {
            Ok(Some((value, after))) => {
                if values.push(value).is_err() {
                    return Err(ReplayError::NoMemory);
                }
                rest = after;
            }
            Ok(None) => return Err(ReplayError::Form),
            Err(_) => return Err(ReplayError::NoMemory),
        }
    }
    Ok((values, rest))
}

/// The number of a segment and the moment that its life's first row had to be later than, and the text after their lines.
fn title_lines<'a>(
    plan: &Plan,
    text: &'a [u8],
) -> Result<(u64, Option<u64>, &'a [u8]), ReplayError> {
    let Some(lines) = after_words(text, b"trace 2\n") else {
        return Err(ReplayError::Form);
    };
    let Some(lines) = after_count(lines, b"budget ", u64::from(plan.budget)) else {
        return Err(ReplayError::Form);
    };
    let (number, lines) = number_line(lines, b"segment ")?;
    match moment(lines) {
        Some((before, rest)) => Ok((number, before, rest)),
        None => Err(ReplayError::Form),
    }
}

/// At most how many rows there can be up to this one: their moments rise from 0.
fn most_rows(last_row: &Option<Row>) -> u64
    requires early { IfSome last_row.now (λ row. row.moment < MOMENT_LIMIT) }
    ensures { result ≡ most_rows last_row.now }
{
    match last_row {
        Some(row) => row.moment() + 1,
        None => 0,
    }
}

/// The number of the segment and its position, if the lines of a head are there in any spelling.
pub(crate) fn position_in(
    alloc: Global,
    plan: Arc<Plan>,
    text: &[u8],
) -> Result<(u64, Position), ReplayError>
    ensures plan { IfOk result (λ read. read.1.plan ≡ plan.value) }
{
    let (number, before, lines) = title_lines(&plan, text)?;
    let (rows, lines) = number_line(lines, b"rows ")?;
    let (first, lines) = number_line(lines, b"first ")?;
    let (last_row, lines) = last_line(alloc, &plan, lines)?;
    if rows > most_rows(&last_row) {
        return Err(ReplayError::Form);
    }
    let (samples, lines) = samples_line(alloc, plan.tasks.len(), lines)?;
    let (programs, lines) = programs_lines(alloc, &plan, rows, lines)?;
    let (values, _) = values_lines(alloc, &plan, lines)?;
    let Ok(schedules) = plan_schedules(alloc, &plan) else {
        return Err(ReplayError::NoMemory);
    };
    let position = Position {
        plan,
        before,
        values,
        rows,
        first,
        last_row,
        samples,
        schedules,
        programs,
    };
    Ok((number, position))
}
