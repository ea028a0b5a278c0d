//! A segment is run again, alone.

ghost use Rattle.std.specs.Prelude.{◌≡◌, ◌==◌, ◌++◌, IfOk, IfSome, IfNone, IsTrue, true, Some, codes};
ghost use Rattle.std.specs.List.{list_any};
ghost use Rattle.st_meaning.specs.Logs.{Log};
ghost use Rattle.live_rows.specs.RowLines.{row_line};
ghost use Rattle.trace.specs.Texts.{end_line, line, outcome_text};
ghost use Rattle.trace_segments.specs.Positions.{checkpoint_at};
ghost use Rattle.trace_segments.specs.Runs.{IsBeginning, IsReplayOf, IsRunAfter, IsRunAlone, IsTail, StepsTo, outcome_in};
ghost use Rattle.trace_segments.specs.Segments.{IsResting, head_text};

use crate::head::push_row;
use crate::parsing::position_in;
use crate::position::Position;
use crate::watcher::SegmentWatcher;
use image::PlantError;
use live_rows::RowReader;
use plan::Plan;
use st_meaning::Outcome;
use st_types::{Activation, Row};
use std::alloc::{AllocError, Global};
use std::sync::Arc;
use trace::{ReplayError, after_count, after_words, ending, first_field, outcome_word, program_of};

/// Where the segment begins that the text is of: its number, its position, and the text after its head.
///
/// V1 if the text doesn't begin with the head of a segment of this plan, or if the first segment of a life begins after
/// rows; V5 out of memory.
fn begun(alloc: Global, plan: Arc<Plan>, text: &[u8]) -> Result<(u64, Position, &[u8]), ReplayError>
    ensures plan { IfOk result (λ begun. begun.1.plan ≡ plan.value) }
    ensures resting { IfOk result (λ begun. IsResting (checkpoint_at begun.1)) }
    ensures first { IfOk result (λ begun. begun.0 ≡ 0 → IsBeginning (checkpoint_at begun.1)) }
    ensures head { IfOk result (λ begun. text.now
        ≡ head_text plan.value begun.0 begun.1.before (checkpoint_at begun.1) ++ begun.2.now) }
{
    let (number, position) = position_in(alloc, plan, text)?;
    if number == 0 && !position.is_beginning() {
        return Err(ReplayError::Form);
    }
    let head = position.head(alloc, number)?;
    match after_words(text, &head) {
        Some(rest) => Ok((number, position, rest)),
        None => Err(ReplayError::Form),
    }
}

/// The row that a line spells, if it is spelled so, and the text after the line.
fn row_in<'a>(alloc: Global, plan: &Plan, text: &'a [u8]) -> Result<(Row, &'a [u8]), ReplayError>
    ensures { IfOk result (λ read. text.now ≡ line (row_line read.0) ++ read.1.now) }
{
    let Some((field, _)) = first_field(b'\n', text) else {
        return Err(ReplayError::Form);
    };
    let row = match RowReader::new(alloc).row(alloc, plan.inputs(), field) {
        Ok(row) => row,
        Err(PlantError::NoMemory) => return Err(ReplayError::NoMemory),
        Err(_) => return Err(ReplayError::Row),
    };
    let mut spelled = Vec::new(alloc);
    if push_row(&mut spelled, row.moment(), row.image()).is_err() || spelled.push(b'\n').is_err() {
        return Err(ReplayError::NoMemory);
    }
    match after_words(text, &spelled) {
        Some(rest) => Ok((row, rest)),
        None => Err(ReplayError::Form),
    }
}

/// An entry that was run again.
#[derive(Drop)]
struct Entered<'a> {
    /// The program that has run, and how that ended; none if it is a row.
    ended: Option<(usize, Outcome)>,
    /// The text after its line.
    rest: &'a [u8],
}

/// Latches the row in the text after `row `.
fn replay_row<'a>(
    alloc: Global,
    position: Position,
    text: &'a [u8],
) -> Result<(Position, Entered<'a>), ReplayError>
    ensures { IfOk result (λ next. StepsTo position (codes "row " ++ text.now) (outcome_in next.1.ended) next.0 next.1.rest.now) }
{
    let (row, rest) = row_in(alloc, position.plan(), text)?;
    let position = position.after_row(alloc, row)?;
    let entered = Entered { ended: None, rest };
    Ok((position, entered))
}

/// Whether both ends are spelled alike.
fn is_same_end(one: Outcome, other: Outcome) -> bool
    ensures { IsTrue result → outcome_text (Some one) ≡ outcome_text (Some other) }
{
    outcome_word(Some(one)) == outcome_word(Some(other))
}

/// Runs the program in the text after `done `, if it waits with this row and ends so.
fn replay_done<'a>(
    alloc: Global,
    position: Position,
    text: &'a [u8],
) -> Result<(Position, Entered<'a>), ReplayError>
    ensures { IfOk result (λ next. StepsTo position (codes "done " ++ text.now) (outcome_in next.1.ended) next.0 next.1.rest.now) }
{
    let Some((program, field)) = program_of(&position.plan().programs, text) else {
        return Err(ReplayError::Form);
    };
    let Some((row, outcome, rest)) = ending(field) else {
        return Err(ReplayError::Form);
    };
    let (position, ended) = position.after_run(alloc, Activation { program, row })?;
    if !is_same_end(ended, outcome) {
        return Err(ReplayError::Outcome);
    }
    let entered = Entered {
        ended: Some((program, ended)),
        rest,
    };
    Ok((position, entered))
}

/// Whether the text begins with a whole line.
fn has_line(text: &[u8]) -> bool
    ensures { result ≡ list_any (λ byte. byte == 10) text.now }
{
    text.iter().any(|byte| *byte == b'\n')
}

/// Runs the entry in the first line; none if the line isn't that of an entry.
fn replay_entry<'a>(
    alloc: Global,
    position: Position,
    text: &'a [u8],
) -> Result<(Position, Option<Entered<'a>>), ReplayError>
    ensures some { IfOk result (λ next. IfSome next.1 (λ entered. StepsTo position text.now (outcome_in entered.ended) next.0 entered.rest.now)) }
    ensures none { IfOk result (λ next. IfNone next.1 (next.0 ≡ position)) }
{
    if !has_line(text) {
        return Ok((position, None));
    }
    if let Some(line) = after_words(text, b"row ") {
        let (position, entered) = replay_row(alloc, position, line)?;
        return Ok((position, Some(entered)));
    }
    match after_words(text, b"done ") {
        Some(line) => {
            let (position, entered) = replay_done(alloc, position, line)?;
            Ok((position, Some(entered)))
        }
        None => Ok((position, None)),
    }
}

/// Whether the text is the last line of a segment with so many entries.
fn is_end(count: u64, text: &[u8]) -> bool
    ensures { IsTrue result → text.now ≡ end_line count }
{
    match after_count(text, b"end ", count) {
        Some(rest) => rest.is_empty(),
        None => false,
    }
}

/// Where the entries of a segment ended.
#[derive(Drop)]
pub struct Ended {
    /// The number of the segment in its life, from 0.
    pub number: u64,
    /// Where the next one begins.
    pub position: Position,
    /// How many entries it has, and how many of them are rows.
    pub entries: u64,
    pub rows: u64,
    /// How many of its executions ended with a fault.
    pub faults: u64,
    /// How often programs were due in it while they waited.
    pub overruns: u64,
    /// Whether it has its last line. If not, it was cut off, perhaps within a line.
    pub is_whole: bool,
}

/// Whether the text is the last line of a segment with so many entries. If it isn't, the segment was cut off, and it is no whole
/// line; none if it is neither.
fn tail_of(entries: u64, text: &[u8]) -> Option<bool>
    ensures { IfSome result (λ is_whole. IsTail is_whole entries text.now) }
{
    if is_end(entries, text) {
        return Some(true);
    }
    if has_line(text) {
        return None;
    }
    Some(false)
}

/// Shows an entry to an observer.
fn watch<W: SegmentWatcher>(
    position: &Position,
    ended: Option<(usize, Outcome)>,
    watcher: &mut W,
) -> Result<(), AllocError> {
    match ended {
        None => watcher.latched(position),
        Some((program, outcome)) => watcher.ran(position, program, outcome),
    }
}

/// Runs the entries in the text again, to its end. V1 to V5 as a trace.
fn replay_entries<W: SegmentWatcher>(
    alloc: Global,
    number: u64,
    position: Position,
    text: &[u8],
    watcher: &mut W,
) -> Result<Ended, ReplayError>
    ensures { IfOk result (λ ended. (ended.number ≡ number) × (log : Log) × IsReplayOf position text.now log ended) }
{
    let overruns = position.all_overruns();
    let mut now = position;
    let mut rest = text;
    let (mut rows, mut faults) = (0u64, 0u64);
    for entries in 0..u64::MAX {
        let (position, entered) = replay_entry(alloc, now, rest)?;
        let Some(entered) = entered else {
            let Some(is_whole) = tail_of(entries, rest) else {
                return Err(ReplayError::Form);
            };
            let overruns = position.all_overruns().saturating_sub(overruns);
            return Ok(Ended {
                number,
                position,
                entries,
                rows,
                faults,
                overruns,
                is_whole,
            });
        };
        if watch(&position, entered.ended, watcher).is_err() {
            return Err(ReplayError::NoMemory);
        }
        match entered.ended {
            None => rows += 1,
            Some((_, Outcome::Faulted(_))) => faults += 1,
            Some((_, Outcome::Done)) => {}
        }
        rest = entered.rest;
        now = position;
    }
    Err(ReplayError::Form)
}

/// Runs a segment again, alone.
///
/// V1 if the text isn't of the format, V2 if a row doesn't fit the plan or isn't later than the one before, V3 if an
/// execution wasn't waiting, V4 if one ends otherwise, V5 out of memory.
pub fn replay_first<W: SegmentWatcher>(
    alloc: Global,
    plan: Arc<Plan>,
    text: &[u8],
    watcher: &mut W,
) -> Result<Ended, ReplayError>
    ensures { IfOk result (λ ended. IsRunAlone plan.value text.now ended) }
{
    let (number, position, entries) = begun(alloc, plan, text)?;
    if watcher.begun(&position).is_err() {
        return Err(ReplayError::NoMemory);
    }
    replay_entries(alloc, number, position, entries, watcher)
}

/// Runs the next segment of the life again, which begins where this one has ended. If it was cut off within its head, it has no
/// entry.
///
/// V7 if this one was cut off, or the next one begins elsewhere, is of another life, or has another number; otherwise as
/// `replay_first`.
pub fn replay_next<W: SegmentWatcher>(
    alloc: Global,
    before: Ended,
    text: &[u8],
    watcher: &mut W,
) -> Result<Ended, ReplayError>
    ensures whole { IfOk result (λ _. before.is_whole ≡ true) }
    ensures next { IfOk result (λ ended. IsRunAfter before text.now ended) }
{
    let Ended {
        number,
        position,
        entries: _,
        rows: _,
        faults: _,
        overruns: _,
        is_whole,
    } = before;
    if !is_whole || number == u64::MAX {
        return Err(ReplayError::Order);
    }
    let next = number + 1;
    let head = position.head(alloc, next)?;
    if let Some(entries) = after_words(text, &head) {
        return replay_entries(alloc, next, position, entries, watcher);
    }
    match after_words(&head, text) {
        Some(_) => Ok(Ended {
            number: next,
            position,
            entries: 0,
            rows: 0,
            faults: 0,
            overruns: 0,
            is_whole: false,
        }),
        None => Err(ReplayError::Order),
    }
}
