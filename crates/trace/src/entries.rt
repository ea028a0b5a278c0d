//! The log of a trace, run again line by line.

ghost use Rattle.std.specs.Prelude.{◌≡◌, ◌≢◌, ◌↔◌, ◌≤◌, ◌++◌, List, [], codes, length, IsTrue, IfOk, IfErr, OnOk, Some, option_and_then, option_map, slice_get};
ghost use Rattle.st_types.specs.declared.limits.TheConstants.{MAX_LOG_ROOM};
ghost use Rattle.st_types.specs.Rows.{Latch};
ghost use Rattle.st_meaning.specs.Logs.{IsLegal, outcomes_of};
ghost use Rattle.plan.specs.PlanViews.{plan_view};
ghost use Rattle.serial_core.specs.Steps.{grown, past_in, waits_in};
ghost use Rattle.trace.specs.Texts.{end_line, outcome_text};
ghost use Rattle.trace.specs.Rests.{GrowsByLine, Grows, IsNoRest, IsRest, with_log};
ghost use Rattle.trace.specs.Watching.{HasSeen, stages};

use crate::done_lines::{ending, program_of};
use crate::lines::outcome_word;
use crate::parts::{after_count, after_words, first_number};
use crate::trace_error::ReplayError;
use crate::watcher::Watcher;
use serial_core::{Refusal, SerialCore};
use st_meaning::Outcome;
use st_types::Row;
use st_types::limits::MOMENT_LIMIT;
use std::alloc::{AllocError, Global};

/// Another row of the same moment and values.
pub fn copied(alloc: Global, row: &Row) -> Result<Row, AllocError>
    ensures { IfOk result (λ copy. copy ≡ row.now) }
{
    let image = Vec::from_slice(alloc, row.image())?;
    Ok(Row::new(row.moment(), image))
}

/// Latches the plant's next row, if the text after `row ` gives it, and returns the text after this line.
fn replay_row<'a>(
    alloc: Global,
    core: &mut SerialCore,
    rows: &[Row],
    text: &'a [u8],
) -> Result<&'a [u8], ReplayError>
    requires room { core.old.room ≡ MAX_LOG_ROOM }
    requires rows { (left : List Latch) × (rows.now ≡ (past_in core.old).rows ++ left) }
    ensures grows { IfOk result (λ rest. Grows core.old rows.now (codes "row " ++ text.now) rest.now core.new) }
    ensures refused { IfErr result (λ e. e ≢ ReplayError.NoMemory
        → IsNoRest core.old rows.now (codes "row " ++ text.now)) }
{
    let (moment, rest) = match first_number(b'\n', text) {
        Some(told) => told,
        None => return Err(ReplayError::Form),
    };
    if moment >= MOMENT_LIMIT {
        return Err(ReplayError::Form);
    }
    let row = match rows.get(core.rows()) {
        Some(row) => row,
        None => return Err(ReplayError::Row),
    };
    if row.moment() != moment {
        return Err(ReplayError::Row);
    }
    let Ok(row) = copied(alloc, row) else {
        return Err(ReplayError::NoMemory);
    };
    match core.latch(row) {
        Ok(_) => Ok(rest),
        Err(Refusal::Full) => Err(ReplayError::Form),
        Err(_) => Err(ReplayError::Row),
    }
}

/// Whether the program waits with that row.
fn waits_with(core: &SerialCore, program: usize, row: u64) -> bool
    ensures { IsTrue result ↔ waits_in core.now record { program = program; row = row } }
{
    match core.waiting(program) {
        Some(waits) => waits == row,
        None => false,
    }
}

/// Whether the execution of that entry ended so.
fn ended_so(core: &SerialCore, number: usize, outcome: Outcome) -> bool
    ensures { IsTrue result ↔ (outcome_text (option_and_then (λ o. o) (slice_get
        (outcomes_of (plan_view core.now.plan) core.now.start core.now.log) number)) ≡ outcome_text (Some outcome)) }
{
    outcome_word(core.outcome(number)) == outcome_word(Some(outcome))
}

/// Runs the program in the text after `done `, if it waits with this row and ends so, and returns the text after this line.
fn replay_done<'a>(
    alloc: Global,
    core: &mut SerialCore,
    text: &'a [u8],
) -> Result<&'a [u8], ReplayError>
    requires room { core.old.room ≡ MAX_LOG_ROOM }
    ensures grows { (rows left : List Latch) → rows ≡ (past_in core.old).rows ++ left
        → IfOk result (λ rest. Grows core.old rows (codes "done " ++ text.now) rest.now core.new) }
    ensures refused { IfErr result (λ e. e ≢ ReplayError.NoMemory
        → (rows : List Latch) → IsNoRest core.old rows (codes "done " ++ text.now)) }
{
    let (program, field) = match program_of(&core.plan().programs, text) {
        Some(told) => told,
        None => return Err(ReplayError::Form),
    };
    let (row, outcome, rest) = match ending(field) {
        Some(told) => told,
        None => return Err(ReplayError::Form),
    };
    if !waits_with(core, program, row) {
        return Err(ReplayError::NotWaiting);
    }
    match core.commit_waiting(alloc, program) {
        Ok(Some(length)) => {
            if ended_so(core, length - 1, outcome) {
                Ok(rest)
            } else {
                Err(ReplayError::Outcome)
            }
        }
        Ok(None) => Err(ReplayError::NotWaiting),
        Err(Refusal::NoMemory) => Err(ReplayError::NoMemory),
        Err(_) => Err(ReplayError::Form),
    }
}

/// Runs the entry in the first line, and returns the text after it; none if the line isn't that of an entry.
fn replay_entry<'a>(
    alloc: Global,
    core: &mut SerialCore,
    rows: &[Row],
    text: &'a [u8],
) -> Result<Option<&'a [u8]>, ReplayError>
    requires room { core.old.room ≡ MAX_LOG_ROOM }
    requires rows { (left : List Latch) × (rows.now ≡ (past_in core.old).rows ++ left) }
    ensures goes { IfOk result
        (λ told. GrowsByLine core.old rows.now text.now (option_map (λ rest. rest.now) told) core.new) }
    ensures refused { IfErr result (λ e. e ≢ ReplayError.NoMemory
        → IsNoRest core.old rows.now text.now) }
{
    match after_words(text, b"row ") {
        Some(line) => match replay_row(alloc, core, rows, line) {
            Ok(rest) => Ok(Some(rest)),
            Err(error) => Err(error),
        },
        None => match after_words(text, b"done ") {
            Some(line) => match replay_done(alloc, core, line) {
                Ok(rest) => Ok(Some(rest)),
                Err(error) => Err(error),
            },
            None => Ok(None),
        },
    }
}

/// Whether the text is the last line of the trace of this life.
fn is_end(core: &SerialCore, text: &[u8]) -> bool
    ensures end { IsTrue result ↔ (text.now ≡ end_line (length core.now.log)) }
    ensures room { length core.now.log ≤ core.now.room }
    ensures legal { IsLegal (plan_view core.now.plan) core.now.start core.now.before core.now.log }
{
    match after_count(text, b"end ", core.len() as u64) {
        Some(rest) => rest.is_empty(),
        None => false,
    }
}

/// Runs the log in the text again to its end. The watcher sees the core as it was begun, and after each entry.
pub fn replay_log<W: Watcher>(
    alloc: Global,
    core: &mut SerialCore,
    rows: &[Row],
    text: &[u8],
    watcher: &mut W,
) -> Result<(), ReplayError>
    requires empty { core.old.log ≡ [] }
    requires room { core.old.room ≡ MAX_LOG_ROOM }
    ensures told { OnOk result ((core.new ≡ with_log core.old core.new.log)
        × IsRest core.old rows.now text.now core.new.log) }
    ensures watched { OnOk result
        (HasSeen W.sees watcher.old (stages grown core.old core.new.log) watcher.new) }
    ensures refused { IfErr result (λ e. e ≢ ReplayError.NoMemory
        → IsNoRest core.old rows.now text.now) }
{
    let mut rest = text;
    'lines: loop {
        if watcher.seen(core).is_err() {
            return Err(ReplayError::NoMemory);
        }
        match replay_entry(alloc, core, rows, rest) {
            Ok(Some(behind)) => rest = behind,
            Ok(None) => {
                return if is_end(core, rest) {
                    Ok(())
                } else {
                    Err(ReplayError::Form)
                };
            }
            Err(error) => return Err(error),
        }
    }
}
