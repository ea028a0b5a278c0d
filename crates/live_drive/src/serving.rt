//! What comes is served, one after another.

ghost use Rattle.std.specs.Prelude.{◌≡◌, ℕ, List, false, MatchResult};
ghost use Rattle.std.specs.Io.KnownBytes.{Appends};
ghost use Rattle.trace.specs.Puts.{IsPut};
ghost use Rattle.live_drive.specs.AnswerLines.{missed_line};
ghost use Rattle.live_drive.specs.Serving.{Fails, HasServed, IsAnswered, is_late};

use crate::answers::{Answers, Missed};
use crate::cycle::cycle;
use crate::feed::{Feed, FeedEnd, Incoming};
use core_engine::{Engine, Refusal as Serial};
use disk::Disk;
use durable_core::{EndlessCore, Refusal};
use plan::Plan;
use st_meaning::Outcome;
use st_types::{Activation, Row};
use std::alloc::Global;
use std::io::Write;

/// Why serving came to its end.
#[derive(Clone, Copy, Debug, PartialEq, Eq)]
pub enum End {
    /// The feed has ended.
    Feed(FeedEnd),
    /// The life has ended: its store failed (K5), there was no memory (K6), or its log is full (K1).
    Life(Refusal),
    /// Out of memory for what came.
    NoMemory,
    /// An answer can't be written. A beginning of it may have gone out.
    Output,
}

/// How what came was answered.
#[derive(Clone, Copy, Debug, PartialEq, Eq)]
pub enum Answered {
    /// With the outputs after its row, of whose executions so many ended with a fault.
    Served { faults: u64 },
    /// Without a row.
    Missed(Missed),
}

/// Who sees how each line or tick fares, and what the life does.
pub trait Observer {
    /// It has come.
    fn begun(&mut self);

    /// Its row was latched.
    fn latched(&mut self, row: &Row);

    /// An activation has run, and ended so.
    fn ran(&mut self, plan: &Plan, activation: Activation, outcome: Outcome);

    /// Its row has settled, and all is acknowledged.
    fn saved(&mut self, engine: &Engine);

    /// It was answered.
    fn answered(&mut self, answered: Answered);
}

/// Answers what has no row that is latched.
fn miss<W: Write>(
    answers: &mut Answers,
    out: &mut W,
    moment: Option<u64>,
    missed: Missed,
) -> Result<Answered, End>
    ensures answers { MatchResult result
        (λ answered. Appends (W.contents out.old) (W.contents out.new) (missed_line moment missed))
        (λ end. (end ≡ End.Output)
        × IsPut (W.contents out.old) (W.contents out.new) false (missed_line moment missed)) }
    ensures outputs { answers.new ≡ answers.old }
{
    match answers.send_missed(out, moment, missed) {
        Ok(()) => Ok(Answered::Missed(missed)),
        Err(_) => Err(End::Output),
    }
}

/// Whether a row is refused because its moment isn't later: K4.
fn is_late(refusal: Refusal) -> bool
    ensures { result ≡ is_late refusal }
{
    match refusal {
        Refusal::StoreFailed(_) => false,
        Refusal::Serial(refusal) => match refusal {
            Serial::NotLater => true,
            Serial::Full | Serial::NotWaiting | Serial::Foreign | Serial::NoMemory => false,
        },
    }
}

/// Serves a row, and answers with its outputs once its state is safe on disk.
fn serve_row<D: Disk, W: Write, O: Observer>(
    core: &mut EndlessCore<D>,
    alloc: Global,
    answers: &mut Answers,
    out: &mut W,
    row: &Row,
    observer: &mut O,
) -> Result<Answered, End>
    ensures answers { MatchResult result
        (λ answered. (answer : List ℕ) × Appends (W.contents out.old) (W.contents out.new) answer
        × IsAnswered answers.old D.tells D.left_since D.may_leave core.old (Incoming.Row row.now) answer core.new)
        (λ end. Fails answers.old D.tells D.left_since D.may_leave core.old (Incoming.Row row.now) (W.contents out.old) end
        core.new (W.contents out.new)) }
    ensures outputs { answers.new ≡ answers.old }
{
    core.kept();
    match cycle(core, alloc, row, observer) {
        Ok(faults) => {
            core.kept();
            match answers.send_outputs(out, core) {
                Ok(()) => Ok(Answered::Served { faults }),
                Err(_) => Err(End::Output),
            }
        }
        Err(refusal) if is_late(refusal) => {
            miss(answers, out, Some(row.moment()), Missed::NotLater)
        }
        Err(refusal) => Err(End::Life(refusal)),
    }
}

/// Serves what has come.
fn serve_incoming<D: Disk, W: Write, O: Observer>(
    core: &mut EndlessCore<D>,
    alloc: Global,
    answers: &mut Answers,
    out: &mut W,
    incoming: &Incoming,
    observer: &mut O,
) -> Result<Answered, End>
    ensures answers { MatchResult result
        (λ answered. (answer : List ℕ) × Appends (W.contents out.old) (W.contents out.new) answer
        × IsAnswered answers.old D.tells D.left_since D.may_leave core.old incoming.now answer core.new)
        (λ end. Fails answers.old D.tells D.left_since D.may_leave core.old incoming.now (W.contents out.old) end
        core.new (W.contents out.new)) }
    ensures outputs { answers.new ≡ answers.old }
{
    match incoming {
        Incoming::Row(row) => serve_row(core, alloc, answers, out, row, observer),
        Incoming::NoRow(moment) => miss(answers, out, *moment, Missed::NoRow),
        Incoming::Old(moment) => miss(answers, out, Some(*moment), Missed::Newer),
    }
}

/// Serves what comes of a feed, one after another, until the feed or the life ends.
///
/// Each is answered by one line: the outputs after its row, once nothing waits and all is acknowledged, or why it was refused,
/// or that it was missed, since a newer row was there already. What is refused or missed changes nothing.
pub fn serve<D: Disk, F: Feed, W: Write, O: Observer>(
    core: &mut EndlessCore<D>,
    alloc: Global,
    feed: &mut F,
    answers: &mut Answers,
    out: &mut W,
    observer: &mut O,
) -> End
    ensures { HasServed answers.old D.tells D.left_since D.may_leave F.came F.gives F.ended result core.old feed.old
        (W.contents out.old) core.new feed.new (W.contents out.new) }
{
    for _ in 0..u64::MAX {
        match feed.wait() {
            Ok(()) => {}
            Err(end) => return End::Feed(end),
        }
        observer.begun();
        match feed.take(alloc, core.plan(), core.last_moment()) {
            Ok(incoming) => {
                match serve_incoming(core, alloc, answers, out, &incoming, observer) {
                    Ok(answered) => observer.answered(answered),
                    Err(end) => return end,
                }
            }
            Err(_) => return End::NoMemory,
        }
    }
    // No life has come so far.
    match feed.wait() {
        Ok(()) => End::NoMemory,
        Err(end) => End::Feed(end),
    }
}
