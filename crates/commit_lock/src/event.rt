//! Calls of a core as data, and their answers.

use durable_core::Refusal;
use serial_core::Answer;
use st_types::Row;

/// A call of a core.
#[derive(Drop)]
pub enum Event {
    /// Latches a row.
    Latch(Row),
    /// Takes the best activation that waits on a resource, and holds it.
    Take(usize),
    /// Runs and commits the snapshot of the take of this number. The takes of a list are counted from 0.
    Commit(usize),
    /// Takes, runs and commits the best activation that waits on a resource, in one step.
    CommitHere(usize),
    /// Acknowledges the entries of the log.
    Flush,
}

/// The answer to an event.
#[derive(Clone, Copy, Debug, PartialEq, Eq)]
pub enum Reply {
    /// The number of the row that was latched, from 0.
    Latched(usize),
    /// Whether something was taken.
    Taken(bool),
    /// How an execution was answered.
    Answered(Answer),
    /// The log's length after a commit in one step; none if nothing waited.
    Here(Option<usize>),
    /// How many entries are acknowledged.
    Flushed(usize),
    Refused(Refusal),
}
