//! Where rows come from.

ghost use Rattle.std.specs.Prelude.{◌≡◌, ℕ, List, Option, IfOk, MatchResult};
ghost use Rattle.st_meaning.specs.declared.plan.PlanInput.{PlanInput};
ghost use Rattle.live_drive.specs.declared.feed.FeedEnd.{FeedEnd};
ghost use Rattle.live_drive.specs.declared.feed.Incoming.{Incoming};

use plan::Plan;
use st_types::Row;
use std::alloc::{AllocError, Global};

/// What has come.
#[derive(Drop)]
pub enum Incoming {
    /// A row.
    Row(Row),
    /// A line that spells no row; its first field may spell a moment in milliseconds.
    NoRow(Option<u64>),
    /// A row at this moment in milliseconds that isn't latched, since a newer one is there already.
    Old(u64),
}

/// How a feed has ended.
#[derive(Clone, Copy, Debug, PartialEq, Eq)]
pub enum FeedEnd {
    /// All has come.
    Ended,
    /// It can't be read.
    Unreadable,
    /// Out of memory for what comes.
    NoMemory,
}

/// How many lines came, and how many of them have no row that was latched.
#[derive(Clone, Copy, Debug, PartialEq, Eq)]
pub struct LineCounts {
    pub lines: u64,
    /// How many spell no row.
    pub refused: u64,
    /// How many rows were replaced by newer ones before they were latched.
    pub missed: u64,
}

/// Where the rows of a life come from.
pub trait Feed {
    /// Something has come.
    ghost came: { Self → Self → Type 0 };

    /// What came is this, for a plan of these inputs, after a row at this last moment.
    ghost gives: { List PlanInput → Option ℕ → Self → Incoming → Type 0 };

    /// It has ended so.
    ghost ended: { Self → FeedEnd → Self → Type 0 };

    /// Waits until something comes.
    fn wait(&mut self) -> Result<(), FeedEnd>
        ensures { MatchResult result (λ _. came self.old self.new) (λ end. ended self.old end self.new) };

    /// What has come, after a row at this last moment in milliseconds. The error is out of memory.
    fn take(
        &mut self,
        alloc: Global,
        plan: &Plan,
        last: Option<u64>,
    ) -> Result<Incoming, AllocError>
        ensures incoming { IfOk result (gives plan.now.inputs.items last self.old) }
        ensures same { self.new ≡ self.old };

    /// How many lines have come, if they are not given one by one.
    fn counts(&self) -> Option<LineCounts>;
}
