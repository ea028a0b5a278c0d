//! How far a program has come.

ghost use Rattle.std.specs.Prelude.{◌≡◌, ◌<◌, ◌^◌, OnOk, Some, option_map, None};
ghost use Rattle.checkpoints.specs.Compaction.{progress_with, row_waiting};
ghost use Rattle.checkpoints.specs.Continuation.{IsWaitingWith};

use st_types::Row;
use std::alloc::{AllocError, Global};
use std::marker::Model;
use trace::copied;

/// The row that a program waits with. Contracts see its number in the life and the row itself.
#[derive(Drop)]
pub(crate) struct WaitingRow {
    number: u64,
    row: Row,
}

impl Model for WaitingRow {
    ghost use Rattle.checkpoints.specs.Checkpoints.{WaitingRow as WaitingRowView};

    ghost Value = { WaitingRowView };

    ghost view = { λ w. record { number = w.number; row = w.row } };
}

/// How far a program has come: the row that it waits with, if it waits, and its overruns.
#[derive(Drop)]
pub(crate) struct Progress {
    waiting: Option<WaitingRow>,
    overruns: u64,
}

impl Model for Progress {
    ghost use Rattle.checkpoints.specs.Checkpoints.{ProgramProgress};

    ghost Value = { ProgramProgress };

    ghost view = { λ p. record { waiting = p.waiting; overruns = p.overruns } };
}

impl Progress {
    /// A program that doesn't wait.
    pub(crate) fn resting(overruns: u64) -> Progress
        ensures { result ≡ record { waiting = None; overruns = overruns } }
    {
        Progress {
            waiting: None,
            overruns,
        }
    }

    /// How often it was due while it waited.
    pub(crate) fn overruns(&self) -> u64
        ensures { result ≡ self.now.overruns }
    {
        self.overruns
    }

    /// The number of the row that it waits with.
    pub(crate) fn number(&self) -> Option<u64>
        ensures { result ≡ option_map (λ w. w.number) self.now.waiting }
    {
        match &self.waiting {
            Some(waiting) => Some(waiting.number),
            None => None,
        }
    }

    /// The row of this number, if it waits with it.
    pub(crate) fn row(&self, number: u64) -> Option<&Row>
        ensures some { (row : _) → option_map (λ r. r.now) result ≡ Some row
            → IsWaitingWith self.now.waiting number × (row_waiting self.now.waiting ≡ row) }
        ensures none { option_map (λ r. r.now) result ≡ None → IsWaitingWith self.now.waiting number → ⊥ }
    {
        match &self.waiting {
            Some(waiting) if waiting.number == number => Some(&waiting.row),
            _ => None,
        }
    }

    /// A row of this number has come, at which it is due or not. The error is out of memory.
    pub(crate) fn row_comes(
        &mut self,
        alloc: Global,
        is_due: bool,
        number: u64,
        row: &Row,
    ) -> Result<(), AllocError>
        requires { self.old.overruns < 2 ^ 63 }
        ensures { OnOk result (self.new ≡ progress_with self.old is_due record { number = number; row = row.now }) }
    {
        if !is_due {
            return Ok(());
        }
        match self.waiting {
            Some(_) => self.overruns += 1,
            None => {
                let row = copied(alloc, row)?;
                self.waiting = Some(WaitingRow { number, row });
            }
        }
        Ok(())
    }

    /// Its execution has ended.
    pub(crate) fn ends(&mut self)
        ensures { self.new ≡ record { waiting = None; overruns = self.old.overruns } }
    {
        self.waiting = None;
    }
}
