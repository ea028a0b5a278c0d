//! Rows, snapshots and executions.

ghost use Rattle.std.specs.Prelude.{List, ℕ};
ghost use Rattle.retain_store.specs.Recovered.{recovered};
ghost use Rattle.serial_core.specs.Steps.{Latches, Takes, Commits, CommitsHere};
ghost use Rattle.serial_core.specs.Quick.{IsOwnCode, TakesQuick};
ghost use Rattle.durable_core.specs.Cores.{Guards, Outlives, survives};

use crate::core_state::Core;
use crate::refusal::Refusal;
use disk::Disk;
use serial_core::Answer;
use slot_run::{Execution, Snapshot, Taken};
use st_types::{Entry, Row};
use std::alloc::Global;

impl<D: Disk> Core<D> {
    /// Latches a row, and gives its number from 0. It allocates nothing.
    ///
    /// K5 if the store has failed, else K1 if the log is full, else K3 if the row doesn't fit the plan, else K4 if its
    /// moment is not later than the last one, of the log or of the record that the life started from.
    pub fn latch(&mut self, row: Row) -> Result<usize, Refusal>
        ensures latches { Guards self.old result self.new (λ r. Latches self.old.state row r self.new.state) }
        ensures outlives { D.tells → Outlives D.left_since D.may_leave self.old self.new }
    {
        let result = self.endless.latch(&row);
        match result {
            Ok(number) => {
                self.history.append(Entry::Row(row), None);
                Ok(number as usize)
            }
            Err(refusal) => Err(refusal),
        }
    }

    /// Runs and commits the best activation that waits on the resource, in one step, and gives the log's length after
    /// it; none if nothing waits there. It is never stale.
    ///
    /// K5 if the store has failed; else none; else K1 if the log is full, or K6 if an allocation fails.
    pub fn commit_here(&mut self, alloc: Global, resource: usize) -> Result<Option<usize>, Refusal>
        ensures commits { Guards self.old result self.new (λ r. CommitsHere self.old.state resource r self.new.state) }
        ensures outlives { D.tells → Outlives D.left_since D.may_leave self.old self.new }
    {
        self.kept();
        if let Some(cause) = self.endless.failed {
            return Err(Refusal::StoreFailed(cause));
        }
        let Some(activation) = self.endless.best(resource) else {
            return Ok(None);
        };
        let result = self.endless.commit_activation(alloc, activation);
        match result {
            Ok(outcome) => {
                self.history.append(Entry::Done(activation), Some(outcome));
                Ok(Some(self.history.len()))
            }
            Err(refusal) => Err(refusal),
        }
    }

    /// Appends the execution's Done and applies its writes, if all that it read still has its value. It allocates nothing.
    ///
    /// K5 if the store has failed, else K1 if the log is full, else K2 if the activation is not waiting, else K3 if the
    /// execution is not that of its activation in this core, else Stale if something that it read has another value
    /// now.
    pub fn commit(&mut self, execution: Execution) -> Result<Answer, Refusal>
        ensures commits { Guards self.old result self.new (λ r. Commits self.old.state execution r self.new.state) }
        ensures outlives { D.tells → Outlives D.left_since D.may_leave self.old self.new }
    {
        let activation = execution.activation();
        let outcome = execution.outcome();
        let result = self.endless.commit(execution);
        match result {
            Ok(answer) => {
                self.history.append_done(&Ok(answer), activation, outcome);
                Ok(answer)
            }
            Err(refusal) => Err(refusal),
        }
    }

    /// The same for an execution whose code is known to be that of its activation's program here, so that the two need
    /// not be compared.
    pub fn commit_own(&mut self, execution: Execution) -> Result<Answer, Refusal>
        requires own { IsOwnCode self.old.state execution }
        ensures commits { Guards self.old result self.new (λ r. Commits self.old.state execution r self.new.state) }
        ensures outlives { D.tells → Outlives D.left_since D.may_leave self.old self.new }
    {
        let activation = execution.activation();
        let outcome = execution.outcome();
        let result = self.endless.commit_own(execution);
        match result {
            Ok(answer) => {
                self.history.append_done(&Ok(answer), activation, outcome);
                Ok(answer)
            }
            Err(refusal) => Err(refusal),
        }
    }

    /// A snapshot of the best activation that waits on the resource; none if nothing waits there.
    ///
    /// K5 if the store has failed, K6 if an allocation fails.
    pub fn take(&self, alloc: Global, resource: usize) -> Result<Option<Snapshot>, Refusal>
        ensures takes { Guards self.now result self.now (λ r. Takes self.now.state resource r) }
        ensures survives { D.tells → (file : List ℕ) → D.may_leave self.now.store.disk file
            → survives self.now (recovered file) }
    {
        self.kept();
        self.endless.take(alloc, resource)
    }

    /// The input of a run of the best activation that waits on the resource: the values of the slots that its code
    /// names, if there is quick code, otherwise a snapshot. None if nothing waits there.
    ///
    /// K5 if the store has failed, K6 if an allocation fails.
    pub fn take_quick(&self, alloc: Global, resource: usize) -> Result<Option<Taken>, Refusal>
        ensures takes { Guards self.now result self.now (λ r. TakesQuick self.now.state resource r) }
        ensures survives { D.tells → (file : List ℕ) → D.may_leave self.now.store.disk file
            → survives self.now (recovered file) }
    {
        self.kept();
        self.endless.take_quick(alloc, resource)
    }
}
