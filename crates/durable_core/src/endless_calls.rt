//! Rows, snapshots and executions of a core without its log.

ghost use Rattle.std.specs.Prelude.{◌≡◌, ℕ, MatchOption, Ok};
ghost use Rattle.core_engine.specs.Steps.{Latches, Takes, Commits, CommitsHere, none_waits, waits_in};
ghost use Rattle.core_engine.specs.Quick.{CommitsOne, EndsAs, IsBestIn, IsOwnCode, TakesQuick};
ghost use Rattle.durable_core.specs.Cores.{Guards};
ghost use Rattle.durable_core.specs.Endless.{EachCoreAnswers, InEachCore};

use crate::endless::EndlessCore;
use crate::refusal::Refusal;
use core_engine::Answer;
use disk::Disk;
use slot_run::{Execution, Snapshot, Taken};
use st_meaning::Outcome;
use st_types::{Activation, Row};
use std::alloc::Global;

impl<D: Disk> EndlessCore<D> {
    /// Latches a row, and gives its number from 0. It allocates nothing.
    ///
    /// K5 if the store has failed, else K1 if the log is full, else K3 if the row doesn't fit the plan, else K4 if its
    /// moment is not later than the last one, of the log or of the record that the life started from.
    pub fn latch(&mut self, row: &Row) -> Result<u64, Refusal>
        ensures { EachCoreAnswers D.tells D.left_since D.may_leave result (λ a r b. Latches a row.now r b)
            self.old self.new }
    {
        self.store.kept();
        if let Some(cause) = self.failed {
            return Err(Refusal::StoreFailed(cause));
        }
        let result = self.engine.latch(row);
        self.kept();
        match result {
            Ok(number) => Ok(number),
            Err(refusal) => Err(Refusal::Serial(refusal)),
        }
    }

    /// The best activation that waits on the resource; none if nothing waits there.
    pub fn best(&self, resource: usize) -> Option<Activation>
        ensures { InEachCore self.now
            (λ core. MatchOption result (none_waits core.state resource) (IsBestIn core.state resource)) }
    {
        self.engine.best(resource)
    }

    /// Runs and commits an activation that waits, in one step, and gives how it ended.
    ///
    /// K5 if the store has failed, else K1 if the log is full, or K6 if an allocation fails.
    pub fn commit_activation(
        &mut self,
        alloc: Global,
        activation: Activation,
    ) -> Result<Outcome, Refusal>
        requires waits { InEachCore self.old (λ core. waits_in core.state activation) }
        ensures { EachCoreAnswers D.tells D.left_since D.may_leave result (λ a r b. CommitsOne a activation r b)
            self.old self.new }
    {
        self.store.kept();
        if let Some(cause) = self.failed {
            return Err(Refusal::StoreFailed(cause));
        }
        let result = self.engine.commit_activation(alloc, activation);
        self.kept();
        match result {
            Ok(outcome) => Ok(outcome),
            Err(refusal) => Err(Refusal::Serial(refusal)),
        }
    }

    /// Runs and commits the best activation that waits on the resource, in one step, and gives the log's length after
    /// it; none if nothing waits there. It is never stale.
    ///
    /// K5 if the store has failed; else none; else K1 if the log is full, or K6 if an allocation fails.
    pub fn commit_here(&mut self, alloc: Global, resource: usize) -> Result<Option<usize>, Refusal>
        ensures { EachCoreAnswers D.tells D.left_since D.may_leave result (λ a r b. CommitsHere a resource r b)
            self.old self.new }
    {
        self.store.kept();
        if let Some(cause) = self.failed {
            return Err(Refusal::StoreFailed(cause));
        }
        let result = self.engine.commit_here(alloc, resource);
        self.kept();
        match result {
            Ok(length) => Ok(length),
            Err(refusal) => Err(Refusal::Serial(refusal)),
        }
    }

    /// Counts the execution's Done and applies its writes, if all that it read still has its value. It allocates nothing.
    ///
    /// K5 if the store has failed, else K1 if the log is full, else K2 if the activation is not waiting, else K3 if the
    /// execution is not that of its activation in this core, else Stale if something that it read has another value
    /// now.
    pub fn commit(&mut self, execution: Execution) -> Result<Answer, Refusal>
        ensures commits { EachCoreAnswers D.tells D.left_since D.may_leave result (λ a r b. Commits a execution r b)
            self.old self.new }
        // A Done ends as the execution did.
        ensures outcome { (n : ℕ) → result ≡ Ok (Answer.Committed n)
            → InEachCore self.old (λ core. EndsAs core.state execution.activation execution.outcome) }
    {
        self.store.kept();
        if let Some(cause) = self.failed {
            return Err(Refusal::StoreFailed(cause));
        }
        let result = self.engine.commit(execution);
        self.kept();
        match result {
            Ok(answer) => Ok(answer),
            Err(refusal) => Err(Refusal::Serial(refusal)),
        }
    }

    /// The same for an execution whose code is known to be that of its activation's program here, so that the two need
    /// not be compared.
    pub fn commit_own(&mut self, execution: Execution) -> Result<Answer, Refusal>
        requires own { InEachCore self.old (λ core. IsOwnCode core.state execution) }
        ensures commits { EachCoreAnswers D.tells D.left_since D.may_leave result (λ a r b. Commits a execution r b)
            self.old self.new }
        // A Done ends as the execution did.
        ensures outcome { (n : ℕ) → result ≡ Ok (Answer.Committed n)
            → InEachCore self.old (λ core. EndsAs core.state execution.activation execution.outcome) }
    {
        self.store.kept();
        if let Some(cause) = self.failed {
            return Err(Refusal::StoreFailed(cause));
        }
        let result = self.engine.commit_own(execution);
        self.kept();
        match result {
            Ok(answer) => Ok(answer),
            Err(refusal) => Err(Refusal::Serial(refusal)),
        }
    }

    /// A snapshot of the best activation that waits on the resource; none if nothing waits there.
    ///
    /// K5 if the store has failed, K6 if an allocation fails.
    pub fn take(&self, alloc: Global, resource: usize) -> Result<Option<Snapshot>, Refusal>
        ensures { InEachCore self.now (λ core. Guards core result core (λ r. Takes core.state resource r)) }
    {
        if let Some(cause) = self.failed {
            return Err(Refusal::StoreFailed(cause));
        }
        match self.engine.take(alloc, resource) {
            Ok(taken) => Ok(taken),
            Err(refusal) => Err(Refusal::Serial(refusal)),
        }
    }

    /// The input of a run of the best activation that waits on the resource: the values of the slots that its code
    /// names, if there is quick code, otherwise a snapshot. None if nothing waits there.
    ///
    /// K5 if the store has failed, K6 if an allocation fails.
    pub fn take_quick(&self, alloc: Global, resource: usize) -> Result<Option<Taken>, Refusal>
        ensures { InEachCore self.now (λ core. Guards core result core (λ r. TakesQuick core.state resource r)) }
    {
        if let Some(cause) = self.failed {
            return Err(Refusal::StoreFailed(cause));
        }
        match self.engine.take_quick(alloc, resource) {
            Ok(taken) => Ok(taken),
            Err(refusal) => Err(Refusal::Serial(refusal)),
        }
    }
}
