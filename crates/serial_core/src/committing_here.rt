//! Committing in one step.

ghost use Rattle.std.specs.Prelude.{MatchOption};
ghost use Rattle.serial_core.specs.Steps.{CommitsHere, CommitsWaiting, none_waits, waits_in};
ghost use Rattle.core_engine.specs.Quick.{CommitsOne, IsBestIn};

use crate::serial::SerialCore;
use core_engine::Refusal;
use st_meaning::Outcome;
use st_types::{Activation, Entry};
use std::alloc::Global;

impl SerialCore {
    /// The best activation that waits on the resource; none if nothing waits there.
    fn best(&self, resource: usize) -> Option<Activation>
        ensures { MatchOption result (none_waits self.now resource) (IsBestIn self.now resource) }
    {
        self.engine.best(resource)
    }

    /// Runs and commits an activation that waits, in one step, and gives how it ended. K1 if the log is full, K6 out of
    /// memory.
    fn commit_activation(
        &mut self,
        alloc: Global,
        activation: Activation,
    ) -> Result<Outcome, Refusal>
        requires waits { waits_in self.old activation }
        ensures { CommitsOne self.old activation result self.new }
    {
        let outcome = self.engine.commit_activation(alloc, activation)?;
        self.history.append(Entry::Done(activation), Some(outcome));
        Ok(outcome)
    }

    /// Runs and commits the activation of a program that waits, by the program's number from 0, in one step, and gives the
    /// log's length after it; none if nothing of it waits. Nothing that was read can have changed, so it is never stale.
    ///
    /// K1 if the log is full, K6 out of memory.
    pub fn commit_waiting(
        &mut self,
        alloc: Global,
        program: usize,
    ) -> Result<Option<usize>, Refusal>
        ensures { CommitsWaiting self.old program result self.new }
    {
        let Some(row) = self.waiting(program) else {
            return Ok(None);
        };
        self.commit_activation(alloc, Activation { program, row })?;
        Ok(Some(self.len()))
    }

    /// Takes, runs and commits the best activation that waits on the resource, in one step, and gives the log's length after
    /// it; none if nothing waits there. Nothing that was read can have changed, so it is never stale.
    ///
    /// K1 if the log is full, K6 out of memory.
    pub fn commit_here(&mut self, alloc: Global, resource: usize) -> Result<Option<usize>, Refusal>
        ensures { CommitsHere self.old resource result self.new }
    {
        let Some(activation) = self.best(resource) else {
            return Ok(None);
        };
        self.commit_activation(alloc, activation)?;
        Ok(Some(self.len()))
    }
}
