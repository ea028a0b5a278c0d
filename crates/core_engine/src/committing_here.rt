//! Committing in one step.

ghost use Rattle.std.specs.Prelude.{◌≡◌, true, IfErr, IfOk};
ghost use Rattle.core_engine.specs.Steps.{CommitsHere, CommitsWaiting, IsOwn, IsSnapshotIn, reads_are_current, waits_in};
ghost use Rattle.core_engine.specs.Quick.{CommitsOne, IsQuickSnapshotIn};
ghost use Rattle.core_engine.specs.Lived.{EachLifeGoesOn, InEachLife};

use crate::engine::Engine;
use crate::refusal::Refusal;
use slot_run::{Execution, QuickSnapshot, Snapshot, Taken, run_by_values, run_quick};
use st_meaning::Outcome;
use st_types::Activation;
use std::alloc::Global;

impl Engine {
    /// An execution of a snapshot, by the machine on values; K6 out of memory.
    fn whole_execution(&self, alloc: Global, snapshot: Snapshot) -> Result<Execution, Refusal>
        requires parts { InEachLife self.now (λ life. IsSnapshotIn life snapshot) }
        ensures activation { IfOk result (λ e. e.activation ≡ snapshot.activation) }
        ensures own { IfOk result (λ e. InEachLife self.now (λ life. IsOwn life e)) }
        ensures current { IfOk result (λ e. InEachLife self.now (λ life. reads_are_current life e ≡ true)) }
        ensures memory { IfErr result (λ e. e ≡ Refusal.NoMemory) }
    {
        match run_by_values(alloc, snapshot) {
            Ok(execution) => Ok(execution),
            Err(_) => Err(Refusal::NoMemory),
        }
    }

    /// An execution of a quick snapshot, by the machine on values if quick code cannot tell how the run ends; K6 out of
    /// memory.
    fn quick_execution(&self, alloc: Global, quick: QuickSnapshot) -> Result<Execution, Refusal>
        requires waits { InEachLife self.now (λ life. waits_in life quick.activation) }
        requires parts { InEachLife self.now (λ life. IsQuickSnapshotIn life quick) }
        ensures activation { IfOk result (λ e. e.activation ≡ quick.activation) }
        ensures own { IfOk result (λ e. InEachLife self.now (λ life. IsOwn life e)) }
        ensures current { IfOk result (λ e. InEachLife self.now (λ life. reads_are_current life e ≡ true)) }
        ensures memory { IfErr result (λ e. e ≡ Refusal.NoMemory) }
    {
        let activation = quick.activation;
        match run_quick(alloc, quick) {
            Ok(Some(execution)) => Ok(execution),
            Ok(None) => {
                let snapshot = self.snapshot_of(alloc, activation)?;
                self.whole_execution(alloc, snapshot)
            }
            Err(_) => Err(Refusal::NoMemory),
        }
    }

    /// An execution of an activation that waits. The values that it read are still current, since nothing else happens
    /// meanwhile. K6 out of memory.
    fn execution_of(&self, alloc: Global, activation: Activation) -> Result<Execution, Refusal>
        requires waits { InEachLife self.now (λ life. waits_in life activation) }
        ensures activation { IfOk result (λ e. e.activation ≡ activation) }
        ensures own { IfOk result (λ e. InEachLife self.now (λ life. IsOwn life e)) }
        ensures current { IfOk result (λ e. InEachLife self.now (λ life. reads_are_current life e ≡ true)) }
        ensures memory { IfErr result (λ e. e ≡ Refusal.NoMemory) }
    {
        self.lived();
        match self.taken_of(alloc, activation)? {
            Taken::Quick(quick) => self.quick_execution(alloc, quick),
            Taken::Whole(snapshot) => self.whole_execution(alloc, snapshot),
        }
    }

    /// Runs and commits an activation that waits, in one step, and gives how it ended. K1 if the log is full, K6 out of
    /// memory.
    pub fn commit_activation(
        &mut self,
        alloc: Global,
        activation: Activation,
    ) -> Result<Outcome, Refusal>
        requires waits { InEachLife self.old (λ life. waits_in life activation) }
        ensures { EachLifeGoesOn (λ a b. CommitsOne a activation result b) self.old self.new }
    {
        if self.entries >= self.room {
            return Err(Refusal::Full);
        }
        let execution = self.execution_of(alloc, activation)?;
        let outcome = execution.outcome();
        let _ = self.append(execution);
        Ok(outcome)
    }

    /// Runs and commits the activation of a program that waits, by the program's number from 0, in one step, and gives the
    /// log's length after it; none if nothing of it waits. Nothing that was read can have changed, so it is never stale.
    ///
    /// K1 if the log is full, K6 out of memory.
    pub fn commit_waiting(
        &mut self,
        alloc: Global,
        program: usize,
    ) -> Result<Option<usize>, Refusal>
        ensures { EachLifeGoesOn (λ a b. CommitsWaiting a program result b) self.old self.new }
    {
        let Some(row) = self.waiting(program) else {
            return Ok(None);
        };
        self.commit_activation(alloc, Activation { program, row })?;
        Ok(Some(self.entries() as usize))
    }

    /// Takes, runs and commits the best activation that waits on the resource, in one step, and gives the log's length after
    /// it; none if nothing waits there. Nothing that was read can have changed, so it is never stale.
    ///
    /// K1 if the log is full, K6 out of memory.
    pub fn commit_here(&mut self, alloc: Global, resource: usize) -> Result<Option<usize>, Refusal>
        ensures { EachLifeGoesOn (λ a b. CommitsHere a resource result b) self.old self.new }
    {
        let Some(activation) = self.best(resource) else {
            return Ok(None);
        };
        self.commit_activation(alloc, activation)?;
        Ok(Some(self.entries() as usize))
    }
}
