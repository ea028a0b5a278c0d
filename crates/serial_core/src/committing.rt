//! Committing an execution.

ghost use Rattle.serial_core.specs.Steps.{Commits};
ghost use Rattle.serial_core.specs.Quick.{IsOwnCode};

use crate::serial::SerialCore;
use core_engine::{Answer, Refusal};
use slot_run::Execution;

impl SerialCore {
    /// Appends the execution's Done and applies its writes, if each value that it read is still current. It takes no memory.
    ///
    /// K1 if the log is full, else K2 if the activation is not waiting, else K3 if the execution is not that of its
    /// activation in this core, else Stale if a value that it read has changed.
    pub fn commit(&mut self, execution: Execution) -> Result<Answer, Refusal>
        ensures { Commits self.old execution result self.new }
    {
        let activation = execution.activation();
        let outcome = execution.outcome();
        let answer = self.engine.commit(execution);
        self.history.append_done(&answer, activation, outcome);
        answer
    }

    /// The same for an execution whose code is known to be that of its activation's program here. `commit` compares the two,
    /// an instruction and a slot's type at a time; this does not, so its cost does not grow with the code.
    pub fn commit_own(&mut self, execution: Execution) -> Result<Answer, Refusal>
        requires own { IsOwnCode self.old execution }
        ensures { Commits self.old execution result self.new }
    {
        let activation = execution.activation();
        let outcome = execution.outcome();
        let answer = self.engine.commit_own(execution);
        self.history.append_done(&answer, activation, outcome);
        answer
    }
}
