//! Committing an execution.

ghost use Rattle.std.specs.Prelude.{◌≡◌, ◌<◌, ◌↔◌, ℕ, IsTrue, Ok, length, true};
ghost use Rattle.core_engine.specs.Steps.{Admits, Commits, Judges, IsOwn, IsOwnOf, reads_are_current, waits_in};
ghost use Rattle.core_engine.specs.Quick.{EndsAs, IsOwnCode};
ghost use Rattle.core_engine.specs.Lived.{EachLifeGoesOn, InEachLife};

use crate::engine::Engine;
use crate::refusal::{Answer, Refusal};
use core_values::{HeldRow, are_current, write_all};
use plan::Plan;
use slot_run::Execution;
use st_types::Activation;

/// Whether the execution is of its activation's row, under the plan's budget.
fn is_timed(plan: &Plan, row: &HeldRow, execution: &Execution) -> bool
    ensures { IsTrue result ↔ ((execution.now.moment ≡ row.now.moment) × (execution.now.budget ≡ plan.now.budget)) }
{
    execution.moment() == row.moment() && execution.budget() == plan.budget
}

/// Whether the execution is of its activation's own program and row, under the plan's budget.
fn is_own(plan: &Plan, row: &HeldRow, execution: &Execution) -> bool
    requires there { execution.now.activation.program < length plan.now.programs.items }
    ensures { IsTrue result ↔ IsOwnOf plan.now row.now execution.now }
{
    let program = execution.activation().program;
    is_timed(plan, row, execution) && plan.programs[program].code.is(execution.code())
}

impl Engine {
    /// Whether the activation waits.
    fn waits(&self, activation: Activation) -> bool
        ensures { InEachLife self.now (λ life. IsTrue result ↔ waits_in life activation) }
    {
        self.ready.waits(activation)
    }

    /// Whether the execution is of its activation's own program and row here.
    fn owns(&self, execution: &Execution) -> bool
        requires waits { InEachLife self.now (λ life. waits_in life execution.now.activation) }
        ensures { InEachLife self.now (λ life. IsTrue result ↔ IsOwn life execution.now) }
    {
        is_own(&self.plan, self.row_for(execution.activation()), execution)
    }

    /// Whether each value that the execution read is still current.
    fn reads_are_current(&self, execution: &Execution) -> bool
        requires waits { InEachLife self.now (λ life. waits_in life execution.now.activation) }
        ensures { InEachLife self.now (λ life. result ≡ reads_are_current life execution.now) }
    {
        let row = self.row_for(execution.activation());
        are_current(
            &self.plan.slots,
            self.values(),
            row.image(),
            execution.reads(),
        )
    }

    /// Why an execution of an activation can't be committed, whatever its code is: K1 if the log is full, else K2 if the
    /// activation isn't waiting.
    fn admits(&self, activation: Activation) -> Result<(), Refusal>
        ensures { InEachLife self.now (λ life. Admits life activation result) }
    {
        if self.entries >= self.room {
            return Err(Refusal::Full);
        }
        if !self.waits(activation) {
            return Err(Refusal::NotWaiting);
        }
        Ok(())
    }

    /// Whether the values that the execution read are current; or why it can't be committed, whatever it read.
    fn judge(&self, execution: &Execution) -> Result<bool, Refusal>
        ensures { InEachLife self.now (λ life. Judges life execution.now result) }
    {
        self.admits(execution.activation())?;
        if !self.owns(execution) {
            return Err(Refusal::Foreign);
        }
        Ok(self.reads_are_current(execution))
    }

    /// The same for an execution of its activation's own code.
    fn judge_own(&self, execution: &Execution) -> Result<bool, Refusal>
        requires own { InEachLife self.now (λ life. IsOwnCode life execution.now) }
        ensures { InEachLife self.now (λ life. Judges life execution.now result) }
    {
        self.admits(execution.activation())?;
        if !is_timed(&self.plan, self.row_for(execution.activation()), execution) {
            return Err(Refusal::Foreign);
        }
        Ok(self.reads_are_current(execution))
    }

    /// Counts the Done of an execution that may be committed, and applies its writes.
    pub(crate) fn append(&mut self, execution: Execution) -> Answer
        requires { InEachLife self.old (λ life. Judges life execution (Ok true)) }
        ensures commit { EachLifeGoesOn (λ a b. Commits a execution (Ok result) b) self.old self.new }
        ensures outcome { InEachLife self.old (λ life. EndsAs life execution.activation execution.outcome) }
    {
        let activation = execution.activation();
        write_all(&self.plan.slots, &mut self.values, execution.writes());
        let _ = self.ready.remove(activation);
        self.entries += 1;
        Answer::Committed(self.entries as usize)
    }

    /// Applies the execution's writes and counts its Done, if each value that it read is still current. It takes no memory.
    ///
    /// K1 if the log is full, else K2 if the activation is not waiting, else K3 if the execution is not that of its
    /// activation in this core, else Stale if a value that it read has changed.
    pub fn commit(&mut self, execution: Execution) -> Result<Answer, Refusal>
        ensures commit { EachLifeGoesOn (λ a b. Commits a execution result b) self.old self.new }
        // A Done ends as the execution did.
        ensures outcome { (n : ℕ) → result ≡ Ok (Answer.Committed n)
            → InEachLife self.old (λ life. EndsAs life execution.activation execution.outcome) }
    {
        if self.judge(&execution)? {
            Ok(self.append(execution))
        } else {
            Ok(Answer::Stale)
        }
    }

    /// The same for an execution whose code is known to be that of its activation's program here. `commit` compares the two,
    /// an instruction and a slot's type at a time; this does not, so its cost does not grow with the code.
    pub fn commit_own(&mut self, execution: Execution) -> Result<Answer, Refusal>
        requires own { InEachLife self.old (λ life. IsOwnCode life execution) }
        ensures commit { EachLifeGoesOn (λ a b. Commits a execution result b) self.old self.new }
        // A Done ends as the execution did.
        ensures outcome { (n : ℕ) → result ≡ Ok (Answer.Committed n)
            → InEachLife self.old (λ life. EndsAs life execution.activation execution.outcome) }
    {
        if self.judge_own(&execution)? {
            Ok(self.append(execution))
        } else {
            Ok(Answer::Stale)
        }
    }
}
