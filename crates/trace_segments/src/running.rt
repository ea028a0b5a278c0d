//! A program runs on the row that it waits with.

ghost use Rattle.std.specs.Prelude.{◌≡◌, ◌≢◌, IfOk, IfErr, Some, None, option_map};
ghost use Rattle.st_types.specs.declared.entry.Entry.TheVariants.{Done};
ghost use Rattle.plan.specs.PlanViews.{plan_view};
ghost use Rattle.checkpoints.specs.Checkpoints.{progress_at};
ghost use Rattle.checkpoints.specs.Continuation.{IsWaitingIn, IsWaitingWith, outcome_after};
ghost use Rattle.trace_segments.specs.Positions.{GoesTo, HasRun, WaitsWith, checkpoint_at};

use crate::position::Position;
use crate::progress::Progress;
use core_engine::code_of;
use plan::merged_values;
use slot_run::{Execution, Snapshot, run_by_values};
use st_meaning::Outcome;
use st_types::{Activation, Row};
use std::alloc::{AllocError, Global};
use trace::ReplayError;

/// The row of an activation, if it waits.
fn row_of(programs: &[Progress], activation: Activation) -> Option<&Row>
    ensures some { (row : _) → option_map (λ r. r.now) result ≡ Some row
        → WaitsWith programs.now activation row }
    ensures none { option_map (λ r. r.now) result ≡ None → IsWaitingWith (progress_at programs.now activation.program).waiting activation.row → ⊥ }
{
    let progress = programs.get(activation.program)?;
    progress.row(activation.row)
}

impl Position {
    /// An execution of a program on a row that it waits with. The error is out of memory.
    fn execution(
        &self,
        alloc: Global,
        activation: Activation,
        row: &Row,
    ) -> Result<Execution, AllocError>
        requires waits { WaitsWith self.now.programs activation row.now }
        ensures { IfOk result (HasRun self.now activation) }
    {
        let code = code_of(&self.plan, activation.program)?;
        let slots = merged_values(alloc, &self.plan.slots, &self.values, row.image())?;
        let snapshot = Snapshot::new(code, activation, row.moment(), self.plan.budget, slots);
        let execution = run_by_values(alloc, snapshot)?;
        // Its contract says that the execution is true.
        let _code = execution.code();
        Ok(execution)
    }

    /// Goes on by an execution, and gives how that ended. V3 if the activation doesn't wait, V5 out of memory.
    pub fn after_run(
        self,
        alloc: Global,
        activation: Activation,
    ) -> Result<(Position, Outcome), ReplayError>
        ensures goes { IfOk result (λ r. GoesTo (Done activation) self r.0) }
        ensures outcome { IfOk result (λ r. outcome_after (plan_view self.plan) (checkpoint_at self) (Done activation) ≡ Some r.1) }
        ensures refused { IfErr result (λ e. e ≢ ReplayError.NoMemory → (e ≡ ReplayError.NotWaiting)
            × (IsWaitingIn (checkpoint_at self) activation → ⊥)) }
    {
        let Some(row) = row_of(&self.programs, activation) else {
            return Err(ReplayError::NotWaiting);
        };
        let Ok(execution) = self.execution(alloc, activation, row) else {
            return Err(ReplayError::NoMemory);
        };
        let outcome = execution.outcome();
        Ok((self.after_execution(activation, &execution), outcome))
    }
}
