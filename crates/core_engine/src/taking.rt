//! Taking a snapshot.

ghost use Rattle.std.specs.Prelude.{◌≡◌, ◌<◌, length, map, None, Some, IfOk, IfErr, IsFalse, IsTrue, MatchOption};
ghost use Rattle.slot_code.specs.declared.code.Code.{Code};
ghost use Rattle.st_meaning.specs.Logs.{row_at};
ghost use Rattle.core_engine.specs.Steps.{Takes, IsSnapshotIn, code_at, none_waits, past_in, slots_for, waits_in};
ghost use Rattle.core_engine.specs.Quick.{HasQuickCode, TakesQuick, IsBestIn, IsQuickSnapshotIn, IsTakenIn};
ghost use Rattle.core_engine.specs.Lived.{InEachLife};

use crate::engine::Engine;
use crate::refusal::Refusal;
use core_values::{HeldRow, window_values};
use plan::{Plan, merged_values};
use slot_code::Code;
use slot_run::{QuickSnapshot, Snapshot, Taken};
use st_types::Activation;
use std::alloc::{AllocError, Global};
use std::sync::Arc;

/// A program's code, shared.
pub fn code_of(plan: &Plan, program: usize) -> Result<Arc<Code>, AllocError>
    requires there { program < length plan.now.programs.items }
    ensures { IfOk result (λ code. code_at plan.now program ≡ Some code.value) }
{
    Arc::clone(&plan.programs[program].code)
}

/// Whether there is quick code of a program.
fn has_quick_code(plan: &Plan, program: usize) -> bool
    requires there { program < length plan.now.programs.items }
    ensures none { IsFalse result → (code : Code) → code_at plan.now program ≡ Some code → code.quick ≡ None }
    ensures some { IsTrue result → (code : Code) → code_at plan.now program ≡ Some code → HasQuickCode code }
{
    plan.programs[program].code.quick.is_some()
}

impl Engine {
    /// The row of an activation that waits.
    pub(crate) fn row_for(&self, activation: Activation) -> &HeldRow
        requires waits { InEachLife self.now (λ life. waits_in life activation) }
        ensures { InEachLife self.now (λ life. result.now ≡ row_at (past_in life).rows activation.row) }
    {
        &self.held[activation.program]
    }

    /// The code of an activation that waits, shared. Its slots have the types of the values that it runs on.
    fn code_for(&self, activation: Activation) -> Result<Arc<Code>, AllocError>
        requires waits { InEachLife self.now (λ life. waits_in life activation) }
        ensures code { IfOk result (λ code. code_at self.now.plan activation.program ≡ Some code.value) }
        ensures typed { IfOk result (λ code. InEachLife self.now
            (λ life. map (λ v. v.kind) (slots_for life activation) ≡ code.value.kinds.value.items)) }
    {
        code_of(&self.plan, activation.program)
    }

    /// A snapshot of an activation that waits; K6 out of memory.
    pub(crate) fn snapshot_of(
        &self,
        alloc: Global,
        activation: Activation,
    ) -> Result<Snapshot, Refusal>
        requires waits { InEachLife self.now (λ life. waits_in life activation) }
        ensures activation { IfOk result (λ snapshot. snapshot.activation ≡ activation) }
        ensures parts { IfOk result (λ snapshot. InEachLife self.now (λ life. IsSnapshotIn life snapshot)) }
        ensures memory { IfErr result (λ e. e ≡ Refusal.NoMemory) }
    {
        let Ok(code) = self.code_for(activation) else {
            return Err(Refusal::NoMemory);
        };
        let row = self.row_for(activation);
        let Ok(slots) = merged_values(alloc, &self.plan.slots, self.values(), row.image()) else {
            return Err(Refusal::NoMemory);
        };
        let budget = self.plan.budget;
        Ok(Snapshot::new(code, activation, row.moment(), budget, slots))
    }

    /// The best activation that waits on the resource; none if nothing waits there.
    pub fn best(&self, resource: usize) -> Option<Activation>
        ensures { InEachLife self.now
            (λ life. MatchOption result (none_waits life resource) (IsBestIn life resource)) }
    {
        self.ready.best(resource)
    }

    /// A snapshot of the best activation that waits on the resource; none if nothing waits there, K6 out of memory.
    pub fn take(&self, alloc: Global, resource: usize) -> Result<Option<Snapshot>, Refusal>
        ensures { InEachLife self.now (λ life. Takes life resource result) }
    {
        let Some(activation) = self.best(resource) else {
            return Ok(None);
        };
        match self.snapshot_of(alloc, activation) {
            Ok(snapshot) => Ok(Some(snapshot)),
            Err(_) => Err(Refusal::NoMemory),
        }
    }

    /// The values of the slots that the code of an activation that waits names, as a snapshot; K6 out of memory.
    fn quick_snapshot_of(
        &self,
        alloc: Global,
        activation: Activation,
    ) -> Result<QuickSnapshot, Refusal>
        requires waits { InEachLife self.now (λ life. waits_in life activation) }
        ensures activation { IfOk result (λ quick. quick.activation ≡ activation) }
        ensures parts { IfOk result (λ quick. InEachLife self.now (λ life. IsQuickSnapshotIn life quick)) }
        ensures memory { IfErr result (λ e. e ≡ Refusal.NoMemory) }
    {
        let Ok(code) = self.code_for(activation) else {
            return Err(Refusal::NoMemory);
        };
        let row = self.row_for(activation);
        let Ok(values) = window_values(
            alloc,
            &self.plan.slots,
            self.values(),
            row.image(),
            code.window(),
        ) else {
            return Err(Refusal::NoMemory);
        };
        let budget = self.plan.budget;
        Ok(QuickSnapshot::new(code, activation, row.moment(), budget, values))
    }

    /// The snapshot, quick or whole, of an activation that waits; K6 out of memory.
    pub(crate) fn taken_of(&self, alloc: Global, activation: Activation) -> Result<Taken, Refusal>
        requires waits { InEachLife self.now (λ life. waits_in life activation) }
        ensures taken { IfOk result (λ taken. InEachLife self.now (λ life. IsTakenIn life activation taken)) }
        ensures memory { IfErr result (λ e. e ≡ Refusal.NoMemory) }
    {
        if has_quick_code(&self.plan, activation.program) {
            Ok(Taken::Quick(self.quick_snapshot_of(alloc, activation)?))
        } else {
            Ok(Taken::Whole(self.snapshot_of(alloc, activation)?))
        }
    }

    /// The snapshot of the best activation that waits on the resource: a quick one if there is quick code, and else a whole
    /// one. None if nothing waits there, K6 out of memory.
    pub fn take_quick(&self, alloc: Global, resource: usize) -> Result<Option<Taken>, Refusal>
        ensures { InEachLife self.now (λ life. TakesQuick life resource result) }
    {
        let Some(activation) = self.best(resource) else {
            return Ok(None);
        };
        match self.taken_of(alloc, activation) {
            Ok(taken) => Ok(Some(taken)),
            Err(_) => Err(Refusal::NoMemory),
        }
    }
}
