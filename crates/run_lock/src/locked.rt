//! The data under the lock of a run.

ghost use Rattle.std.specs.Prelude.{length, ◌≡◌, ◌↔◌, ◌+◌, ◌^◌, ◌<◌, ◌≤◌, ◌++◌, Option, Some, drop, max};
ghost use Rattle.std.specs.Prelude.{IfOk, IfNone, OnErr, IsTrue};
ghost use Rattle.std.specs.Coded.{Coded-set};
ghost use Rattle.atomic_table.specs.Seated.{table_id_coded};
ghost use Rattle.st_meaning.specs.Logs.{done_count};
ghost use Rattle.serial_core.specs.Steps.{past_in, Commits, CommitsHere, Takes};
ghost use Rattle.serial_core.specs.Quick.{TakesQuick};
ghost use Rattle.durable_core.specs.Cores.{Guards};
ghost use Rattle.durable_core.specs.Flushing.{Flushes, IsAcknowledged};
ghost use Rattle.run_lock.specs.Answers.{committed_by, committed_here};
ghost use Rattle.run_lock.specs.Lives.{life_of, IsOfLife, IsOfLife-prop, IsStartedBy, IsStartedBy-prop, NothingIsDue};
ghost use Rattle.run_lock.specs.Lives.{InOrder, InOrder-prop};
ghost use Rattle.run_lock.specs.Latching.{LatchesNext};
ghost use Rattle.run_lock.specs.Own.{IsOwnTaken};
ghost use Rattle.run_lock.specs.Phases.{ended_by, phase_after, phase_after_answer, IsStoppedFor, IsStoppedFor-prop, MayEnd};
ghost use Rattle.durable_core.specs.declared.refusal.Refusal.{Refusal};

use crate::mark::{Mark, RaisePass};
use crate::own::{OwnExecution, OwnTaken};
use crate::phase::{Phase, after_answer, after_call, end_of};
use disk::Disk;
use durable_core::{Answer, Core, Refusal};
use slot_run::{Snapshot, Taken};
use st_types::Row;
use std::alloc::Global;
use std::collections::VecDeque;
use std::marker::{Brand, PhantomData};
use std::sync::ledger::{Book, Ledger, Share};

/// Names one run.
pub trait Run: Ledger {
    ghost use Rattle.std.specs.Prelude.{ℕ, List, Option};
    ghost use Rattle.atomic_table.specs.Seated.{TableId};
    ghost use Rattle.st_types.specs.Rows.{Latch};
    ghost use Rattle.serial_core.specs.Steps.{State};
    ghost use Rattle.durable_core.specs.declared.starting.StartMode.{StartMode};

    /// How many executions the log has as the run begins.
    ghost dones: { ℕ };

    /// The mark that the flusher raises.
    ghost mark: { TableId };

    /// How many entries the log has as the run begins.
    ghost entries: { ℕ };

    /// The life that goes on in it, as the run begins.
    ghost life: { Option State };

    /// How it was started.
    ghost mode: { StartMode };

    /// How many entries are acknowledged as the run begins.
    ghost acked: { ℕ };

    /// The rows of its log when all are latched.
    ghost rows: { List Latch };
}

impl Run for Brand {
    ghost use Rattle.std.specs.Prelude.{[], None};
    ghost use Rattle.run_lock.specs.Lives.{no_mark};
    ghost use Rattle.durable_core.specs.declared.starting.StartMode.TheVariants.{Cold};

    ghost dones = { 0 };

    ghost mark = { no_mark };

    ghost entries = { 0 };

    ghost life = { None };

    ghost mode = { Cold };

    ghost acked = { 0 };

    ghost rows = { [] };
}

/// The core with the book of its run, the one pass that raises its mark, and the rows that are not latched yet.
///
/// The log has as many more executions than at the beginning of the run as the book says. The number that was raised is
/// acknowledged. The core goes on from that of the run, with no fewer entries acknowledged, and until the run is stopped,
/// the rows that it has latched and those that are left are the run's rows. The cause of a stop is true of the core.
#[derive(Drop)]
pub struct Locked<J: Run, D: Disk> {
    pub core: Core<D>,
    pub book: Book<J>,
    pub raises: RaisePass,
    pub rest: VecDeque<Row>,
    pub phase: Phase,
    pub ghost counted: { done_count core.state.log ≡ J.dones + book.total },
    pub ghost acknowledged: { raises.top ≤ core.acked },
    pub ghost of_run: { raises.mark ≡ J.mark } by { Coded-set table_id_coded raises.mark J.mark },
    pub ghost one_life: { IsOfLife core J.entries J.life } by { IsOfLife-prop core J.entries J.life },
    pub ghost started_so: { IsStartedBy core J.mode } by { IsStartedBy-prop core J.mode },
    pub ghost longer: { J.entries ≤ length core.state.log },
    pub ghost acked_stays: { J.acked ≤ core.acked },
    pub ghost stopped_for: { IsStoppedFor phase core } by { IsStoppedFor-prop phase core },
    pub ghost in_order: { InOrder phase core rest.items J.rows } by { InOrder-prop phase core rest.items J.rows },
}

/// 1 for an execution that was committed.
pub fn count_of(answer: &Result<Answer, Refusal>) -> u64
    ensures counts { result ≡ committed_by answer.now }
    ensures small { result ≤ 1 }
{
    match answer {
        Ok(Answer::Committed(_)) => 1,
        Ok(Answer::Stale) | Err(_) => 0,
    }
}

/// The same for a commit in one step.
pub fn count_here(answer: &Result<Option<usize>, Refusal>) -> u64
    ensures counts { result ≡ committed_here answer.now }
    ensures small { result ≤ 1 }
{
    match answer {
        Ok(Some(_)) => 1,
        Ok(None) | Err(_) => 0,
    }
}

/// Latches the next row, if there is one.
fn latch_next<D: Disk>(core: &mut Core<D>, rest: &mut VecDeque<Row>) -> Option<Refusal>
    ensures life { life_of core.new.state ≡ life_of core.old.state }
    ensures done { done_count core.new.state.log ≡ done_count core.old.state.log }
    ensures acked { core.new.acked ≡ core.old.acked }
    ensures latches { LatchesNext core.old rest.old.items result core.new }
    ensures rest { rest.new.items ≡ drop 1 rest.old.items }
    ensures rows { IfNone result
        ((past_in core.new.state).rows ++ rest.new.items ≡ (past_in core.old.state).rows ++ rest.old.items) }
{
    match rest.pop_front() {
        Some(row) => match core.latch(row) {
            Ok(_) => None,
            Err(refusal) => Some(refusal),
        },
        None => None,
    }
}

impl<J: Run, D: Disk> Locked<J, D> {
    /// A snapshot of the best activation that waits on the resource; none if nothing waits there. A refusal ends the run.
    pub fn take(&mut self, alloc: Global, resource: usize) -> Result<Option<Snapshot>, Refusal>
        ensures core { self.new.core ≡ self.old.core }
        ensures takes { Guards self.old.core result self.old.core (λ r. Takes self.old.core.state resource r) }
        ensures phase { self.new.phase ≡ phase_after_answer self.old.phase result }
    {
        let Locked { core, phase, .. } = self;
        let result = core.take(alloc, resource);
        *phase = after_answer(*phase, &result);
        result
    }

    /// The snapshot, quick or whole, of the best activation that waits on the resource; none if nothing waits there. A
    /// refusal ends the run.
    pub fn take_quick(&mut self, alloc: Global, resource: usize) -> Result<Option<Taken>, Refusal>
        ensures core { self.new.core ≡ self.old.core }
        ensures takes { Guards self.old.core result self.old.core (λ r. TakesQuick self.old.core.state resource r) }
        ensures phase { self.new.phase ≡ phase_after_answer self.old.phase result }
    {
        let Locked { core, phase, .. } = self;
        let result = core.take_quick(alloc, resource);
        *phase = after_answer(*phase, &result);
        result
    }

    /// A snapshot that was taken here is the run's own.
    pub fn own(&self, taken: Taken) -> OwnTaken<J>
        requires { IsOwnTaken (Some self.now.core.state) taken }
    {
        OwnTaken {
            taken,
            run: PhantomData,
        }
    }

    /// Commits an execution of a snapshot that was taken here, and counts in the share the executions appended. A refusal
    /// ends the run.
    pub fn commit(&mut self, own: OwnExecution<J>, share: &mut Share<J>) -> Result<Answer, Refusal>
        requires { 0 < share.old.parts }
        ensures core { Guards self.old.core result self.new.core
            (λ r. Commits self.old.core.state own.execution r self.new.core.state) }
        ensures phase { self.new.phase ≡ phase_after_answer self.old.phase result }
        ensures counted { share.new.amount ≡ share.old.amount + committed_by result }
        ensures parts { share.new.parts ≡ share.old.parts }
        ensures small { share.new.amount < 2 ^ 64 }
    {
        let Locked {
            core,
            book,
            phase,
            ..
        } = self;
        let OwnExecution { execution, .. } = own;
        let result = core.commit_own(execution);
        *phase = after_answer(*phase, &result);
        book.add(share, count_of(&result));
        book.audit(share);
        let _length = core.len();
        result
    }

    /// The same for the best activation of a resource, in one step.
    pub fn commit_here(
        &mut self,
        alloc: Global,
        resource: usize,
        share: &mut Share<J>,
    ) -> Result<Option<usize>, Refusal>
        requires { 0 < share.old.parts }
        ensures core { Guards self.old.core result self.new.core
            (λ r. CommitsHere self.old.core.state resource r self.new.core.state) }
        ensures phase { self.new.phase ≡ phase_after_answer self.old.phase result }
        ensures counted { share.new.amount ≡ share.old.amount + committed_here result }
        ensures parts { share.new.parts ≡ share.old.parts }
        ensures small { share.new.amount < 2 ^ 64 }
    {
        let Locked {
            core,
            book,
            phase,
            ..
        } = self;
        let result = core.commit_here(alloc, resource);
        *phase = after_answer(*phase, &result);
        book.add(share, count_here(&result));
        book.audit(share);
        let _length = core.len();
        result
    }

    /// Flushes, and raises the mark to the number that is acknowledged then. A refusal ends the run.
    pub fn flush(&mut self, mark: &Mark) -> Result<usize, Refusal>
        requires { mark.now ≡ J.mark }
        ensures core { Flushes self.old.core result self.new.core }
        ensures phase { self.new.phase ≡ phase_after_answer self.old.phase result }
        ensures raised { IfOk result (λ n. self.new.raises.top ≡ max self.old.raises.top n) }
        ensures err { OnErr result (self.new.raises ≡ self.old.raises) }
    {
        let Locked {
            core,
            raises,
            phase,
            ..
        } = self;
        let _acked = core.acked();
        let result = core.flush();
        *phase = after_answer(*phase, &result);
        let length = result?;
        mark.raise(raises, length as u64);
        Ok(length)
    }

    /// Latches the next row, if there is one. A refusal ends the run.
    pub fn latch(&mut self)
        ensures latches { (refusal : Option Refusal)
            × LatchesNext self.old.core self.old.rest.items refusal self.new.core
            × (self.new.phase ≡ phase_after self.old.phase refusal)
            × (self.new.rest.items ≡ drop 1 self.old.rest.items) }
    {
        let Locked {
            core,
            rest,
            phase,
            ..
        } = self;
        let refusal = latch_next(core, rest);
        *phase = after_call(*phase, refusal);
    }

    /// Ends the run, unless it has ended: it has come to its end, or is stopped for a cause outside the core.
    pub fn end(&mut self, end: Phase)
        requires { MayEnd end }
        ensures core { self.new.core ≡ self.old.core }
        ensures phase { self.new.phase ≡ ended_by self.old.phase end }
    {
        let Locked { phase, .. } = self;
        *phase = end_of(*phase, end);
    }

    /// Whether nothing waits on the first `resources` resources.
    pub fn nothing_waits(&self, resources: usize) -> bool
        ensures { IsTrue result ↔ NothingIsDue self.now.core.state resources }
    {
        nothing_waits(&self.core, resources)
    }

    /// Whether nothing waits, and all is acknowledged.
    pub fn is_settled(&self, resources: usize) -> bool
        ensures { IsTrue result ↔ (NothingIsDue self.now.core.state resources × IsAcknowledged self.now.core) }
    {
        is_settled(&self.core, resources)
    }
}

/// Whether nothing waits on the first `resources` resources.
fn nothing_waits<D: Disk>(core: &Core<D>, resources: usize) -> bool
    ensures { IsTrue result ↔ NothingIsDue core.now.state resources }
{
    for resource in 0..resources {
        if core.waits_on(resource) {
            return false;
        }
    }
    true
}

/// Whether nothing waits on the first `resources` resources, and all of the log is acknowledged.
pub fn is_settled<D: Disk>(core: &Core<D>, resources: usize) -> bool
    ensures { IsTrue result ↔ (NothingIsDue core.now.state resources × IsAcknowledged core.now) }
{
    nothing_waits(core, resources) && core.acked() == core.len()
}
