//! The answers to a worker.

ghost use Rattle.std.specs.Prelude.{◌≡◌, ◌+◌};
ghost use Rattle.serial_core.specs.Steps.{Commits, CommitsHere};
ghost use Rattle.durable_core.specs.Cores.{Guards};
ghost use Rattle.run_lock.specs.Answers.{committed_by, committed_here, stale_after};

use crate::locked::{Locked, Run, count_here, count_of};
use crate::own::OwnExecution;
use disk::Disk;
use durable_core::{Answer, Refusal};
use std::alloc::Global;
use std::sync::ledger::Share;

/// How often a worker got the answers Committed and Stale, with its share of the book. It got Committed as often as the
/// share says.
#[derive(Drop)]
pub struct Tally<J: Run> {
    pub share: Share<J>,
    pub committed: u64,
    pub stale: u64,
    pub ghost one_part: { share.parts ≡ 1 },
    pub ghost counted: { share.amount ≡ committed },
}

impl<J: Run> Tally<J> {
    /// No answers yet.
    pub fn new(share: Share<J>) -> Tally<J>
        requires { (share.parts ≡ 1) × (share.amount ≡ 0) }
    {
        Tally {
            share,
            committed: 0,
            stale: 0,
        }
    }

    /// Commits, and counts the answer.
    pub fn commit<D: Disk>(
        &mut self,
        locked: &mut Locked<J, D>,
        own: OwnExecution<J>,
    ) -> Result<Answer, Refusal>
        ensures core { Guards locked.old.core result locked.new.core
            (λ r. Commits locked.old.core.state own.execution r locked.new.core.state) }
        ensures committed { self.new.committed ≡ self.old.committed + committed_by result }
        ensures stale { self.new.stale ≡ stale_after self.old.stale result }
    {
        let Tally {
            share,
            committed,
            stale,
        } = self;
        let result = locked.commit(own, share);
        *committed += count_of(&result);
        if let Ok(Answer::Stale) = result {
            *stale = stale.saturating_add(1);
        }
        result
    }

    /// Commits the best activation of a resource in one step, and counts the answer.
    pub fn commit_here<D: Disk>(
        &mut self,
        locked: &mut Locked<J, D>,
        alloc: Global,
        resource: usize,
    ) -> Result<Option<usize>, Refusal>
        ensures core { Guards locked.old.core result locked.new.core
            (λ r. CommitsHere locked.old.core.state resource r locked.new.core.state) }
        ensures committed { self.new.committed ≡ self.old.committed + committed_here result }
        ensures stale { self.new.stale ≡ self.old.stale }
    {
        let Tally {
            share,
            committed,
            ..
        } = self;
        let result = locked.commit_here(alloc, resource, share);
        *committed += count_here(&result);
        result
    }
}
