//! Snapshots that are taken of a run's core, and their executions: both are of the code that their program has there.

ghost use Rattle.std.specs.Prelude.{◌≡◌, IfNone, IfOk, IfSome, Some};
ghost use Rattle.run_lock.specs.Own.{CameOf, HasOwnCode, HasOwnCode-prop, IsOwnTaken, IsOwnTaken-prop, TakesAllSlots};

use crate::locked::Run;
use slot_run::{Execution, Taken, run_by_values, run_quick};
use st_types::Activation;
use std::alloc::{AllocError, Global};
use std::marker::PhantomData;

/// A snapshot that is taken of a run's core. Its code is that of its activation's program there.
#[derive(Drop)]
pub struct OwnTaken<J: Run> {
    pub taken: Taken,
    pub run: PhantomData<J>,
    pub ghost own: { IsOwnTaken J.life taken } by { IsOwnTaken-prop J.life taken },
}

/// An execution of a snapshot that was taken of a run's core.
#[derive(Drop)]
pub struct OwnExecution<J: Run> {
    pub execution: Execution,
    pub run: PhantomData<J>,
    pub ghost own: { HasOwnCode J.life execution } by { HasOwnCode-prop J.life execution },
}

impl<J: Run> OwnTaken<J> {
    /// The activation that it is of.
    pub fn activation(&self) -> Activation {
        match &self.taken {
            Taken::Quick(quick) => quick.activation,
            Taken::Whole(snapshot) => snapshot.activation,
        }
    }

    /// Runs it: on the slots that the code names by the quick machine, on all slots by the machine on values. None if the
    /// quick machine cannot tell how the run ends.
    ///
    /// The only error is out of memory.
    pub fn run(self, alloc: Global) -> Result<Option<OwnExecution<J>>, AllocError>
        ensures came { IfOk result (λ o. IfSome o (λ own. CameOf self.taken own.execution)) }
        ensures whole { IfOk result (λ o. IfNone o (TakesAllSlots self.taken → ⊥)) }
    {
        let OwnTaken { taken, run } = self;
        match taken {
            Taken::Quick(quick) => match run_quick(alloc, quick)? {
                Some(execution) => Ok(Some(OwnExecution { execution, run })),
                None => Ok(None),
            },
            Taken::Whole(snapshot) => {
                let execution = run_by_values(alloc, snapshot)?;
                Ok(Some(OwnExecution { execution, run }))
            }
        }
    }
}
