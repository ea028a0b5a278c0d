//! Why a job ends early.

ghost use Rattle.std.specs.Prelude.{◌≡◌};

use commit_lock::ReplayError;
use config::BuildError;
use durable_core::StartFault;
use image::PlantError;
use run_lock::RunFault;
use std::alloc::{AllocError, AllocFailed};

/// Why a job ends early. The report of it goes by its code (`source_run`).
#[derive(Clone, Copy, Debug, PartialEq, Eq)]
pub enum Fault {
    /// The source can't be read.
    Source,
    /// The source has no plan.
    Build(BuildError),
    /// The plant is refused.
    Plant(PlantError),
    /// The trace was not run again, or not written.
    Trace(ReplayError),
    /// No life was started.
    Start(StartFault),
    /// The run was stopped, or memory ran out outside it.
    Run(RunFault),
}

impl Fault {
    ghost use Rattle.source_run.specs.Statuses.{status_of};

    /// Out of memory in a run, or while its words are read or its report is made.
    pub const NO_MEMORY: Fault = Fault::Run(RunFault::NO_MEMORY);

    /// The exit status for it: 2 for the source, 3 for a plant or a trace, 4 for the start, 5 for the run.
    pub fn status(self) -> u8
        ensures { result ≡ status_of self }
    {
        match self {
            Fault::Source | Fault::Build(_) => 2,
            Fault::Plant(_) | Fault::Trace(_) => 3,
            Fault::Start(_) => 4,
            Fault::Run(_) => 5,
        }
    }
}

impl From<BuildError> for Fault {
    fn from(fault: BuildError) -> Fault {
        Fault::Build(fault)
    }
}

impl From<AllocError> for Fault {
    ghost use Rattle.source_run.specs.LiveRuns.{out_of_memory};

    ghost from_gives = { λ _ fault. fault ≡ out_of_memory };

    fn from(_: AllocError) -> Fault {
        Fault::NO_MEMORY
    }
}

impl<T: Drop> From<AllocFailed<T>> for Fault {
    ghost use Rattle.source_run.specs.LiveRuns.{out_of_memory};

    ghost from_gives = { λ _ fault. fault ≡ out_of_memory };

    fn from(_: AllocFailed<T>) -> Fault {
        Fault::NO_MEMORY
    }
}
