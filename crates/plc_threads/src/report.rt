//! The result of a run.

use disk::Disk;
use durable_core::Core;
use run_lock::RunFault;

/// How often the worker of a resource got Committed and Stale.
#[derive(Clone, Copy, Debug, PartialEq, Eq)]
pub struct AnswerCounts {
    /// An entry from a commit in one step counts too.
    pub committed: u64,
    /// It stays at the greatest number of 64 bits.
    pub stale: u64,
}

/// A run that has ended.
#[derive(Drop)]
pub struct Report<D: Disk> {
    pub core: Core<D>,
    /// For each resource, in their order.
    pub told: Vec<AnswerCounts>,
}

/// A run that was stopped, with its core.
#[derive(Drop)]
pub struct RunError<D: Disk> {
    pub core: Core<D>,
    /// The fault that stopped it first.
    pub fault: RunFault,
}
