//! A hook between the steps of a worker.

use crate::shared::Extent;
use durable_core::Answer;
use slot_run::Machine;
use st_types::Activation;

/// Called by the workers of a run, outside the lock. Tests use it to hold a worker.
pub trait Gate {
    /// Which slots are taken for a run: normally those that the code names, or all of them, over which the machine on
    /// values runs.
    fn extent(&self) -> Extent {
        Extent::Named
    }

    /// Between a run of code, by this machine, and its commit.
    fn between(&self, resource: usize, activation: Activation, machine: Machine);

    /// After each answer, also that of a commit in one step.
    fn answered(&self, resource: usize, activation: Activation, answer: Answer);
}
