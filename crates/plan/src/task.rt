//! Tasks and programs of a plan.

use slot_code::Code;
use st_types::Owner;
use std::sync::Arc;

/// The condition besides its interval that makes a task due: its SINGLE.
#[derive(Clone, Copy, Debug, PartialEq, Eq)]
pub enum Trigger {
    Absent,
    /// An input of the plant, by its number from 0.
    Input(usize),
    /// A global, by the number of its slot.
    Variable(usize),
}

/// A task of a resource.
#[derive(Clone, Copy, Debug, PartialEq, Eq)]
pub struct Task {
    pub resource: usize,
    pub single: Trigger,
    /// INTERVAL in milliseconds; 0 if there is none.
    pub interval: u64,
    /// The task with the least number runs first.
    pub priority: u64,
}

/// An instance of a program, with the code that does what its program does.
pub struct ProgramInstance {
    pub resource: usize,
    /// The number of its task in declaration order, from 0.
    pub task: usize,
    /// The resource and the instance that it runs as.
    pub owner: Owner,
    /// The number of its program among those of the text's instances, from 0.
    pub number: usize,
    pub code: Arc<Code>,
}

impl Drop for ProgramInstance {
    fn drop(self) {
        let Self {
            resource: _,
            task: _,
            owner: _,
            number: _,
            code: _,
        } = self;
    }
}
