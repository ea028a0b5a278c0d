//! The variables and inputs of a plan, and where its programs run.

use st_types::{Kind, Path, Value};

/// A variable of the layout that isn't an input of the plant.
pub struct PlanVariable {
    pub path: Path,
    /// The value that it starts with: its declared one, else 0, FALSE or T#0s.
    pub initial: Value,
    /// Whether it is kept over a power failure (RETAIN).
    pub retained: bool,
}

impl Drop for PlanVariable {
    fn drop(self) {
        let Self {
            path: _,
            initial: _,
            retained: _,
        } = self;
    }
}

/// An input of the plant.
pub struct PlanInput {
    pub path: Path,
    pub kind: Kind,
}

impl Drop for PlanInput {
    fn drop(self) {
        let Self { path: _, kind: _ } = self;
    }
}

/// Where and how often an instance of a program runs.
#[derive(Clone, Copy, Debug, PartialEq, Eq)]
pub struct Schedule {
    /// The number of its resource, from 0.
    pub resource: usize,
    /// The number of its task in declaration order, from 0.
    pub task: usize,
    /// The INTERVAL of its task in milliseconds; 0 if there is none.
    pub interval: u64,
    /// The PRIORITY of its task; the least number runs first.
    pub priority: u64,
}
