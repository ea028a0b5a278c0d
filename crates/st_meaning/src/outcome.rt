//! How an execution ends.

use st_types::Fault;

/// How an execution ends.
#[derive(Clone, Copy, Debug, PartialEq, Eq)]
pub enum Outcome {
    Done,
    Faulted(Fault),
}
