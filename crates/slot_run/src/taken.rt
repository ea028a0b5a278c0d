//! A snapshot taken for a run.

use crate::quick_snapshot::QuickSnapshot;
use crate::snapshot::Snapshot;

/// The start of a run.
#[derive(Drop)]
pub enum Taken {
    /// For a run of quick code: the slots that the code names.
    Quick(QuickSnapshot),
    /// For a run by the machine on values, which may look at any slot: all of them.
    Whole(Snapshot),
}
