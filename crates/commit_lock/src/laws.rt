//! The law of the traces of cores. The function only states the invariant of a core's type: its contract is the law.

ghost use Rattle.std.specs.Prelude.{◌≡◌, ◌++◌, List};
ghost use Rattle.st_types.specs.Rows.{Latch};
ghost use Rattle.durable_core.specs.Starting.{start_in};
ghost use Rattle.trace.specs.Texts.{trace_of};
ghost use Rattle.trace.specs.Rests.{rows_in};
ghost use Rattle.commit_lock.specs.Replays.{IsTrace};

use disk::Disk;
use durable_core::Core;

/// The trace of a core, whatever came to it so far, is one of its plan: of its own start and log, over the rows of this log
/// and any that come after them. So a replay of it accepts it.
pub fn each_core_has_a_trace<D: Disk>(core: &Core<D>)
    ensures { (behind : List Latch) → IsTrace core.now.state.plan (rows_in core.now.state.log ++ behind)
        (trace_of core.now) core.now.mode (start_in core.now.state) core.now.state.log }
{
    core.kept();
}
