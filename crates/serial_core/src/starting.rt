//! Starting a core.

ghost use Rattle.std.specs.Prelude.{◌≡◌, ◌≤◌, [], None, IfOk};
ghost use Rattle.st_types.specs.declared.limits.TheConstants.{MAX_LOG_ROOM};
ghost use Rattle.st_meaning.specs.Plans.{initial_store};
ghost use Rattle.plan.specs.PlanViews.{plan_view};

use crate::history::History;
use crate::serial::SerialCore;
use core_engine::Engine;
use plan::Plan;
use std::alloc::{AllocError, Global};
use std::sync::Arc;

impl SerialCore {
    /// A core of the plan without a disk: every variable has its initial value, and the log is empty with room for
    /// `log_room` entries, 1 to 65,536. It makes all the memory that `latch`, `commit` and the calls that only look at it
    /// need.
    pub fn start(alloc: Global, plan: Arc<Plan>, log_room: usize) -> Result<SerialCore, AllocError>
        requires room { log_room ≤ MAX_LOG_ROOM }
        ensures { IfOk result (λ core. core ≡ record {
          plan = plan.value;
          start = initial_store (plan_view plan.value);
          before = None;
          log = [];
          room = log_room;
        }) }
    {
        let history = History::new(alloc, &plan.variables, log_room)?;
        let engine = Engine::start(alloc, plan, log_room as u64)?;
        Ok(SerialCore { engine, history })
    }
}
