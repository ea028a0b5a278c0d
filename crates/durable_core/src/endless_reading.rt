//! Reading the state of a core without its log.

ghost use Rattle.std.specs.Prelude.{◌≡◌, ◌<◌, ◌≤◌, length, map, MatchBool};
ghost use Rattle.st_meaning.specs.Due.{HasOverruns};
ghost use Rattle.st_meaning.specs.Logs.{last_moment};
ghost use Rattle.st_meaning.specs.Plans.{schedules_of};
ghost use Rattle.st_meaning.specs.Scopes.{seen};
ghost use Rattle.plan.specs.PlanViews.{plan_view};
ghost use Rattle.core_engine.specs.Steps.{past_in, none_waits, inputs_now};
ghost use Rattle.durable_core.specs.Endless.{InEachCore};

use crate::endless::EndlessCore;
use crate::starting::StartMode;
use disk::Disk;
use plan::Plan;
use st_types::{Path, Value};

impl<D: Disk> EndlessCore<D> {
    /// How it was started.
    pub fn mode(&self) -> StartMode
        ensures { result ≡ self.now.mode }
    {
        self.mode
    }

    /// The plan that it runs.
    pub fn plan(&self) -> &Plan
        ensures { result.now ≡ self.now.engine.plan }
    {
        self.engine.plan()
    }

    /// The moment in milliseconds that the first row has to be later than, if there is one.
    pub fn start_moment(&self) -> Option<u64>
        ensures { result ≡ self.now.engine.before }
    {
        self.engine.start_moment()
    }

    /// The moment of the last row in milliseconds, or the one that the first row has to be later than.
    pub fn last_moment(&self) -> Option<u64>
        ensures { InEachCore self.now (λ core. result ≡ last_moment core.state.before (past_in core.state).rows) }
    {
        self.engine.last_moment()
    }

    /// The values of the variables now, in layout order.
    pub fn values(&self) -> &[Value]
        ensures { InEachCore self.now (λ core. result.now ≡ map (λ e. e.1) (past_in core.state).store) }
    {
        self.engine.values()
    }

    /// How many entries the log has.
    pub fn entries(&self) -> u64
        ensures number { InEachCore self.now (λ core. result ≡ length core.state.log) }
        ensures room { result ≤ self.now.engine.room }
    {
        self.engine.entries()
    }

    /// How many rows were latched.
    pub fn rows(&self) -> u64
        ensures { InEachCore self.now (λ core. result ≡ length (past_in core.state).rows) }
    {
        self.engine.rows()
    }

    /// Whether something of the resource waits. It allocates nothing.
    pub fn waits_on(&self, resource: usize) -> bool
        ensures { InEachCore self.now
            (λ core. MatchBool result (none_waits core.state resource → ⊥) (none_waits core.state resource)) }
    {
        self.engine.waits_on(resource)
    }

    /// The value of a variable, or of an input at the last row, 0 or FALSE before the first; none if there is no such path.
    pub fn value(&self, path: &Path) -> Option<Value>
        ensures { InEachCore self.now
            (λ core. result ≡ seen (inputs_now core.state) (past_in core.state).store path.now) }
    {
        self.engine.value(path)
    }

    /// How often the program was due while it was already waiting; 0 if there is no such program.
    pub fn overruns(&self, program: usize) -> u64
        ensures none { length self.now.engine.plan.programs.items ≤ program → result ≡ 0 }
        ensures overruns { program < length self.now.engine.plan.programs.items → InEachCore self.now
            (λ core. HasOverruns (schedules_of (plan_view core.state.plan)) (past_in core.state).history program result) }
    {
        self.engine.overruns(program)
    }
}
