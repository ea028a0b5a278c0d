//! The part of a core that a record keeps.

ghost use Rattle.std.specs.Prelude.{◌≡◌, ◌≤◌, ◌<◌, IfSome, map, length, vec_capacity};
ghost use Rattle.std.specs.List.{AllByRecursion};
ghost use Rattle.st_types.specs.declared.limits.TheConstants.{MOMENT_LIMIT};
ghost use Rattle.st_types.specs.Values.{IsHeld};
ghost use Rattle.st_meaning.specs.Logs.{last_moment};
ghost use Rattle.st_meaning.specs.Restarts.{kept};
ghost use Rattle.plan.specs.PlanViews.{plan_view};
ghost use Rattle.serial_core.specs.Steps.{past_in};
ghost use Rattle.serial_core.specs.Retained.{retained_kinds};

use crate::serial::SerialCore;
use plan::Plan;
use st_types::Value;

impl SerialCore {
    /// The plan that it runs.
    pub fn plan(&self) -> &Plan
        ensures { result.now ≡ self.now.plan }
    {
        self.engine.plan()
    }

    /// The moment of the last row in milliseconds, or the one that the first row has to be later than.
    pub fn last_moment(&self) -> Option<u64>
        ensures last { result ≡ last_moment self.now.before (past_in self.now).rows }
        ensures early { IfSome result (λ t. t < MOMENT_LIMIT) }
    {
        self.engine.last_moment()
    }

    /// Puts the values of the retained variables, in order, in place of the values there. It takes no memory.
    pub fn retain(&self, values: &mut Vec<Value>)
        requires room { length self.now.plan.variables.items ≤ vec_capacity values.old }
        ensures values { values.new.items ≡ map (λ e. e.1) (kept (plan_view self.now.plan) (past_in self.now).store) }
        ensures kinds { map (λ d. d.kind) values.new.items ≡ retained_kinds self.now.plan.variables.items }
        ensures held { AllByRecursion IsHeld values.new.items }
        ensures capacity { vec_capacity values.old ≤ vec_capacity values.new }
    {
        self.engine.retain(values);
    }
}
