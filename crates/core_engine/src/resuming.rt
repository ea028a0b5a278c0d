//! Going on from a record.

ghost use Rattle.std.specs.Prelude.{◌≡◌, ◌<◌, ◌^◌, IfSome, [], Some, map};
ghost use Rattle.std.specs.List.{AllByRecursion};
ghost use Rattle.st_types.specs.declared.limits.TheConstants.{MOMENT_LIMIT};
ghost use Rattle.st_types.specs.Values.{IsHeld};
ghost use Rattle.st_meaning.specs.Restarts.{kept, warm_start};
ghost use Rattle.plan.specs.PlanViews.{plan_view};
ghost use Rattle.core_values.specs.Restored.{restored};
ghost use Rattle.core_engine.specs.Steps.{store_in};
ghost use Rattle.core_engine.specs.Lived.{IsEngineOf, life_in};
ghost use Rattle.core_engine.specs.Retained.{retained_kinds, kept_from};

use crate::engine::Engine;
use core_values::restore;
use plan::Plan;
use st_types::Value;

impl Engine {
    /// Goes on from a record: the retained variables take these values, in order, and rows have to be later than this
    /// moment in milliseconds. There is no entry before. It takes no memory.
    pub fn resume(&mut self, values: &[Value], moment: Option<u64>)
        requires empty { self.old.entries ≡ 0 }
        requires kinds { map (λ d. d.kind) values.now ≡ retained_kinds self.old.plan.variables.items }
        requires early { IfSome moment (λ t. t < MOMENT_LIMIT) }
        requires held { AllByRecursion IsHeld values.now }
        ensures lived { IsEngineOf (restored self.old.plan.variables.items values.now) [] self.new }
        ensures restarted { life_in self.new (restored self.old.plan.variables.items values.now) [] ≡ record {
          plan = self.old.plan;
          start = (warm_start (plan_view self.old.plan)
              (Some (kept_from self.old.plan values.now moment))).store;
          before = moment;
          log = [];
          room = self.old.room;
        } }
        // The values kept of this start are these values again.
        ensures kept { map (λ e. e.1) (kept (plan_view self.old.plan)
            (store_in self.old.plan (restored self.old.plan.variables.items values.now))) ≡ values.now }
    {
        let plan: &Plan = &self.plan;
        restore(&mut self.values, &plan.variables, values);
        self.before = moment;
        self.last = moment;
    }
}
