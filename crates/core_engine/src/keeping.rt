//! The part of a life that a record keeps.

ghost use Rattle.std.specs.Prelude.{◌≡◌, ◌≤◌, ◌<◌, ◌+◌, ◌++◌, ◌∷◌, [], map, length, vec_len, vec_capacity};
ghost use Rattle.std.specs.Prelude.{if◌then◌else◌};
ghost use Rattle.std.specs.List.{AllByRecursion};
ghost use Rattle.st_types.specs.Values.{IsHeld};
ghost use Rattle.st_meaning.specs.Restarts.{kept};
ghost use Rattle.plan.specs.PlanViews.{plan_view};
ghost use Rattle.core_engine.specs.Steps.{past_in};
ghost use Rattle.core_engine.specs.Lived.{InEachLife};
ghost use Rattle.core_engine.specs.Retained.{retained_values, retained_kinds};

use crate::engine::Engine;
use st_meaning::PlanVariable;
use st_types::Value;

/// A value, which its type holds.
fn held(value: Value) -> Value
    ensures same { result ≡ value }
    ensures held { IsHeld value }
{
    let _held = value.number();
    value
}

/// Appends a variable's value, if it is retained.
#[tactic(auto, using(crate::proofs::RetainedLemmas::held_more))]
fn retain_one(kept: &mut Vec<Value>, variable: &PlanVariable, value: Value)
    requires room { vec_len kept.old < vec_capacity kept.old }
    ensures items { kept.new.items ≡ (if variable.now.retained then kept.old.items ++ value ∷ [] else kept.old.items) }
    ensures held { AllByRecursion IsHeld kept.old.items → AllByRecursion IsHeld kept.new.items }
    ensures len { vec_len kept.new ≤ vec_len kept.old + 1 }
    ensures capacity { vec_capacity kept.old ≤ vec_capacity kept.new }
{
    if variable.retained {
        kept.push_reserved(held(value));
    }
}

/// The values of the retained variables, in order.
fn retain(values: &[Value], variables: &[PlanVariable], kept: &mut Vec<Value>)
    requires sized { length values.now ≡ length variables.now }
    requires room { length variables.now ≤ vec_capacity kept.old }
    ensures values { kept.new.items ≡ retained_values variables.now values.now }
    ensures held { AllByRecursion IsHeld kept.new.items }
    ensures capacity { vec_capacity kept.old ≤ vec_capacity kept.new }
{
    kept.clear();
    for i in 0..variables.len() {
        retain_one(kept, &variables[i], values[i]);
    }
}

impl Engine {
    /// Puts the values of the retained variables, in order, in place of the values there. It takes no memory.
    pub fn retain(&self, values: &mut Vec<Value>)
        requires room { length self.now.plan.variables.items ≤ vec_capacity values.old }
        ensures values { InEachLife self.now
            (λ life. values.new.items ≡ map (λ e. e.1) (kept (plan_view life.plan) (past_in life).store)) }
        ensures kinds { map (λ d. d.kind) values.new.items ≡ retained_kinds self.now.plan.variables.items }
        ensures held { AllByRecursion IsHeld values.new.items }
        ensures capacity { vec_capacity values.old ≤ vec_capacity values.new }
    {
        retain(&self.values, &self.plan.variables, values);
    }
}
