//! Laws of the plans of texts.

ghost use Rattle.std.specs.Prelude.{◌≡◌, List, None, Some, ℕ, map, true};
ghost use Rattle.std.specs.List.{list_all};
ghost use Rattle.st_meaning.specs.declared.plan.PlanInput.{PlanInput};
ghost use Rattle.st_meaning.specs.Plans as plans;
ghost use Rattle.st_types.specs.declared.configuration.Task as declared_task;
ghost use Rattle.st_types.specs.Sources.{Source};
ghost use Rattle.plan.specs.Owners.{AreDistinguished};
ghost use Rattle.config.specs.Texts.{IsTextOf};
ghost use Rattle.config.specs.TextPlans.{IsPlanOf, task_of};
ghost use Rattle.layout.specs.Names.{are_different};

use crate::path_laws::declarations_of_texts_are_plain;

/// The instances of a text's plan are distinguished by their names: none is written as the beginning of another one. So are
/// the values of each of its enumerated types.
pub fn instances_of_plans_are_distinguished()
    ensures instances { (text : List ℕ) (source : Source) (budget : ℕ) (plan : plans.Plan) → IsTextOf text source
        → IsPlanOf source budget plan → AreDistinguished (map (λ p. p.code.owner) plan.programs) }
    ensures values { (source : Source) (budget : ℕ) (plan : plans.Plan) → IsPlanOf source budget plan
        → list_all are_different plan.enumerations ≡ true }
{
    declarations_of_texts_are_plain();
}

/// A task of a plan has the INTERVAL and the PRIORITY of its declaration, and an interval of 0 if there is none.
pub fn tasks_are_as_declared()
    ensures interval { (inputs : List PlanInput) (t : declared_task.Task) (n : ℕ) → t.interval ≡ Some n
        → (task_of inputs t).interval ≡ n }
    ensures no_interval { (inputs : List PlanInput) (t : declared_task.Task) → t.interval ≡ None
        → (task_of inputs t).interval ≡ 0 }
    ensures priority { (inputs : List PlanInput) (t : declared_task.Task)
        → (task_of inputs t).priority ≡ t.priority.number }
{}
