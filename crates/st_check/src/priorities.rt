//! PRIORITY, which has a greatest number (C4).

ghost use Rattle.std.specs.Prelude.{◌≡◌, map};
ghost use Rattle.std.specs.List.{flat_map};
ghost use Rattle.st_rules.specs.declared.reason.Reason.TheVariants.{PriorityTooGreat};
ghost use Rattle.st_rules.specs.Collecting.{Collects};
ghost use Rattle.st_rules.specs.Faults.{breaking};
ghost use Rattle.st_rules.specs.TypeRules.{wrong_priority};
ghost use Rattle.st_decl.specs.Entries.{entry_view, priorities_of};

use st_decl::Entry;
use st_rules::{BrokenRules, Reason};
use st_types::Task;
use st_types::limits::MAX_PRIORITY;

fn wrong_tasks(tasks: &[Task], broken: &mut BrokenRules)
    ensures { Collects (flat_map (λ t. breaking PriorityTooGreat (wrong_priority t)) tasks.now) broken.old broken.new }
{
    for task in tasks {
        let fits = task.priority.number <= MAX_PRIORITY;
        broken.add_unless(fits, Reason::PriorityTooGreat, task.priority.place);
    }
}

/// Adds the priorities that are too great (C4).
pub fn wrong_priorities(entries: &[Entry], broken: &mut BrokenRules)
    ensures { Collects (flat_map (λ e. breaking PriorityTooGreat (priorities_of e)) (map entry_view entries.now))
        broken.old broken.new }
{
    for entry in entries {
        if let Entry::Resource(resource) = entry {
            wrong_tasks(&resource.tasks, broken);
        }
    }
}
