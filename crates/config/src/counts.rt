//! How many resources, tasks and programs a configuration has.

ghost use Rattle.std.specs.Prelude.{◌≡◌, nat_lt, length, map};
ghost use Rattle.std.specs.List.{flat_map, list_any};
ghost use Rattle.st_types.specs.ConfigurationViews.{configuration_view, resource_view};
ghost use Rattle.st_rules.specs.ConfigurationRules.{has_too_many};

use st_types::limits::{MAX_PROGRAMS, MAX_RESOURCES, MAX_TASKS};
use st_types::{Configuration, Resource};

/// Whether the resources have more than 64 instances.
fn have_many_programs(resources: &[Resource]) -> bool
    ensures { result
        ≡ nat_lt MAX_PROGRAMS (length (flat_map (λ r. r.instances) (map resource_view resources.now))) }
{
    let mut programs = 0;
    for resource in resources {
        if resource.instances.len() > MAX_PROGRAMS - programs {
            return true;
        }
        programs += resource.instances.len();
    }
    false
}

/// Whether some resource has more than 32 tasks.
fn have_many_tasks(resources: &[Resource]) -> bool
    ensures { result ≡ list_any (λ r. nat_lt MAX_TASKS (length r.tasks)) (map resource_view resources.now) }
{
    for resource in resources {
        if resource.tasks.len() > MAX_TASKS {
            return true;
        }
    }
    false
}

/// Whether there are more than 8 resources, 32 tasks on one of them, or 64 programs in all.
pub fn has_too_many(configuration: &Configuration) -> bool
    ensures { result ≡ has_too_many (configuration_view configuration.now) }
{
    configuration.resources.len() > MAX_RESOURCES
        || have_many_tasks(&configuration.resources)
        || have_many_programs(&configuration.resources)
}
