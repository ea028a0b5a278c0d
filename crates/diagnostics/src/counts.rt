//! Findings on the numbers of configurations, resources, tasks and programs (G2, G5), and on programs without a task (G8).

use crate::finding::Finding;
use crate::sentences::said_at;
use crate::spelling::Text;
use st_types::limits::{MAX_PROGRAMS, MAX_RESOURCES, MAX_TASKS};
use st_types::{Configuration, Instance, Resource, Task};
use std::alloc::AllocError;

/// The finding on a second CONFIGURATION.
pub fn second_configuration_reason(
    text: &Text,
    second: &Configuration,
) -> Result<Option<Finding>, AllocError> {
    let name = text.spelled(&second.name);
    said_at(
        second.name.place,
        format!(in text.alloc; "`{name}` is a second CONFIGURATION; a source has one"),
    )
}

/// The first program of a configuration that is one too many.
fn program_too_many(configuration: &Configuration) -> Option<&Instance> {
    let mut before: usize = 0;
    for resource in &configuration.resources {
        for instance in &resource.instances {
            if before == MAX_PROGRAMS {
                return Some(instance);
            }
            before = before.saturating_add(1);
        }
    }
    None
}

fn programs(configuration: &Configuration) -> usize {
    let mut count: usize = 0;
    for resource in &configuration.resources {
        count = count.saturating_add(resource.instances.len());
    }
    count
}

/// The first resource with too many tasks, and the task that is one too many.
fn task_too_many(configuration: &Configuration) -> Option<(&Resource, &Task)> {
    for resource in &configuration.resources {
        if let Some(task) = resource.tasks.get(MAX_TASKS) {
            return Some((resource, task));
        }
    }
    None
}

fn programs_reason(
    text: &Text,
    configuration: &Configuration,
) -> Result<Option<Finding>, AllocError> {
    let Some(instance) = program_too_many(configuration) else {
        return Ok(None);
    };
    let count = programs(configuration);
    said_at(
        instance.name.place,
        format!(in text.alloc; "there are {count} programs; at most {MAX_PROGRAMS} are allowed"),
    )
}

fn many_tasks_reason(
    text: &Text,
    resource: &Resource,
    task: &Task,
) -> Result<Option<Finding>, AllocError> {
    let (name, count) = (text.spelled(&resource.name), resource.tasks.len());
    said_at(
        task.name.place,
        format!(in text.alloc;
            "the resource `{name}` has {count} tasks; at most {MAX_TASKS} are allowed"
        ),
    )
}

fn many_resources_reason(
    text: &Text,
    configuration: &Configuration,
    resource: &Resource,
) -> Result<Option<Finding>, AllocError> {
    let count = configuration.resources.len();
    said_at(
        resource.name.place,
        format!(in text.alloc; "there are {count} resources; at most {MAX_RESOURCES} are allowed"),
    )
}

/// The finding on too many resources, tasks or programs.
pub fn counts_reason(
    text: &Text,
    configuration: &Configuration,
) -> Result<Option<Finding>, AllocError> {
    match (
        configuration.resources.get(MAX_RESOURCES),
        task_too_many(configuration),
    ) {
        (Some(resource), _) => many_resources_reason(text, configuration, resource),
        (None, Some((resource, task))) => many_tasks_reason(text, resource, task),
        (None, None) => programs_reason(text, configuration),
    }
}

/// The first program without a task.
fn without_task(configuration: &Configuration) -> Option<&Instance> {
    for resource in &configuration.resources {
        for instance in &resource.instances {
            if instance.task.is_none() {
                return Some(instance);
            }
        }
    }
    None
}

/// The finding on a program without a task.
pub fn tasks_reason(
    text: &Text,
    configuration: &Configuration,
) -> Result<Option<Finding>, AllocError> {
    let Some(instance) = without_task(configuration) else {
        return Ok(None);
    };
    let name = text.spelled(&instance.name);
    Ok(Some(Finding {
        sentence: format!(in text.alloc; "the program `{name}` has no task")?,
        help: Some(format!(in text.alloc; "write WITH and the name of a task after `{name}`")?),
        place: Some(instance.name.place),
    }))
}
