//! Where the instances of a configuration run.

ghost use Rattle.std.specs.Prelude.{◌≡◌, ◌++◌, ◌<◌, ◌^◌, IfOk, map, position};
ghost use Rattle.st_types.specs.ConfigurationViews.{resource_view};
ghost use Rattle.st_meaning.specs.NameTypes.{is_named};
ghost use Rattle.config.specs.Places.{place_of, task_number};

use st_meaning::lookup::is_named;
use st_types::{Identifier, Instance, Name, Owner, Resource, Task};
use std::alloc::{AllocError, Global};

/// Where an instance of a program runs.
pub struct Place {
    /// Its resource and itself, by their names.
    pub owner: Owner,
    /// The number of its resource, from 0.
    pub resource: usize,
    /// The number of its task among those of all resources, from 0.
    pub task: usize,
}

impl Drop for Place {
    fn drop(self) {
        let Self {
            owner: _,
            resource: _,
            task: _,
        } = self;
    }
}

/// The number of the first task of this name.
fn task_named(tasks: &[Task], name: &Name) -> Option<usize>
    ensures { result ≡ position (λ t. is_named name.now t.name) tasks.now }
{
    tasks.iter().position(|t| is_named(name, &t.name))
}

/// The number of the task that an instance names.
fn task_number(tasks: &[Task], task: &Option<Identifier>) -> Option<usize>
    ensures { result ≡ task_number tasks.now task.now }
{
    match task {
        Some(name) => task_named(tasks, &name.name),
        None => None,
    }
}

/// The place of an instance on a resource whose first task has this number among those of all resources.
fn place_of(
    alloc: Global,
    number: usize,
    first: usize,
    resource: &Resource,
    instance: &Instance,
) -> Result<Place, AllocError>
    requires { first < 2 ^ 63 }
    ensures { IfOk result (λ place. place ≡ place_of number first (resource_view resource.now) instance.now) }
{
    let task = task_number(&resource.tasks, &instance.task).unwrap_or(0);
    Ok(Place {
        owner: Owner {
            resource: resource.name.name.copied(alloc)?,
            instance: instance.name.name.copied(alloc)?,
        },
        resource: number,
        task: first + task,
    })
}

/// Appends where the instances of a resource run.
pub fn push_places(
    alloc: Global,
    places: &mut Vec<Place>,
    number: usize,
    first: usize,
    resource: &Resource,
) -> Result<(), AllocError>
    requires { first < 2 ^ 63 }
    ensures { IfOk result (λ done. places.new.items ≡ places.old.items
        ++ map (place_of number first (resource_view resource.now)) (resource_view resource.now).instances) }
{
    for instance in &resource.instances {
        let place = place_of(alloc, number, first, resource, instance)?;
        places.push(place)?;
    }
    Ok(())
}
