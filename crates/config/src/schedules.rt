//! The tasks of a configuration, and where its instances run.

ghost use Rattle.std.specs.Prelude.{◌≡◌, IfOk, map};
ghost use Rattle.st_types.specs.ConfigurationViews.{resource_view};
ghost use Rattle.config.specs.Places.{places_from};
ghost use Rattle.config.specs.Tasks.{tasks_from};

use crate::places::{Place, push_places};
use crate::tasks::push_tasks;
use plan::Task;
use st_meaning::{PlanInput, PlanVariable};
use st_types::Resource;
use std::alloc::{AllocError, Global};

/// The tasks of all resources, and where their instances run.
#[derive(Drop)]
pub struct Schedule {
    pub tasks: Vec<Task>,
    pub places: Vec<Place>,
}

/// The tasks of the resources and the places of their instances, by resources in order.
pub fn schedule_of(
    alloc: Global,
    variables: &[PlanVariable],
    inputs: &[PlanInput],
    resources: &[Resource],
) -> Result<Schedule, AllocError>
    ensures tasks { IfOk result
        (λ s. s.tasks.items ≡ tasks_from variables.now inputs.now 0 (map resource_view resources.now)) }
    ensures places { IfOk result (λ s. s.places.items ≡ places_from 0 0 (map resource_view resources.now)) }
{
    let mut tasks = Vec::new(alloc);
    let mut places = Vec::new(alloc);
    for number in 0..resources.len() {
        let resource = &resources[number];
        let first = tasks.len();
        push_tasks(&mut tasks, variables, inputs, number, &resource.tasks)?;
        push_places(alloc, &mut places, number, first, resource)?;
    }
    Ok(Schedule { tasks, places })
}
