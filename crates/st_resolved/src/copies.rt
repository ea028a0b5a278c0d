//! Copies of words.

ghost use Rattle.std.specs.Prelude.{◌≡◌, IfOk, map};
ghost use Rattle.st_types.specs.ConfigurationViews.{global_names_view, resource_view};

use st_types::{
    EnumeratedValue, GlobalNames, Identifier, Instance, Name, Resource, SimpleType, Task, UnitSort,
};
use std::alloc::{AllocError, Global};

fn copied_name(alloc: Global, name: &Option<Name>) -> Result<Option<Name>, AllocError>
    ensures { IfOk result (λ x. x ≡ name.now) }
{
    match name {
        Some(name) => Ok(Some(name.copied(alloc)?)),
        None => Ok(None),
    }
}

/// Another value of an enumerated type, with the same spelling.
pub fn copied_value(alloc: Global, value: &EnumeratedValue) -> Result<EnumeratedValue, AllocError>
    ensures { IfOk result (λ x. x ≡ value.now) }
{
    Ok(EnumeratedValue {
        place: value.place,
        type_name: copied_name(alloc, &value.type_name)?,
        name: value.name.copied(alloc)?,
    })
}

/// Other names, in the same order.
pub fn copied_names(alloc: Global, names: &[Identifier]) -> Result<Vec<Identifier>, AllocError>
    ensures { IfOk result (λ list. list.items ≡ names.now) }
{
    let mut copied = Vec::new(alloc);
    for name in names {
        copied.push(name.copied(alloc)?)?;
    }
    Ok(copied)
}

fn copied_identifier(
    alloc: Global,
    name: &Option<Identifier>,
) -> Result<Option<Identifier>, AllocError>
    ensures { IfOk result (λ x. x ≡ name.now) }
{
    match name {
        Some(name) => Ok(Some(name.copied(alloc)?)),
        None => Ok(None),
    }
}

/// Another type of one word, at the same place.
pub fn copied_simple(alloc: Global, declared: &SimpleType) -> Result<SimpleType, AllocError>
    ensures { IfOk result (λ t. t ≡ declared.now) }
{
    match declared {
        SimpleType::Elementary(kind, place) => Ok(SimpleType::Elementary(*kind, *place)),
        SimpleType::Named(name) => Ok(SimpleType::Named(name.copied(alloc)?)),
    }
}

pub fn copied_sort(alloc: Global, sort: &UnitSort) -> Result<UnitSort, AllocError>
    ensures { IfOk result (λ s. s ≡ sort.now) }
{
    match sort {
        UnitSort::Function(declared) => Ok(UnitSort::Function(copied_simple(alloc, declared)?)),
        UnitSort::FunctionBlock => Ok(UnitSort::FunctionBlock),
        UnitSort::Program => Ok(UnitSort::Program),
    }
}

pub fn copied_global_names(alloc: Global, names: &GlobalNames) -> Result<GlobalNames, AllocError>
    ensures { IfOk result (λ x. global_names_view x ≡ global_names_view names.now) }
{
    match names {
        GlobalNames::Located(name, address) => {
            Ok(GlobalNames::Located(name.copied(alloc)?, *address))
        }
        GlobalNames::Listed(names) => Ok(GlobalNames::Listed(copied_names(alloc, names)?)),
    }
}

fn copied_task(alloc: Global, task: &Task) -> Result<Task, AllocError>
    ensures { IfOk result (λ t. t ≡ task.now) }
{
    Ok(Task {
        name: task.name.copied(alloc)?,
        single: copied_identifier(alloc, &task.single)?,
        interval: task.interval,
        priority: task.priority,
    })
}

fn copied_tasks(alloc: Global, tasks: &[Task]) -> Result<Vec<Task>, AllocError>
    ensures { IfOk result (λ list. list.items ≡ tasks.now) }
{
    let mut copied = Vec::new(alloc);
    for task in tasks {
        copied.push(copied_task(alloc, task)?)?;
    }
    Ok(copied)
}

fn copied_instance(alloc: Global, instance: &Instance) -> Result<Instance, AllocError>
    ensures { IfOk result (λ i. i ≡ instance.now) }
{
    Ok(Instance {
        name: instance.name.copied(alloc)?,
        task: copied_identifier(alloc, &instance.task)?,
        program: instance.program.copied(alloc)?,
    })
}

fn copied_instances(alloc: Global, instances: &[Instance]) -> Result<Vec<Instance>, AllocError>
    ensures { IfOk result (λ list. list.items ≡ instances.now) }
{
    let mut copied = Vec::new(alloc);
    for instance in instances {
        copied.push(copied_instance(alloc, instance)?)?;
    }
    Ok(copied)
}

fn copied_resource(alloc: Global, resource: &Resource) -> Result<Resource, AllocError>
    ensures { IfOk result (λ r. resource_view r ≡ resource_view resource.now) }
{
    Ok(Resource {
        name: resource.name.copied(alloc)?,
        processor: resource.processor.copied(alloc)?,
        tasks: copied_tasks(alloc, &resource.tasks)?,
        instances: copied_instances(alloc, &resource.instances)?,
    })
}

/// Other resources, with the same tasks and instances.
pub fn copied_resources(alloc: Global, resources: &[Resource]) -> Result<Vec<Resource>, AllocError>
    ensures { IfOk result (λ list. map resource_view list.items ≡ map resource_view resources.now) }
{
    let mut copied = Vec::new(alloc);
    for resource in resources {
        copied.push(copied_resource(alloc, resource)?)?;
    }
    Ok(copied)
}
