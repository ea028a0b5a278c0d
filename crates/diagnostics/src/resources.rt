//! Findings on tasks, programs and SINGLEs that are unknown or don't fit their use (G3).

use crate::externals::sort_name;
use crate::finding::Finding;
use crate::globals::Names;
use crate::sentences::said_at;
use crate::spelling::Text;
use crate::type_names::declared_name;
use st_meaning::lookup::{is_named, kind_of_type};
use st_types::{Configuration, Identifier, Instance, Kind, Resource, Task, UnitSort, VariableType};
use std::alloc::AllocError;

/// A fault of a resource, with the wrong name.
#[derive(Clone, Copy)]
enum Wrong<'a> {
    /// No task of the resource has the name.
    NoTask(&'a Identifier),
    /// No unit has the name.
    NoProgram(&'a Identifier),
    /// A unit that isn't a program has the name.
    Unit(&'a Identifier, &'a UnitSort),
    /// No global has the name after SINGLE.
    NoSingle(&'a Identifier),
    /// The global after SINGLE isn't a BOOL.
    Single(&'a Identifier, &'a VariableType),
}

fn is_boolean(declared: &VariableType) -> bool {
    match kind_of_type(declared) {
        Some(kind) => kind.is(Kind::Bool),
        None => false,
    }
}

fn wrong_task<'a>(resource: &'a Resource, instance: &'a Instance) -> Option<Wrong<'a>> {
    let Some(name) = &instance.task else {
        return None;
    };
    if resource.tasks.iter().any(|t| is_named(&name.name, &t.name)) {
        return None;
    }
    Some(Wrong::NoTask(name))
}

fn wrong_program<'a>(names: Names<'_, 'a>, instance: &'a Instance) -> Option<Wrong<'a>> {
    match names.declared.unit_named(&instance.program.name) {
        Some(unit) => match &unit.sort {
            UnitSort::Program => None,
            sort => Some(Wrong::Unit(&instance.program, sort)),
        },
        None => Some(Wrong::NoProgram(&instance.program)),
    }
}

fn wrong_single<'a>(names: Names<'_, 'a>, task: &'a Task) -> Option<Wrong<'a>> {
    let Some(single) = &task.single else {
        return None;
    };
    match names.globals.find(&single.name) {
        Some(global) if is_boolean(global.declared) => None,
        Some(global) => Some(Wrong::Single(single, global.declared)),
        None => Some(Wrong::NoSingle(single)),
    }
}

fn wrong_instance<'a>(names: Names<'_, 'a>, resource: &'a Resource) -> Option<Wrong<'a>> {
    for instance in &resource.instances {
        if let Some(wrong) = wrong_task(resource, instance) {
            return Some(wrong);
        }
        if let Some(wrong) = wrong_program(names, instance) {
            return Some(wrong);
        }
    }
    None
}

/// The first wrong SINGLE of some tasks.
fn wrong_among<'a>(names: Names<'_, 'a>, tasks: &'a [Task]) -> Option<Wrong<'a>> {
    for task in tasks {
        let found = wrong_single(names, task);
        if found.is_some() {
            return found;
        }
    }
    None
}

fn first_in_resource<'a>(names: Names<'_, 'a>, resource: &'a Resource) -> Option<Wrong<'a>> {
    match wrong_instance(names, resource) {
        Some(wrong) => Some(wrong),
        None => wrong_among(names, &resource.tasks),
    }
}

fn first_wrong<'a>(
    names: Names<'_, 'a>,
    resources: &'a [Resource],
) -> Option<(&'a Resource, Wrong<'a>)> {
    for resource in resources {
        if let Some(wrong) = first_in_resource(names, resource) {
            return Some((resource, wrong));
        }
    }
    None
}

fn name_of<'a>(wrong: Wrong<'a>) -> &'a Identifier {
    match wrong {
        Wrong::NoTask(name) | Wrong::NoProgram(name) | Wrong::NoSingle(name) => name,
        Wrong::Unit(name, _) => name,
        Wrong::Single(name, _) => name,
    }
}

fn sentence_of(text: &Text, resource: &Resource, wrong: Wrong) -> Result<String, AllocError> {
    let (alloc, name) = (text.alloc, text.spelled(name_of(wrong)));
    match wrong {
        Wrong::NoTask(_) => {
            let resource = text.spelled(&resource.name);
            format!(in alloc; "the resource `{resource}` has no task `{name}`")
        }
        Wrong::NoProgram(_) => format!(in alloc; "the program type `{name}` is unknown"),
        Wrong::Unit(_, sort) => {
            let sort = sort_name(sort);
            format!(in alloc; "`{name}` is a {sort}, not a program")
        }
        Wrong::NoSingle(_) => {
            format!(in alloc; "the global `{name}` is unknown: SINGLE takes a BOOL global")
        }
        Wrong::Single(_, declared) => {
            let declared = declared_name(text, declared);
            format!(in alloc; "the global `{name}` is {declared}: SINGLE takes a BOOL global")
        }
    }
}

/// The finding on the first task, program or SINGLE that is unknown or doesn't fit its use.
pub fn resources_reason<'a>(
    text: &Text<'a>,
    names: Names<'_, 'a>,
    configuration: &'a Configuration,
) -> Result<Option<Finding>, AllocError> {
    match first_wrong(names, &configuration.resources) {
        Some((resource, wrong)) => {
            said_at(name_of(wrong).place, sentence_of(text, resource, wrong))
        }
        None => Ok(None),
    }
}
