//! The configuration of a text, and the instances of its programs.

ghost use Rattle.std.specs.Prelude.{◌≡◌, ◌++◌, ◌∷◌, [], map, option_map, IfOk};
ghost use Rattle.st_types.specs.ConfigurationViews.{configuration_view, resource_view};
ghost use Rattle.st_types.specs.SourceViews.{source_view};
ghost use Rattle.layout.specs.LayoutVariables.{configurations_in, only_configuration};
ghost use Rattle.layout.specs.Instances.{instances_in, instance_on, instance_view};

use crate::slots::OwnerNames;
use st_types::{Configuration, Instance, LibraryElement, Name, Resource, Source};
use std::alloc::{AllocError, Global};

/// The configuration of a text; none if it has none or more than one.
pub fn only_configuration(source: &Source) -> Option<&Configuration>
    ensures { option_map (λ c. configuration_view c.now) result
        ≡ only_configuration (configurations_in (source_view source.now)) }
{
    let mut found = None;
    for element in &source.elements {
        if let LibraryElement::Configuration(configuration) = element {
            if found.is_some() {
                return None;
            }
            found = Some(configuration);
        }
    }
    found
}

/// An instance of a program.
#[derive(Clone, Copy)]
pub struct ProgramInstance<'a> {
    pub owner: OwnerNames<'a>,
    /// The name of its program.
    pub program: &'a Name,
}

fn push_instances<'a>(
    instances: &mut Vec<ProgramInstance<'a>>,
    resource: &'a Name,
    declared: &'a [Instance],
) -> Result<(), AllocError>
    ensures { IfOk result (λ done. map instance_view instances.new.items ≡ map instance_view instances.old.items
        ++ map (instance_on resource.now) declared.now) }
{
    for instance in declared {
        instances.push(ProgramInstance {
            owner: OwnerNames {
                resource,
                instance: &instance.name.name,
            },
            program: &instance.program.name,
        })?;
    }
    Ok(())
}

/// The instances of programs, by resources and in their order.
pub fn instances_in<'a>(
    alloc: Global,
    resources: &'a [Resource],
) -> Result<Vec<ProgramInstance<'a>>, AllocError>
    ensures { IfOk result (λ instances. map instance_view instances.items
        ≡ instances_in (map resource_view resources.now)) }
{
    let mut instances = Vec::new(alloc);
    for resource in resources {
        push_instances(&mut instances, &resource.name.name, &resource.instances)?;
    }
    Ok(instances)
}
