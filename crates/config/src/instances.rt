//! Tasks and program instances of resources.

ghost use Rattle.std.specs.Prelude.{◌≡◌, List, map, is_some};
ghost use Rattle.std.specs.List.{list_all, list_any};
ghost use Rattle.st_types.specs.Configurations as tree;
ghost use Rattle.st_types.specs.ConfigurationViews.{resource_view};
ghost use Rattle.st_types.specs.declared.kind.Kind.TheVariants.{Bool as Boolean};
ghost use Rattle.st_meaning.specs.NameTypes.{Declared, is_named, kind_among, unit_named};
ghost use Rattle.symbols.specs.PlaceTypes.{place_type_view};
ghost use Rattle.symbols.specs.Texts.{ServesText};
ghost use Rattle.st_rules.specs.ConfigurationRules.{have_tasks, is_known_instance, is_known_resource};
ghost use Rattle.st_rules.specs.ConfigurationRules.{is_known_single, is_known_task, is_of_kind, is_program_unit};
ghost use Rattle.config.specs.Globals.{ServesGlobals};

use crate::externals::Names;
use st_meaning::lookup::is_named;
use st_types::{Identifier, Instance, Kind, Name, Resource, SimpleType, Task, UnitSort};
use symbols::PlaceType;

/// Whether a type is BOOL.
fn is_boolean(declared: PlaceType) -> bool
    ensures { (text : Declared)
        → result ≡ is_of_kind Boolean (kind_among text.types (place_type_view declared.entry)) }
{
    match declared {
        PlaceType::Simple(SimpleType::Elementary(kind, _)) => Kind::Bool.is(*kind),
        PlaceType::Simple(SimpleType::Named(_)) => false,
        PlaceType::Array(_) => false,
        PlaceType::Standard(kind) => Kind::Bool.is(kind),
    }
}

/// Whether the SINGLE of a task is a BOOL global.
#[tactic(auto, using(crate::proofs::GlobalLemmas::single_known))]
fn is_known_single(names: Names, single: &Option<Identifier>) -> bool
    ensures { (text : Declared) (blocks : List tree.GlobalBlock) → ServesText names.entry.text.now text
        → ServesGlobals names.entry.globals.now blocks → result ≡ is_known_single text blocks single.now }
{
    let Some(single) = single else {
        return true;
    };
    match names.globals.find(&single.name) {
        Some(global) => is_boolean(global.declared),
        None => false,
    }
}

/// Whether each SINGLE of the tasks is a BOOL global.
fn are_known_singles(names: Names, tasks: &[Task]) -> bool
    ensures { (text : Declared) (blocks : List tree.GlobalBlock) → ServesText names.entry.text.now text
        → ServesGlobals names.entry.globals.now blocks
        → result ≡ list_all (λ t. is_known_single text blocks t.single) tasks.now }
{
    for task in tasks {
        if !is_known_single(names, &task.single) {
            return false;
        }
    }
    true
}

fn has_task(tasks: &[Task], name: &Name) -> bool
    ensures { result ≡ list_any (λ t. is_named name.now t.name) tasks.now }
{
    tasks.iter().any(|t| is_named(name, &t.name))
}

/// Whether the task that an instance names is there.
fn is_known_task(tasks: &[Task], task: &Option<Identifier>) -> bool
    ensures { result ≡ is_known_task tasks.now task.now }
{
    match task {
        None => true,
        Some(name) => has_task(tasks, &name.name),
    }
}

/// Whether a program has the name.
fn is_known_program(names: Names, name: &Name) -> bool
    ensures { (text : Declared) → ServesText names.entry.text.now text
        → result ≡ is_program_unit (unit_named text.units name.now) }
{
    match names.text.unit_named(name) {
        Some(unit) => matches!(unit.sort, UnitSort::Program),
        None => false,
    }
}

fn is_known_instance(names: Names, tasks: &[Task], instance: &Instance) -> bool
    ensures { (text : Declared) → ServesText names.entry.text.now text
        → result ≡ is_known_instance text tasks.now instance.now }
{
    is_known_task(tasks, &instance.task) && is_known_program(names, &instance.program.name)
}

fn are_known_instances(names: Names, tasks: &[Task], instances: &[Instance]) -> bool
    ensures { (text : Declared) → ServesText names.entry.text.now text
        → result ≡ list_all (is_known_instance text tasks.now) instances.now }
{
    for instance in instances {
        if !is_known_instance(names, tasks, instance) {
            return false;
        }
    }
    true
}

fn is_known_resource(names: Names, resource: &Resource) -> bool
    ensures { (text : Declared) (blocks : List tree.GlobalBlock) → ServesText names.entry.text.now text
        → ServesGlobals names.entry.globals.now blocks
        → result ≡ is_known_resource text blocks (resource_view resource.now) }
{
    are_known_instances(names, &resource.tasks, &resource.instances)
        && are_known_singles(names, &resource.tasks)
}

/// Whether tasks, programs and SINGLEs of the resources are known.
pub fn are_known_resources(names: Names, resources: &[Resource]) -> bool
    ensures { (text : Declared) (blocks : List tree.GlobalBlock) → ServesText names.entry.text.now text
        → ServesGlobals names.entry.globals.now blocks
        → result ≡ list_all (is_known_resource text blocks) (map resource_view resources.now) }
{
    for resource in resources {
        if !is_known_resource(names, resource) {
            return false;
        }
    }
    true
}

fn has_tasks(resource: &Resource) -> bool
    ensures { result ≡ list_all (λ i. is_some i.task) (resource_view resource.now).instances }
{
    resource.instances.iter().all(|i| i.task.is_some())
}

/// Whether each program has a task.
pub fn have_tasks(resources: &[Resource]) -> bool
    ensures { result
        ≡ list_all (λ r. list_all (λ i. is_some i.task) r.instances) (map resource_view resources.now) }
{
    for resource in resources {
        if !has_tasks(resource) {
            return false;
        }
    }
    true
}
