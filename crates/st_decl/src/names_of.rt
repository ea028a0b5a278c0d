//! The names of each kind of scope, in their order.

ghost use Rattle.std.specs.Prelude.{◌≡◌, ◌++◌, map, IfOk};
ghost use Rattle.std.specs.List.{flat_map};
ghost use Rattle.st_types.specs.DeclarationViews.{field_view, type_declaration_view, declaration_view};
ghost use Rattle.st_types.specs.DeclarationViews.{variable_block_view};
ghost use Rattle.st_types.specs.UnitViews.{unit_view};
ghost use Rattle.st_types.specs.ConfigurationViews.{global_declaration_view, global_block_view, resource_view};
ghost use Rattle.st_types.specs.ConfigurationViews.{configuration_view};
ghost use Rattle.st_types.specs.SourceViews.{element_view};
ghost use Rattle.st_rules.specs.NameScopes.{names_of_element, variables_of_block, variables_of, variables_of_element};
ghost use Rattle.st_rules.specs.NameScopes.{listed_names, globals_of_block, globals_of, names_in};

use crate::names::push_names;
use st_types::{
    Configuration, Declaration, Field, GlobalBlock, GlobalDeclaration, GlobalNames, Identifier,
    Instance, LibraryElement, Resource, Task, TypeDeclaration, Unit, VariableBlock,
};
use std::alloc::{AllocError, Global};

fn push_type_names<'a>(
    scope: &mut Vec<&'a Identifier>,
    types: &'a [TypeDeclaration],
) -> Result<(), AllocError>
    ensures { IfOk result (λ done. map (λ x. x.now) scope.new.items ≡ map (λ x. x.now) scope.old.items
        ++ map (λ t. t.name) (map type_declaration_view types.now)) }
{
    for declaration in types {
        scope.push(&declaration.name)?;
    }
    Ok(())
}

fn push_element_names<'a>(
    scope: &mut Vec<&'a Identifier>,
    element: &'a LibraryElement,
) -> Result<(), AllocError>
    ensures { IfOk result (λ done. map (λ x. x.now) scope.new.items ≡ map (λ x. x.now) scope.old.items
        ++ names_of_element (element_view element.now)) }
{
    match element {
        LibraryElement::Types(types) => push_type_names(scope, types),
        LibraryElement::Unit(unit) => {
            scope.push(&unit.name)?;
            Ok(())
        }
        LibraryElement::Configuration(_) => Ok(()),
    }
}

/// The names of the types, functions, function blocks and programs.
pub fn names_of_text<'a>(
    alloc: Global,
    elements: &'a [LibraryElement],
) -> Result<Vec<&'a Identifier>, AllocError>
    ensures { IfOk result
        (λ scope. map (λ x. x.now) scope.items ≡ flat_map names_of_element (map element_view elements.now)) }
{
    let mut scope = Vec::new(alloc);
    for element in elements {
        push_element_names(&mut scope, element)?;
    }
    Ok(scope)
}

fn push_declared<'a>(
    scope: &mut Vec<&'a Identifier>,
    declarations: &'a [Declaration],
) -> Result<(), AllocError>
    ensures { IfOk result (λ done. map (λ x. x.now) scope.new.items ≡ map (λ x. x.now) scope.old.items
        ++ flat_map (λ d. d.names) (map declaration_view declarations.now)) }
{
    for declaration in declarations {
        push_names(scope, &declaration.names)?;
    }
    Ok(())
}

fn push_variables<'a>(
    scope: &mut Vec<&'a Identifier>,
    blocks: &'a [VariableBlock],
) -> Result<(), AllocError>
    ensures { IfOk result (λ done. map (λ x. x.now) scope.new.items ≡ map (λ x. x.now) scope.old.items
        ++ flat_map variables_of_block (map variable_block_view blocks.now)) }
{
    for block in blocks {
        push_declared(scope, &block.declarations)?;
    }
    Ok(())
}

/// The variables of a unit.
pub fn variables_of<'a>(alloc: Global, unit: &'a Unit) -> Result<Vec<&'a Identifier>, AllocError>
    ensures { IfOk result (λ scope. map (λ x. x.now) scope.items ≡ variables_of (unit_view unit.now)) }
{
    let mut scope = Vec::new(alloc);
    push_variables(&mut scope, &unit.blocks)?;
    Ok(scope)
}

fn push_element_variables<'a>(
    scope: &mut Vec<&'a Identifier>,
    element: &'a LibraryElement,
) -> Result<(), AllocError>
    ensures { IfOk result (λ done. map (λ x. x.now) scope.new.items ≡ map (λ x. x.now) scope.old.items
        ++ variables_of_element (element_view element.now)) }
{
    match element {
        LibraryElement::Unit(unit) => push_variables(scope, &unit.blocks),
        _ => Ok(()),
    }
}

/// The variables of all units.
pub fn variables_of_text<'a>(
    alloc: Global,
    elements: &'a [LibraryElement],
) -> Result<Vec<&'a Identifier>, AllocError>
    ensures { IfOk result
        (λ scope. map (λ x. x.now) scope.items ≡ flat_map variables_of_element (map element_view elements.now)) }
{
    let mut scope = Vec::new(alloc);
    for element in elements {
        push_element_variables(&mut scope, element)?;
    }
    Ok(scope)
}

/// The names of a structure's fields.
pub fn names_of_fields<'a>(
    alloc: Global,
    fields: &'a [Field],
) -> Result<Vec<&'a Identifier>, AllocError>
    ensures { IfOk result (λ scope. map (λ x. x.now) scope.items ≡ map (λ f. f.name) (map field_view fields.now)) }
{
    let mut scope = Vec::new(alloc);
    for field in fields {
        scope.push(&field.name)?;
    }
    Ok(scope)
}

fn push_listed<'a>(
    scope: &mut Vec<&'a Identifier>,
    declaration: &'a GlobalDeclaration,
) -> Result<(), AllocError>
    ensures { IfOk result (λ done. map (λ x. x.now) scope.new.items ≡ map (λ x. x.now) scope.old.items
        ++ listed_names (global_declaration_view declaration.now).names) }
{
    match &declaration.names {
        GlobalNames::Located(name, _) => {
            scope.push(name)?;
            Ok(())
        }
        GlobalNames::Listed(names) => push_names(scope, names),
    }
}

fn push_globals<'a>(
    scope: &mut Vec<&'a Identifier>,
    declarations: &'a [GlobalDeclaration],
) -> Result<(), AllocError>
    ensures { IfOk result (λ done. map (λ x. x.now) scope.new.items ≡ map (λ x. x.now) scope.old.items
        ++ flat_map (λ d. listed_names d.names) (map global_declaration_view declarations.now)) }
{
    for declaration in declarations {
        push_listed(scope, declaration)?;
    }
    Ok(())
}

/// The globals of a configuration.
pub fn globals_of<'a>(
    alloc: Global,
    blocks: &'a [GlobalBlock],
) -> Result<Vec<&'a Identifier>, AllocError>
    ensures { IfOk result
        (λ scope. map (λ x. x.now) scope.items ≡ flat_map globals_of_block (map global_block_view blocks.now)) }
{
    let mut scope = Vec::new(alloc);
    for block in blocks {
        push_globals(&mut scope, &block.declarations)?;
    }
    Ok(scope)
}

/// The names of the resources of a configuration.
pub fn names_of_resources<'a>(
    alloc: Global,
    resources: &'a [Resource],
) -> Result<Vec<&'a Identifier>, AllocError>
    ensures { IfOk result
        (λ scope. map (λ x. x.now) scope.items ≡ map (λ r. r.name) (map resource_view resources.now)) }
{
    let mut scope = Vec::new(alloc);
    for resource in resources {
        scope.push(&resource.name)?;
    }
    Ok(scope)
}

fn push_tasks<'a>(scope: &mut Vec<&'a Identifier>, tasks: &'a [Task]) -> Result<(), AllocError>
    ensures { IfOk result
        (λ done. map (λ x. x.now) scope.new.items ≡ map (λ x. x.now) scope.old.items ++ map (λ t. t.name) tasks.now) }
{
    for task in tasks {
        scope.push(&task.name)?;
    }
    Ok(())
}

fn push_instances<'a>(
    scope: &mut Vec<&'a Identifier>,
    instances: &'a [Instance],
) -> Result<(), AllocError>
    ensures { IfOk result (λ done. map (λ x. x.now) scope.new.items ≡ map (λ x. x.now) scope.old.items
        ++ map (λ i. i.name) instances.now) }
{
    for instance in instances {
        scope.push(&instance.name)?;
    }
    Ok(())
}

/// The tasks and instances of a resource.
pub fn names_in<'a>(
    alloc: Global,
    resource: &'a Resource,
) -> Result<Vec<&'a Identifier>, AllocError>
    ensures { IfOk result (λ scope. map (λ x. x.now) scope.items ≡ names_in (resource_view resource.now)) }
{
    let mut scope = Vec::new(alloc);
    push_tasks(&mut scope, &resource.tasks)?;
    push_instances(&mut scope, &resource.instances)?;
    Ok(scope)
}
