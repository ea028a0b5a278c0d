//! The scopes of a text, as one list.

ghost use Rattle.std.specs.Prelude.{◌≡◌, ◌∷◌, ◌++◌, [], map, IfOk};
ghost use Rattle.std.specs.List.{flat_map};
ghost use Rattle.st_types.specs.DeclarationViews.{field_view, type_declaration_view, type_definition_view};
ghost use Rattle.st_types.specs.DeclarationViews.{declaration_view, variable_block_view};
ghost use Rattle.st_types.specs.UnitViews.{unit_view};
ghost use Rattle.st_types.specs.ConfigurationViews.{global_declaration_view, global_block_view, resource_view};
ghost use Rattle.st_types.specs.ConfigurationViews.{configuration_view};
ghost use Rattle.st_types.specs.SourceViews.{element_view, source_view};
ghost use Rattle.st_rules.specs.InitialScopes.{scopes_in_optional};
ghost use Rattle.st_rules.specs.NameScopes.{scopes_of_type, scopes_in_variables, scopes_in_globals, names_in};
ghost use Rattle.st_rules.specs.NameScopes.{scopes_of_element, scopes_of};

use crate::initial_scopes::push_optional;
use crate::names::push_names;
use crate::names_of::{
    globals_of, names_in, names_of_fields, names_of_resources, names_of_text, variables_of,
};
use st_types::{
    Configuration, Declaration, Field, GlobalBlock, GlobalDeclaration, Identifier, LibraryElement,
    Resource, Source, TypeDeclaration, TypeDefinition, Unit, VariableBlock,
};
use std::alloc::{AllocError, Global};

/// The scopes in the initial values of fields.
fn push_field_starts<'a>(
    alloc: Global,
    scopes: &mut Vec<Vec<&'a Identifier>>,
    fields: &'a [Field],
) -> Result<(), AllocError>
    ensures { IfOk result (λ done. map (λ s. map (λ x. x.now) s.items) scopes.new.items
        ≡ map (λ s. map (λ x. x.now) s.items) scopes.old.items
        ++ flat_map (λ f. scopes_in_optional f.initial) (map field_view fields.now)) }
{
    for field in fields {
        push_optional(alloc, scopes, &field.initial)?;
    }
    Ok(())
}

/// The fields of a structure, or the names of an enumerated type.
fn push_type<'a>(
    alloc: Global,
    scopes: &mut Vec<Vec<&'a Identifier>>,
    definition: &'a TypeDefinition,
) -> Result<(), AllocError>
    ensures { IfOk result (λ done. map (λ s. map (λ x. x.now) s.items) scopes.new.items
        ≡ map (λ s. map (λ x. x.now) s.items) scopes.old.items
        ++ scopes_of_type (type_definition_view definition.now)) }
{
    match definition {
        TypeDefinition::Array(_) => Ok(()),
        TypeDefinition::Structure(fields) => {
            scopes.push(names_of_fields(alloc, fields)?)?;
            push_field_starts(alloc, scopes, fields)
        }
        TypeDefinition::Enumeration(names) => {
            let mut scope = Vec::new(alloc);
            push_names(&mut scope, names)?;
            scopes.push(scope)?;
            Ok(())
        }
    }
}

fn push_types<'a>(
    alloc: Global,
    scopes: &mut Vec<Vec<&'a Identifier>>,
    types: &'a [TypeDeclaration],
) -> Result<(), AllocError>
    ensures { IfOk result (λ done. map (λ s. map (λ x. x.now) s.items) scopes.new.items
        ≡ map (λ s. map (λ x. x.now) s.items) scopes.old.items
        ++ flat_map (λ t. scopes_of_type t.definition) (map type_declaration_view types.now)) }
{
    for declaration in types {
        push_type(alloc, scopes, &declaration.definition)?;
    }
    Ok(())
}

fn push_declared_starts<'a>(
    alloc: Global,
    scopes: &mut Vec<Vec<&'a Identifier>>,
    declarations: &'a [Declaration],
) -> Result<(), AllocError>
    ensures { IfOk result (λ done. map (λ s. map (λ x. x.now) s.items) scopes.new.items
        ≡ map (λ s. map (λ x. x.now) s.items) scopes.old.items
        ++ flat_map (λ d. scopes_in_optional d.initial) (map declaration_view declarations.now)) }
{
    for declaration in declarations {
        push_optional(alloc, scopes, &declaration.initial)?;
    }
    Ok(())
}

/// The scopes in the initial values of a unit's variables.
fn push_variable_starts<'a>(
    alloc: Global,
    scopes: &mut Vec<Vec<&'a Identifier>>,
    blocks: &'a [VariableBlock],
) -> Result<(), AllocError>
    ensures { IfOk result (λ done. map (λ s. map (λ x. x.now) s.items) scopes.new.items
        ≡ map (λ s. map (λ x. x.now) s.items) scopes.old.items
        ++ flat_map scopes_in_variables (map variable_block_view blocks.now)) }
{
    for block in blocks {
        push_declared_starts(alloc, scopes, &block.declarations)?;
    }
    Ok(())
}

fn push_unit<'a>(
    alloc: Global,
    scopes: &mut Vec<Vec<&'a Identifier>>,
    unit: &'a Unit,
) -> Result<(), AllocError>
    ensures { IfOk result (λ done. map (λ s. map (λ x. x.now) s.items) scopes.new.items
        ≡ map (λ s. map (λ x. x.now) s.items) scopes.old.items
        ++ scopes_of_element (element_view (LibraryElement.Unit unit.now))) }
{
    scopes.push(variables_of(alloc, unit)?)?;
    push_variable_starts(alloc, scopes, &unit.blocks)
}

fn push_global_starts<'a>(
    alloc: Global,
    scopes: &mut Vec<Vec<&'a Identifier>>,
    declarations: &'a [GlobalDeclaration],
) -> Result<(), AllocError>
    ensures { IfOk result (λ done. map (λ s. map (λ x. x.now) s.items) scopes.new.items
        ≡ map (λ s. map (λ x. x.now) s.items) scopes.old.items
        ++ flat_map (λ d. scopes_in_optional d.initial) (map global_declaration_view declarations.now)) }
{
    for declaration in declarations {
        push_optional(alloc, scopes, &declaration.initial)?;
    }
    Ok(())
}

/// The scopes in the initial values of globals.
fn push_globals_starts<'a>(
    alloc: Global,
    scopes: &mut Vec<Vec<&'a Identifier>>,
    blocks: &'a [GlobalBlock],
) -> Result<(), AllocError>
    ensures { IfOk result (λ done. map (λ s. map (λ x. x.now) s.items) scopes.new.items
        ≡ map (λ s. map (λ x. x.now) s.items) scopes.old.items
        ++ flat_map scopes_in_globals (map global_block_view blocks.now)) }
{
    for block in blocks {
        push_global_starts(alloc, scopes, &block.declarations)?;
    }
    Ok(())
}

/// The tasks and instances of each resource.
fn push_resources<'a>(
    alloc: Global,
    scopes: &mut Vec<Vec<&'a Identifier>>,
    resources: &'a [Resource],
) -> Result<(), AllocError>
    ensures { IfOk result (λ done. map (λ s. map (λ x. x.now) s.items) scopes.new.items
        ≡ map (λ s. map (λ x. x.now) s.items) scopes.old.items
        ++ map names_in (map resource_view resources.now)) }
{
    for resource in resources {
        scopes.push(names_in(alloc, resource)?)?;
    }
    Ok(())
}

fn push_configuration<'a>(
    alloc: Global,
    scopes: &mut Vec<Vec<&'a Identifier>>,
    configuration: &'a Configuration,
) -> Result<(), AllocError>
    ensures { IfOk result (λ done. map (λ s. map (λ x. x.now) s.items) scopes.new.items
        ≡ map (λ s. map (λ x. x.now) s.items) scopes.old.items
        ++ scopes_of_element (element_view (LibraryElement.Configuration configuration.now))) }
{
    scopes.push(globals_of(alloc, &configuration.globals)?)?;
    push_globals_starts(alloc, scopes, &configuration.globals)?;
    scopes.push(names_of_resources(alloc, &configuration.resources)?)?;
    push_resources(alloc, scopes, &configuration.resources)
}

fn push_element<'a>(
    alloc: Global,
    scopes: &mut Vec<Vec<&'a Identifier>>,
    element: &'a LibraryElement,
) -> Result<(), AllocError>
    ensures { IfOk result (λ done. map (λ s. map (λ x. x.now) s.items) scopes.new.items
        ≡ map (λ s. map (λ x. x.now) s.items) scopes.old.items ++ scopes_of_element (element_view element.now)) }
{
    match element {
        LibraryElement::Types(types) => push_types(alloc, scopes, types),
        LibraryElement::Unit(unit) => push_unit(alloc, scopes, unit),
        LibraryElement::Configuration(configuration) => {
            push_configuration(alloc, scopes, configuration)
        }
    }
}

/// All scopes of a text; the first has its types and units.
pub fn scopes_of<'a>(
    alloc: Global,
    source: &'a Source,
) -> Result<Vec<Vec<&'a Identifier>>, AllocError>
    ensures { IfOk result (λ scopes. map (λ s. map (λ x. x.now) s.items) scopes.items
        ≡ scopes_of (source_view source.now)) }
{
    let mut scopes = Vec::new(alloc);
    scopes.push(names_of_text(alloc, &source.elements)?)?;
    for element in &source.elements {
        push_element(alloc, &mut scopes, element)?;
    }
    Ok(scopes)
}
