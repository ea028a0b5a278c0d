//! The declarations of a text as one flat list, in the order of the text, each with what it is declared in.

ghost use Rattle.std.specs.Prelude.{◌≡◌, ◌++◌, map, option_map, IfOk};
ghost use Rattle.std.specs.List.{flat_map};
ghost use Rattle.st_types.specs.DeclarationViews.{field_view, type_declaration_view};
ghost use Rattle.st_types.specs.DeclarationViews.{declaration_view, variable_block_view};
ghost use Rattle.st_types.specs.UnitViews.{unit_view};
ghost use Rattle.st_types.specs.ConfigurationViews.{global_block_view, configuration_view};
ghost use Rattle.st_types.specs.ConfigurationViews.{resource_view};
ghost use Rattle.st_types.specs.SourceViews.{element_view, source_view};
ghost use Rattle.st_decl.specs.Entries as flat;
ghost use Rattle.st_decl.specs.Entries.{entry_view, entries_of_type, entries_of_block, entries_of_unit};
ghost use Rattle.st_decl.specs.Entries.{entries_of_globals, entries_of_configuration, entries_of_element, entries_in};
ghost use Rattle.st_decl.specs.Entries.{array_of, result_of, enumeration_of, declaring_of};
ghost use Rattle.st_decl.specs.DeclaringViews.{declaring_view};

use crate::declarings::{Declaring, Role};
use st_types::{
    ArrayType, Configuration, Declaration, Field, GlobalBlock, GlobalDeclaration, GlobalQualifier,
    Identifier, LibraryElement, Resource, Section, SimpleType, Source, TypeDeclaration,
    TypeDefinition, Unit, UnitSort, VariableBlock, VariableType,
};
use std::alloc::{AllocError, Global};

/// A declaration.
#[derive(Clone, Copy)]
pub enum Entry<'a> {
    Type(&'a TypeDeclaration),
    /// A field of the type before it.
    Field(&'a Field),
    Unit(&'a Unit),
    /// Variables of the unit before them, in a block that begins with these words.
    Variable(&'a UnitSort, Section, &'a Declaration),
    /// Globals of a configuration, in a block of this qualifier.
    Global(Option<GlobalQualifier>, &'a GlobalDeclaration),
    /// A resource of a configuration.
    Resource(&'a Resource),
}

fn push_fields<'a>(entries: &mut Vec<Entry<'a>>, fields: &'a [Field]) -> Result<(), AllocError>
    ensures { IfOk result (λ done. map entry_view entries.new.items ≡ map entry_view entries.old.items
        ++ map flat.field_declared (map field_view fields.now)) }
{
    for field in fields {
        entries.push(Entry::Field(field))?;
    }
    Ok(())
}

fn push_type<'a>(
    entries: &mut Vec<Entry<'a>>,
    declaration: &'a TypeDeclaration,
) -> Result<(), AllocError>
    ensures { IfOk result (λ done. map entry_view entries.new.items ≡ map entry_view entries.old.items
        ++ entries_of_type (type_declaration_view declaration.now)) }
{
    entries.push(Entry::Type(declaration))?;
    match &declaration.definition {
        TypeDefinition::Array(_) => Ok(()),
        TypeDefinition::Structure(fields) => push_fields(entries, fields),
        TypeDefinition::Enumeration(_) => Ok(()),
    }
}

fn push_types<'a>(
    entries: &mut Vec<Entry<'a>>,
    types: &'a [TypeDeclaration],
) -> Result<(), AllocError>
    ensures { IfOk result (λ done. map entry_view entries.new.items ≡ map entry_view entries.old.items
        ++ flat_map entries_of_type (map type_declaration_view types.now)) }
{
    for declaration in types {
        push_type(entries, declaration)?;
    }
    Ok(())
}

fn push_block<'a>(
    entries: &mut Vec<Entry<'a>>,
    sort: &'a UnitSort,
    block: &'a VariableBlock,
) -> Result<(), AllocError>
    ensures { IfOk result (λ done. map entry_view entries.new.items ≡ map entry_view entries.old.items
        ++ entries_of_block sort.now (variable_block_view block.now)) }
{
    for declaration in &block.declarations {
        entries.push(Entry::Variable(sort, block.section, declaration))?;
    }
    Ok(())
}

fn push_unit<'a>(entries: &mut Vec<Entry<'a>>, unit: &'a Unit) -> Result<(), AllocError>
    ensures { IfOk result (λ done. map entry_view entries.new.items ≡ map entry_view entries.old.items
        ++ entries_of_unit (unit_view unit.now)) }
{
    entries.push(Entry::Unit(unit))?;
    for block in &unit.blocks {
        push_block(entries, &unit.sort, block)?;
    }
    Ok(())
}

fn push_globals<'a>(entries: &mut Vec<Entry<'a>>, block: &'a GlobalBlock) -> Result<(), AllocError>
    ensures { IfOk result (λ done. map entry_view entries.new.items ≡ map entry_view entries.old.items
        ++ entries_of_globals (global_block_view block.now)) }
{
    for declaration in &block.declarations {
        entries.push(Entry::Global(block.qualifier, declaration))?;
    }
    Ok(())
}

fn push_resources<'a>(
    entries: &mut Vec<Entry<'a>>,
    resources: &'a [Resource],
) -> Result<(), AllocError>
    ensures { IfOk result (λ done. map entry_view entries.new.items ≡ map entry_view entries.old.items
        ++ map flat.resource_declared (map resource_view resources.now)) }
{
    for resource in resources {
        entries.push(Entry::Resource(resource))?;
    }
    Ok(())
}

fn push_configuration<'a>(
    entries: &mut Vec<Entry<'a>>,
    configuration: &'a Configuration,
) -> Result<(), AllocError>
    ensures { IfOk result (λ done. map entry_view entries.new.items ≡ map entry_view entries.old.items
        ++ entries_of_configuration (configuration_view configuration.now)) }
{
    for block in &configuration.globals {
        push_globals(entries, block)?;
    }
    push_resources(entries, &configuration.resources)
}

fn push_element<'a>(
    entries: &mut Vec<Entry<'a>>,
    element: &'a LibraryElement,
) -> Result<(), AllocError>
    ensures { IfOk result (λ done. map entry_view entries.new.items ≡ map entry_view entries.old.items
        ++ entries_of_element (element_view element.now)) }
{
    match element {
        LibraryElement::Types(types) => push_types(entries, types),
        LibraryElement::Unit(unit) => push_unit(entries, unit),
        LibraryElement::Configuration(configuration) => push_configuration(entries, configuration),
    }
}

/// The declarations of a text.
pub fn entries_in<'a>(alloc: Global, source: &'a Source) -> Result<Vec<Entry<'a>>, AllocError>
    ensures { IfOk result (λ entries. map entry_view entries.items ≡ entries_in (source_view source.now)) }
{
    let mut entries = Vec::new(alloc);
    for element in &source.elements {
        push_element(&mut entries, element)?;
    }
    Ok(entries)
}

impl<'a> Entry<'a> {
    /// The declared type of a field, of variables or of globals.
    pub fn declaring(self) -> Option<Declaring<'a>>
        ensures { option_map declaring_view result ≡ declaring_of (entry_view self.entry) }
    {
        match self {
            Entry::Field(field) => Some(Declaring {
                role: Role::Field,
                declared: &field.declared,
                initial: &field.initial,
            }),
            Entry::Variable(sort, section, declaration) => Some(Declaring {
                role: Role::Variable(sort, section),
                declared: &declaration.declared,
                initial: &declaration.initial,
            }),
            Entry::Global(_, declaration) => Some(Declaring {
                role: Role::Global,
                declared: &declaration.declared,
                initial: &declaration.initial,
            }),
            Entry::Type(_) | Entry::Unit(_) | Entry::Resource(_) => None,
        }
    }

    /// The array that is declared, with a name or without.
    pub fn array(self) -> Option<&'a ArrayType>
        ensures { option_map (λ a. a.now) result ≡ array_of (entry_view self.entry) }
    {
        let declared = match self {
            Entry::Type(declaration) => match &declaration.definition {
                TypeDefinition::Array(array) => return Some(array),
                TypeDefinition::Structure(_) => return None,
                TypeDefinition::Enumeration(_) => return None,
            },
            Entry::Field(field) => &field.declared,
            Entry::Variable(_, _, declaration) => &declaration.declared,
            Entry::Global(_, declaration) => &declaration.declared,
            Entry::Unit(_) => return None,
            Entry::Resource(_) => return None,
        };
        match declared {
            VariableType::Array(array) => Some(array),
            VariableType::Simple(_) => None,
        }
    }

    /// The type of the result of a function.
    pub fn result(self) -> Option<&'a SimpleType>
        ensures { option_map (λ t. t.now) result ≡ result_of (entry_view self.entry) }
    {
        match self {
            Entry::Unit(unit) => match &unit.sort {
                UnitSort::Function(declared) => Some(declared),
                UnitSort::FunctionBlock => None,
                UnitSort::Program => None,
            },
            _ => None,
        }
    }

    /// The names of an enumerated type.
    pub fn enumeration(self) -> Option<&'a [Identifier]>
        ensures { option_map (λ x. x.now) result ≡ enumeration_of (entry_view self.entry) }
    {
        match self {
            Entry::Type(declaration) => match &declaration.definition {
                TypeDefinition::Enumeration(names) => Some(names),
                TypeDefinition::Array(_) => None,
                TypeDefinition::Structure(_) => None,
            },
            _ => None,
        }
    }
}
