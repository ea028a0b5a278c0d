//! Declarations of variables and types.

ghost use Rattle.std.specs.Prelude.{◌≡◌, Some, IfOk, map, option_map};
ghost use Rattle.st_types.specs.InitialViews.{initial_view};
ghost use Rattle.st_types.specs.DeclarationViews.{declaration_view, variable_block_view, field_view};
ghost use Rattle.st_types.specs.DeclarationViews.{type_definition_view, type_declaration_view};
ghost use Rattle.st_meaning.specs.NameTypes.{Declared};
ghost use Rattle.st_meaning.specs.ResolvedUnits.{resolved_initial, resolved_array, resolved_type, resolved_declaration};
ghost use Rattle.st_meaning.specs.ResolvedUnits.{resolved_block, resolved_field, resolved_definition};
ghost use Rattle.st_meaning.specs.ResolvedUnits.{resolved_type_declaration};
ghost use Rattle.symbols.specs.Fields.{ServesFields};
ghost use Rattle.symbols.specs.Tables.{ServesTables};

use crate::copies::{copied_names, copied_simple};
use crate::initials::resolved_initial;
use crate::literals::taking_number;
use st_types::{
    ArrayType, Declaration, Field, Initial, TypeDeclaration, TypeDefinition, VariableBlock,
    VariableType,
};
use st_typing::taken_kind;
use std::alloc::{AllocError, Global};
use symbols::{FieldNames, TextTables, place_type};

/// An array; a bound that has no type is a LINT.
fn resolved_array(alloc: Global, array: &ArrayType) -> Result<ArrayType, AllocError>
    ensures { IfOk result (λ a. a ≡ resolved_array array.now) }
{
    let kind = taken_kind(None);
    Ok(ArrayType {
        place: array.place,
        lower: taking_number(kind, array.lower),
        upper: taking_number(kind, array.upper),
        element: copied_simple(alloc, &array.element)?,
    })
}

pub fn resolved_type(alloc: Global, declared: &VariableType) -> Result<VariableType, AllocError>
    ensures { IfOk result (λ t. t ≡ resolved_type declared.now) }
{
    match declared {
        VariableType::Simple(simple) => Ok(VariableType::Simple(copied_simple(alloc, simple)?)),
        VariableType::Array(array) => Ok(VariableType::Array(resolved_array(alloc, array)?)),
    }
}

/// The initial value of a declaration, if it has one.
pub fn resolved_start<'a>(
    alloc: Global,
    tables: &TextTables<'a>,
    fields: &FieldNames<'a>,
    declared: &'a VariableType,
    initial: &Option<Initial>,
) -> Result<Option<Initial>, AllocError>
    ensures { IfOk result (λ i. (text : Declared) → ServesTables tables.now text → ServesFields fields.now text
        → option_map initial_view i
        ≡ option_map (resolved_initial text (Some declared.now)) (option_map initial_view initial.now)) }
{
    match initial {
        Some(initial) => {
            let declared = Some(place_type(declared));
            Ok(Some(resolved_initial(alloc, tables, fields, declared, initial)?))
        }
        None => Ok(None),
    }
}

fn resolved_declaration<'a>(
    alloc: Global,
    tables: &TextTables<'a>,
    fields: &FieldNames<'a>,
    declaration: &'a Declaration,
) -> Result<Declaration, AllocError>
    ensures { IfOk result (λ d. (text : Declared) → ServesTables tables.now text → ServesFields fields.now text
        → declaration_view d ≡ resolved_declaration text (declaration_view declaration.now)) }
{
    let declared = &declaration.declared;
    Ok(Declaration {
        names: copied_names(alloc, &declaration.names)?,
        declared: resolved_type(alloc, declared)?,
        initial: resolved_start(alloc, tables, fields, declared, &declaration.initial)?,
    })
}

fn resolved_declarations<'a>(
    alloc: Global,
    tables: &TextTables<'a>,
    fields: &FieldNames<'a>,
    declarations: &'a [Declaration],
) -> Result<Vec<Declaration>, AllocError>
    ensures { IfOk result (λ list. (text : Declared) → ServesTables tables.now text → ServesFields fields.now text
        → map declaration_view list.items
        ≡ map (resolved_declaration text) (map declaration_view declarations.now)) }
{
    let mut resolved = Vec::new(alloc);
    for declaration in declarations {
        resolved.push(resolved_declaration(alloc, tables, fields, declaration)?)?;
    }
    Ok(resolved)
}

fn resolved_block<'a>(
    alloc: Global,
    tables: &TextTables<'a>,
    fields: &FieldNames<'a>,
    block: &'a VariableBlock,
) -> Result<VariableBlock, AllocError>
    ensures { IfOk result (λ b. (text : Declared) → ServesTables tables.now text → ServesFields fields.now text
        → variable_block_view b ≡ resolved_block text (variable_block_view block.now)) }
{
    Ok(VariableBlock {
        section: block.section,
        declarations: resolved_declarations(alloc, tables, fields, &block.declarations)?,
    })
}

/// The blocks of variables of a unit.
pub fn resolved_blocks<'a>(
    alloc: Global,
    tables: &TextTables<'a>,
    fields: &FieldNames<'a>,
    blocks: &'a [VariableBlock],
) -> Result<Vec<VariableBlock>, AllocError>
    ensures { IfOk result (λ list. (text : Declared) → ServesTables tables.now text → ServesFields fields.now text
        → map variable_block_view list.items ≡ map (resolved_block text) (map variable_block_view blocks.now)) }
{
    let mut resolved = Vec::new(alloc);
    for block in blocks {
        resolved.push(resolved_block(alloc, tables, fields, block)?)?;
    }
    Ok(resolved)
}

fn resolved_field<'a>(
    alloc: Global,
    tables: &TextTables<'a>,
    fields: &FieldNames<'a>,
    field: &'a Field,
) -> Result<Field, AllocError>
    ensures { IfOk result (λ f. (text : Declared) → ServesTables tables.now text → ServesFields fields.now text
        → field_view f ≡ resolved_field text (field_view field.now)) }
{
    Ok(Field {
        name: field.name.copied(alloc)?,
        declared: resolved_type(alloc, &field.declared)?,
        initial: resolved_start(alloc, tables, fields, &field.declared, &field.initial)?,
    })
}

fn resolved_structure<'a>(
    alloc: Global,
    tables: &TextTables<'a>,
    fields: &FieldNames<'a>,
    structure: &'a [Field],
) -> Result<Vec<Field>, AllocError>
    ensures { IfOk result (λ list. (text : Declared) → ServesTables tables.now text → ServesFields fields.now text
        → map field_view list.items ≡ map (resolved_field text) (map field_view structure.now)) }
{
    let mut resolved = Vec::new(alloc);
    for field in structure {
        resolved.push(resolved_field(alloc, tables, fields, field)?)?;
    }
    Ok(resolved)
}

fn resolved_definition<'a>(
    alloc: Global,
    tables: &TextTables<'a>,
    fields: &FieldNames<'a>,
    definition: &'a TypeDefinition,
) -> Result<TypeDefinition, AllocError>
    ensures { IfOk result (λ d. (text : Declared) → ServesTables tables.now text → ServesFields fields.now text
        → type_definition_view d ≡ resolved_definition text (type_definition_view definition.now)) }
{
    match definition {
        TypeDefinition::Array(array) => Ok(TypeDefinition::Array(resolved_array(alloc, array)?)),
        TypeDefinition::Structure(structure) => {
            let structure = resolved_structure(alloc, tables, fields, structure)?;
            Ok(TypeDefinition::Structure(structure))
        }
        TypeDefinition::Enumeration(names) => {
            Ok(TypeDefinition::Enumeration(copied_names(alloc, names)?))
        }
    }
}

fn resolved_type_declaration<'a>(
    alloc: Global,
    tables: &TextTables<'a>,
    fields: &FieldNames<'a>,
    declaration: &'a TypeDeclaration,
) -> Result<TypeDeclaration, AllocError>
    ensures { IfOk result (λ d. (text : Declared) → ServesTables tables.now text → ServesFields fields.now text
        → type_declaration_view d
        ≡ resolved_type_declaration text (type_declaration_view declaration.now)) }
{
    Ok(TypeDeclaration {
        name: declaration.name.copied(alloc)?,
        definition: resolved_definition(alloc, tables, fields, &declaration.definition)?,
    })
}

/// The declarations from TYPE to END_TYPE.
pub fn resolved_types<'a>(
    alloc: Global,
    tables: &TextTables<'a>,
    fields: &FieldNames<'a>,
    types: &'a [TypeDeclaration],
) -> Result<Vec<TypeDeclaration>, AllocError>
    ensures { IfOk result (λ list. (text : Declared) → ServesTables tables.now text → ServesFields fields.now text
        → map type_declaration_view list.items
        ≡ map (resolved_type_declaration text) (map type_declaration_view types.now)) }
{
    let mut resolved = Vec::new(alloc);
    for declaration in types {
        resolved.push(resolved_type_declaration(alloc, tables, fields, declaration)?)?;
    }
    Ok(resolved)
}
