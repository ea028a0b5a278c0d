//! The parts of units and types.

ghost use Rattle.std.specs.Prelude.{◌≡◌, ◌++◌, ◌∷◌, [], map, filter, IfOk, is_some};
ghost use Rattle.std.specs.List.{flat_map};
ghost use Rattle.st_types.specs.DeclarationViews.{field_view, type_definition_view, declaration_view};
ghost use Rattle.st_types.specs.DeclarationViews.{variable_block_view};
ghost use Rattle.st_types.specs.UnitViews.{unit_view};
ghost use Rattle.st_meaning.specs.Bodies.{is_external};
ghost use Rattle.st_meaning.specs.NameTypes.{Declared, unit_named};
ghost use Rattle.st_rules.specs.Containment as rules;
ghost use Rattle.st_rules.specs.Containment.{part_of_simple, part_of_type, parts_of_block, part_of_result};
ghost use Rattle.st_rules.specs.Containment.{is_function, parts_of_unit, parts_of_definition};
ghost use Rattle.symbols.specs.Texts.{ServesText};
ghost use Rattle.st_decl.specs.Parts.{part_view};

use crate::calls::calls_of;
use st_types::{
    ArrayType, Field, Identifier, Name, Section, SimpleType, TypeDefinition, Unit, UnitSort,
    VariableBlock, VariableType,
};
use std::alloc::{AllocError, Global};
use symbols::TextNames;

/// A part of a unit or a type.
#[derive(Clone, Copy)]
pub enum Part<'a> {
    /// Of an elementary type.
    Elementary,
    /// A unit or a type by its name.
    Named(&'a Name),
    /// An array without a name, by its element.
    Row(&'a SimpleType),
}

/// The part of a type named by one word.
pub fn part_of_simple(simple: &SimpleType) -> Part<'_>
    ensures { part_view result ≡ part_of_simple simple.now }
{
    match simple {
        SimpleType::Elementary(_, _) => Part::Elementary,
        SimpleType::Named(name) => Part::Named(&name.name),
    }
}

fn part_of_type(declared: &VariableType) -> Part<'_>
    ensures { part_view result ≡ part_of_type declared.now }
{
    match declared {
        VariableType::Simple(simple) => part_of_simple(simple),
        VariableType::Array(array) => Part::Row(&array.element),
    }
}

fn push_fields<'a>(parts: &mut Vec<Part<'a>>, fields: &'a [Field]) -> Result<(), AllocError>
    ensures { IfOk result (λ done. map part_view parts.new.items ≡ map part_view parts.old.items
        ++ map (λ f. part_of_type f.declared) (map field_view fields.now)) }
{
    for field in fields {
        parts.push(part_of_type(&field.declared))?;
    }
    Ok(())
}

/// The parts of a declared type.
pub fn parts_of_definition<'a>(
    alloc: Global,
    definition: &'a TypeDefinition,
) -> Result<Vec<Part<'a>>, AllocError>
    ensures { IfOk result
        (λ parts. map part_view parts.items ≡ parts_of_definition (type_definition_view definition.now)) }
{
    let mut parts = Vec::new(alloc);
    match definition {
        TypeDefinition::Array(array) => parts.push(part_of_simple(&array.element))?,
        TypeDefinition::Structure(fields) => push_fields(&mut parts, fields)?,
        TypeDefinition::Enumeration(_) => {}
    }
    Ok(parts)
}

fn is_external(section: Section) -> bool
    ensures { result ≡ is_external section }
{
    match section {
        Section::External => true,
        Section::ConstantExternal => true,
        _ => false,
    }
}

fn push_variables<'a>(parts: &mut Vec<Part<'a>>, block: &'a VariableBlock) -> Result<(), AllocError>
    ensures { IfOk result (λ done. map part_view parts.new.items ≡ map part_view parts.old.items
        ++ map (λ d. part_of_type d.declared) (map declaration_view block.now.declarations.items)) }
{
    for declaration in &block.declarations {
        parts.push(part_of_type(&declaration.declared))?;
    }
    Ok(())
}

fn push_block<'a>(parts: &mut Vec<Part<'a>>, block: &'a VariableBlock) -> Result<(), AllocError>
    ensures { IfOk result (λ done. map part_view parts.new.items ≡ map part_view parts.old.items
        ++ parts_of_block (variable_block_view block.now)) }
{
    if is_external(block.section) {
        Ok(())
    } else {
        push_variables(parts, block)
    }
}

fn push_blocks<'a>(parts: &mut Vec<Part<'a>>, blocks: &'a [VariableBlock]) -> Result<(), AllocError>
    ensures { IfOk result (λ done. map part_view parts.new.items ≡ map part_view parts.old.items
        ++ flat_map parts_of_block (map variable_block_view blocks.now)) }
{
    for block in blocks {
        push_block(parts, block)?;
    }
    Ok(())
}

fn push_result<'a>(parts: &mut Vec<Part<'a>>, sort: &'a UnitSort) -> Result<(), AllocError>
    ensures { IfOk result (λ done. map part_view parts.new.items ≡ map part_view parts.old.items
        ++ part_of_result sort.now) }
{
    match sort {
        UnitSort::Function(simple) => {
            parts.push(part_of_simple(simple))?;
            Ok(())
        }
        UnitSort::FunctionBlock => Ok(()),
        UnitSort::Program => Ok(()),
    }
}

/// Whether the name is that of a function of the text.
fn is_function(names: &TextNames, name: &Name) -> bool
    ensures { (text : Declared) → ServesText names.now text → result ≡ is_function text name.now }
{
    match names.unit_named(name) {
        Some(unit) => matches!(unit.sort, UnitSort::Function(_)),
        None => false,
    }
}

fn push_functions<'a>(
    parts: &mut Vec<Part<'a>>,
    names: &TextNames,
    calls: &[&'a Identifier],
) -> Result<(), AllocError>
    ensures { IfOk result (λ done. (text : Declared) → ServesText names.now text
        → map part_view parts.new.items ≡ map part_view parts.old.items
        ++ map rules.named (filter (is_function text) (map (λ x. x.now.name) calls.now))) }
{
    for call in calls {
        if is_function(names, &call.name) {
            parts.push(Part::Named(&call.name))?;
        }
    }
    Ok(())
}

/// The parts of a unit.
pub fn parts_of_unit<'a>(
    alloc: Global,
    names: &TextNames,
    unit: &'a Unit,
) -> Result<Vec<Part<'a>>, AllocError>
    ensures { IfOk result (λ parts. (text : Declared) → ServesText names.now text
        → map part_view parts.items ≡ parts_of_unit text (unit_view unit.now)) }
{
    let mut parts = Vec::new(alloc);
    push_blocks(&mut parts, &unit.blocks)?;
    push_result(&mut parts, &unit.sort)?;
    let calls = calls_of(alloc, unit)?;
    push_functions(&mut parts, names, &calls)?;
    Ok(parts)
}
