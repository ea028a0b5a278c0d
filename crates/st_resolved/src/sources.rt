//! Whole texts.

ghost use Rattle.std.specs.Prelude.{◌≡◌, IfOk, map};
ghost use Rattle.st_types.specs.DeclarationViews.{type_declaration_view};
ghost use Rattle.st_types.specs.SourceViews.{element_view, source_view};
ghost use Rattle.st_meaning.specs.NameTypes.{Declared, declared_in, types_in};
ghost use Rattle.st_meaning.specs.ResolvedUnits.{resolved_element_of_text, resolved_source};
ghost use Rattle.symbols.specs.Fields.{ServesFields};
ghost use Rattle.symbols.specs.Tables.{ServesTables};

use crate::declarations::resolved_types;
use crate::globals::resolved_configuration;
use crate::units::resolved_unit;
use st_decl::{types_in, units_in};
use st_types::{LibraryElement, Source, TypeDeclaration};
use std::alloc::{AllocError, Global};
use symbols::{FieldNames, TextNames, TextTables};

fn resolved_element<'a>(
    alloc: Global,
    tables: &TextTables<'a>,
    fields: &FieldNames<'a>,
    element: &'a LibraryElement,
) -> Result<LibraryElement, AllocError>
    ensures { IfOk result (λ e. (text : Declared) → ServesTables tables.now text → ServesFields fields.now text
        → element_view e ≡ resolved_element_of_text text (element_view element.now)) }
{
    match element {
        LibraryElement::Types(types) => {
            let types = resolved_types(alloc, tables, fields, types)?;
            Ok(LibraryElement::Types(types))
        }
        LibraryElement::Unit(unit) => {
            let unit = resolved_unit(alloc, tables, fields, unit)?;
            Ok(LibraryElement::Unit(unit))
        }
        LibraryElement::Configuration(declared) => {
            let declared = resolved_configuration(alloc, tables, fields, declared)?;
            Ok(LibraryElement::Configuration(declared))
        }
    }
}

fn resolved_elements<'a>(
    alloc: Global,
    tables: &TextTables<'a>,
    fields: &FieldNames<'a>,
    elements: &'a [LibraryElement],
) -> Result<Vec<LibraryElement>, AllocError>
    ensures { IfOk result (λ list. (text : Declared) → ServesTables tables.now text → ServesFields fields.now text
        → map element_view list.items ≡ map (resolved_element_of_text text) (map element_view elements.now)) }
{
    let mut resolved = Vec::new(alloc);
    for element in elements {
        resolved.push(resolved_element(alloc, tables, fields, element)?)?;
    }
    Ok(resolved)
}

/// The meanings of the names of a text with these types.
fn tables_of<'a>(
    alloc: Global,
    source: &'a Source,
    types: &[&'a TypeDeclaration],
) -> Result<TextTables<'a>, AllocError>
    requires { map (λ t. type_declaration_view t.now) types.now ≡ types_in (source_view source.now) }
    ensures { IfOk result (λ tables. ServesTables tables (declared_in (source_view source.now))) }
{
    let units = units_in(alloc, source)?;
    let names = TextNames::new(alloc, source)?;
    TextTables::new(alloc, names, types, &units)
}

/// The resolved tree of a text, whatever the text: the tree of its parse, in which each literal has its type and each name
/// of a value of an enumerated type is a number of its type. The only error is out of memory; a type with more names than
/// its rule allows may count as that.
pub fn resolved_source(alloc: Global, source: &Source) -> Result<Source, AllocError>
    ensures { IfOk result (λ s. source_view s ≡ resolved_source (source_view source.now)) }
{
    let types = types_in(alloc, source)?;
    let fields = FieldNames::new(alloc, &types)?;
    let tables = tables_of(alloc, source, &types)?;
    let elements = resolved_elements(alloc, &tables, &fields, &source.elements)?;
    Ok(Source { elements })
}
