//! The types and the units of a text, each as one list.

ghost use Rattle.std.specs.Prelude.{◌≡◌, ◌++◌, map, IfOk};
ghost use Rattle.st_types.specs.DeclarationViews.{type_declaration_view};
ghost use Rattle.st_types.specs.UnitViews.{unit_view};
ghost use Rattle.st_types.specs.SourceViews.{element_view, source_view};
ghost use Rattle.st_meaning.specs.NameTypes.{types_in, units_in};

use st_types::{LibraryElement, Source, TypeDeclaration, Unit};
use std::alloc::{AllocError, Global};

fn push_types<'a>(
    types: &mut Vec<&'a TypeDeclaration>,
    declared: &'a [TypeDeclaration],
) -> Result<(), AllocError>
    ensures { IfOk result (λ done. map (λ t. type_declaration_view t.now) types.new.items
        ≡ map (λ t. type_declaration_view t.now) types.old.items ++ map type_declaration_view declared.now) }
{
    for declaration in declared {
        types.push(declaration)?;
    }
    Ok(())
}

/// The types of a text.
pub fn types_in<'a>(
    alloc: Global,
    source: &'a Source,
) -> Result<Vec<&'a TypeDeclaration>, AllocError>
    ensures { IfOk result
        (λ types. map (λ t. type_declaration_view t.now) types.items ≡ types_in (source_view source.now)) }
{
    let mut types = Vec::new(alloc);
    for element in &source.elements {
        match element {
            LibraryElement::Types(declared) => push_types(&mut types, declared)?,
            LibraryElement::Unit(_) => {}
            LibraryElement::Configuration(_) => {}
        }
    }
    Ok(types)
}

/// The units of a text.
pub fn units_in<'a>(alloc: Global, source: &'a Source) -> Result<Vec<&'a Unit>, AllocError>
    ensures { IfOk result (λ units. map (λ u. unit_view u.now) units.items ≡ units_in (source_view source.now)) }
{
    let mut units = Vec::new(alloc);
    for element in &source.elements {
        match element {
            LibraryElement::Types(_) => {}
            LibraryElement::Unit(unit) => units.push(unit)?,
            LibraryElement::Configuration(_) => {}
        }
    }
    Ok(units)
}
