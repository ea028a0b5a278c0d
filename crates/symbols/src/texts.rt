//! The types and units of a text by their names.

ghost use Rattle.std.specs.Prelude.{◌≡◌, List, ℕ, Option, IfOk, OnOk, map, option_map};
ghost use Rattle.st_types.specs.DeclarationViews.{type_definition_view, type_declaration_view};
ghost use Rattle.st_types.specs.UnitViews.{unit_view};
ghost use Rattle.st_types.specs.SourceViews.{source_view};
ghost use Rattle.st_meaning.specs.NameTypes.{Declared, declared_in, type_named, unit_named};
ghost use Rattle.symbols.specs.Found.{or_found};
ghost use Rattle.symbols.specs.Texts.{type_found, unit_found, ServesText};

use crate::index::Index;
use st_types::{LibraryElement, Name, Source, TypeDeclaration, TypeDefinition, Unit};
use std::alloc::{AllocError, Global};

/// The types and the units of a text; if several have one name, the first.
pub struct TextNames<'a> {
    types: Index<'a, &'a TypeDefinition>,
    units: Index<'a, &'a Unit>,
}

impl Drop for TextNames<'_> {
    fn drop(self) {
        let Self { types: _, units: _ } = self;
    }
}

/// Adds the types of one block after the others.
fn add_types<'a>(
    types: &mut Index<'a, &'a TypeDefinition>,
    declared: &'a [TypeDeclaration],
) -> Result<(), AllocError>
    ensures { OnOk result ((q : List ℕ) → type_found types.new q
        ≡ or_found (type_found types.old q) (type_named (map type_declaration_view declared.now) q)) }
{
    for declaration in declared {
        types.add(&declaration.name.name, &declaration.definition)?;
    }
    Ok(())
}

impl<'a> TextNames<'a> {
    /// The names of a text.
    pub fn new(alloc: Global, source: &'a Source) -> Result<TextNames<'a>, AllocError>
        ensures serves { IfOk result (λ names. ServesText names (declared_in (source_view source.now))) }
    {
        let mut types = Index::new(alloc);
        let mut units = Index::new(alloc);
        for element in &source.elements {
            match element {
                LibraryElement::Types(declared) => add_types(&mut types, declared)?,
                LibraryElement::Unit(unit) => units.add(&unit.name.name, unit)?,
                LibraryElement::Configuration(_) => {}
            }
        }
        Ok(TextNames { types, units })
    }

    /// The definition of the type of this name.
    pub fn type_named(&self, name: &Name) -> Option<&'a TypeDefinition>
        ensures { (text : Declared) → ServesText self.now text
            → option_map (λ d. type_definition_view d.now) result ≡ type_named text.types name.now }
    {
        self.types.find(name)
    }

    /// The unit of this name.
    pub fn unit_named(&self, name: &Name) -> Option<&'a Unit>
        ensures { (text : Declared) → ServesText self.now text
            → option_map (λ u. unit_view u.now) result ≡ unit_named text.units name.now }
    {
        self.units.find(name)
    }
}
