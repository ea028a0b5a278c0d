//! The fields of a text's structures by their names.

ghost use Rattle.std.specs.Prelude.{◌≡◌, List, ℕ, Option, Some, None, IfOk, map, option_map};
ghost use Rattle.st_types.specs.DeclarationViews.{field_view, type_definition_view, type_declaration_view};
ghost use Rattle.st_meaning.specs.NameTypes.{Declared, field_type, type_named};
ghost use Rattle.st_meaning.specs.ResolvedUnits.{field_in};
ghost use Rattle.symbols.specs.Fields.{type_in, ServesFields};

use crate::index::Index;
use st_types::{Field, Name, TypeDeclaration, TypeDefinition, VariableType};
use std::alloc::{AllocError, Global};

/// The fields of each structure of a text with their types; if several have one name, the first.
pub struct FieldNames<'a> {
    structures: Index<'a, Index<'a, &'a VariableType>>,
}

impl Drop for FieldNames<'_> {
    fn drop(self) {
        let Self { structures: _ } = self;
    }
}

fn fields_of<'a>(
    alloc: Global,
    fields: &'a [Field],
) -> Result<Index<'a, &'a VariableType>, AllocError>
    ensures { IfOk result (λ index. (q : List ℕ) → type_in index q ≡ field_type (map field_view fields.now) q) }
{
    let mut index = Index::new(alloc);
    for field in fields {
        index.add(&field.name.name, &field.declared)?;
    }
    Ok(index)
}

/// The fields of a type; none if it isn't a structure.
fn fields_of_definition<'a>(
    alloc: Global,
    definition: &'a TypeDefinition,
) -> Result<Index<'a, &'a VariableType>, AllocError>
    ensures { IfOk result (λ index. (q : List ℕ) → type_in index q
        ≡ field_in (Some (type_definition_view definition.now)) q) }
{
    match definition {
        TypeDefinition::Array(_) => Ok(Index::new(alloc)),
        TypeDefinition::Structure(fields) => fields_of(alloc, fields),
        TypeDefinition::Enumeration(_) => Ok(Index::new(alloc)),
    }
}

impl<'a> FieldNames<'a> {
    /// The fields of the structures among these types.
    pub fn new(alloc: Global, types: &[&'a TypeDeclaration]) -> Result<FieldNames<'a>, AllocError>
        ensures { IfOk result (λ names. (text : Declared)
            → map (λ t. type_declaration_view t.now) types.now ≡ text.types → ServesFields names text) }
    {
        let mut structures = Index::new(alloc);
        for declaration in types {
            let fields = fields_of_definition(alloc, &declaration.definition)?;
            structures.add(&declaration.name.name, fields)?;
        }
        Ok(FieldNames { structures })
    }

    /// The type of a field of the structure of this name.
    pub fn field(&self, structure: &Name, field: &Name) -> Option<&'a VariableType>
        ensures { (text : Declared) → ServesFields self.now text
            → option_map (λ t. t.now) result ≡ field_in (type_named text.types structure.now) field.now }
    {
        match self.structures.get(structure) {
            Some(fields) => fields.find(field),
            None => None,
        }
    }
}
