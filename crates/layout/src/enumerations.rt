//! The names of a text's enumerated types.

ghost use Rattle.std.specs.Prelude.{◌≡◌, ◌++◌, IfOk, map};
ghost use Rattle.std.specs.Vec.{vec_items};
ghost use Rattle.st_types.specs.DeclarationViews.{type_declaration_view};
ghost use Rattle.st_types.specs.SourceViews.{source_view};
ghost use Rattle.layout.specs.TypeNames.{names_in_text, names_of_types};

use st_types::{Identifier, LibraryElement, Name, Source, TypeDeclaration, TypeDefinition};
use std::alloc::{AllocError, Global};

fn names_of(alloc: Global, identifiers: &[Identifier]) -> Result<Vec<Name>, AllocError>
    ensures { IfOk result (λ names. names.items ≡ map (λ x. x.name) identifiers.now) }
{
    let mut names = Vec::new(alloc);
    for identifier in identifiers {
        names.push(identifier.name.copied(alloc)?)?;
    }
    Ok(names)
}

/// Appends the names of each enumerated type among these.
fn push_enumerations(
    alloc: Global,
    enumerations: &mut Vec<Vec<Name>>,
    types: &[TypeDeclaration],
) -> Result<(), AllocError>
    ensures { IfOk result (λ done. map vec_items enumerations.new.items ≡ map vec_items enumerations.old.items
        ++ names_of_types (map type_declaration_view types.now)) }
{
    for declared in types {
        if let TypeDefinition::Enumeration(names) = &declared.definition {
            enumerations.push(names_of(alloc, names)?)?;
        }
    }
    Ok(())
}

/// The names of each enumerated type of a text, in its order.
pub fn enumerations_in(alloc: Global, tree: &Source) -> Result<Vec<Vec<Name>>, AllocError>
    ensures { IfOk result
        (λ enumerations. map vec_items enumerations.items ≡ names_in_text (source_view tree.now)) }
{
    let mut enumerations = Vec::new(alloc);
    for element in &tree.elements {
        if let LibraryElement::Types(types) = element {
            push_enumerations(alloc, &mut enumerations, types)?;
        }
    }
    Ok(enumerations)
}
