//! The types of the targets of initial values: those of elements and fields, found on the way down.

ghost use Rattle.std.specs.Prelude.{◌≡◌, option_map};
ghost use Rattle.st_meaning.specs.NameTypes.{Declared, definition_of};
ghost use Rattle.st_meaning.specs.ResolvedUnits.{element_of, field_of};
ghost use Rattle.st_rules.specs.InitialRules.{array_in, definition_at};
ghost use Rattle.symbols.specs.Texts.{ServesText};
ghost use Rattle.symbols.specs.Fields.{ServesFields};
ghost use Rattle.symbols.specs.PlaceTypes.{place_type_view};

use st_types::{ArrayType, Name, SimpleType, TypeDefinition};
use symbols::{FieldNames, PlaceType, TextNames, place_type};

/// The array of a declared type, if it is one.
fn array_of<'a>(names: &TextNames<'a>, declared: PlaceType<'a>) -> Option<&'a ArrayType>
    ensures { (text : Declared) → ServesText names.now text
        → option_map (λ a. a.now) result ≡ array_in (definition_of text (place_type_view declared.entry)) }
{
    match declared {
        PlaceType::Simple(SimpleType::Elementary(_, _)) => None,
        PlaceType::Simple(SimpleType::Named(name)) => match names.type_named(&name.name) {
            Some(TypeDefinition::Array(array)) => Some(array),
            Some(TypeDefinition::Structure(_)) => None,
            Some(TypeDefinition::Enumeration(_)) => None,
            None => None,
        },
        PlaceType::Array(array) => Some(array),
        PlaceType::Standard(_) => None,
    }
}

/// The array of a type, if the type is known and is one.
pub fn array_at<'a>(names: &TextNames<'a>, declared: Option<PlaceType<'a>>) -> Option<&'a ArrayType>
    ensures { (text : Declared) → ServesText names.now text → option_map (λ a. a.now) result
        ≡ array_in (definition_at text (option_map place_type_view declared.entry)) }
{
    match declared {
        Some(declared) => array_of(names, declared),
        None => None,
    }
}

/// The type of an array's elements.
pub fn element_of<'a>(
    names: &TextNames<'a>,
    declared: Option<PlaceType<'a>>,
) -> Option<PlaceType<'a>>
    ensures { (text : Declared) → ServesText names.now text → option_map place_type_view result
        ≡ element_of text (option_map place_type_view declared.entry) }
{
    match array_at(names, declared) {
        Some(array) => Some(PlaceType::Simple(&array.element)),
        None => None,
    }
}

/// The type of a structure's field.
pub fn field_of<'a>(
    fields: &FieldNames<'a>,
    declared: Option<PlaceType<'a>>,
    name: &Name,
) -> Option<PlaceType<'a>>
    ensures { (text : Declared) → ServesFields fields.now text → option_map place_type_view result
        ≡ field_of text (option_map place_type_view declared.entry) name.now }
{
    match declared {
        Some(PlaceType::Simple(SimpleType::Named(structure))) => {
            match fields.field(&structure.name, name) {
                Some(field) => Some(place_type(field)),
                None => None,
            }
        }
        _ => None,
    }
}
