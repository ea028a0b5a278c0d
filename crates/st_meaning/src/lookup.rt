//! The declared types of names.

ghost use Rattle.std.specs.Prelude.{◌≡◌, map, option_map};
ghost use Rattle.std.specs.List.{list_any};
ghost use Rattle.st_types.specs.DeclarationViews.{declaration_view, variable_block_view};
ghost use Rattle.st_meaning.specs.NameTypes.{kind_of_type, type_in, type_in_blocks, is_named};

use st_types::{Declaration, Identifier, Kind, Name, SimpleType, VariableBlock, VariableType};

/// The elementary type of a declared type, if it is one.
pub fn kind_of_type(declared: &VariableType) -> Option<Kind>
    ensures { result ≡ kind_of_type declared.now }
{
    match declared {
        VariableType::Simple(SimpleType::Elementary(kind, _)) => Some(*kind),
        _ => None,
    }
}

/// Whether the identifier is of this name.
pub fn is_named(name: &Name, identifier: &Identifier) -> bool
    ensures { result ≡ is_named name.now identifier.now }
{
    name.is(&identifier.name)
}

/// Whether the name is one of these.
pub fn is_listed(name: &Name, names: &[Identifier]) -> bool
    ensures { result ≡ list_any (is_named name.now) names.now }
{
    names.iter().any(|x| is_named(name, x))
}

/// The type that a list of declarations gives a name.
fn type_in<'a>(declarations: &'a [Declaration], name: &Name) -> Option<&'a VariableType>
    ensures { option_map (λ t. t.now) result ≡ type_in (map declaration_view declarations.now) name.now }
{
    for declaration in declarations {
        if is_listed(name, &declaration.names) {
            return Some(&declaration.declared);
        }
    }
    None
}

/// The type that the blocks of a unit's variables give a name.
pub fn type_in_blocks<'a>(blocks: &'a [VariableBlock], name: &Name) -> Option<&'a VariableType>
    ensures { option_map (λ t. t.now) result ≡ type_in_blocks (map variable_block_view blocks.now) name.now }
{
    for block in blocks {
        if let Some(declared) = type_in(&block.declarations, name) {
            return Some(declared);
        }
    }
    None
}
