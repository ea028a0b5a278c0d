//! The types of variables and of their parts.

ghost use Rattle.std.specs.Prelude.{◌≡◌};
ghost use Rattle.st_types.specs.declared.data_type.VariableType.TheVariants as types;
ghost use Rattle.symbols.specs.PlaceTypes.{place_type_view};

use st_types::{ArrayType, Kind, SimpleType, VariableType};

/// The type of a variable, or of a part of one.
#[derive(Clone, Copy)]
pub enum PlaceType<'a> {
    Simple(&'a SimpleType),
    Array(&'a ArrayType),
    /// Of an input or an output of a standard block.
    Standard(Kind),
}

/// The type as it is declared.
pub fn place_type<'a>(declared: &'a VariableType) -> PlaceType<'a>
    ensures { place_type_view result ≡ declared.now }
{
    match declared {
        VariableType::Simple(simple) => PlaceType::Simple(simple),
        VariableType::Array(array) => PlaceType::Array(array),
    }
}
