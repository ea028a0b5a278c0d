//! The elementary or enumerated types of variables and of their parts.

ghost use Rattle.std.specs.Prelude.{◌≡◌, option_map};
ghost use Rattle.st_types.specs.ExpressionViews.{variable_view};
ghost use Rattle.st_meaning.specs.NameTypes.{Declared, kind_among, kind_of_variable};
ghost use Rattle.st_meaning.specs.ResolvedUnits.{kind_there};
ghost use Rattle.st_rules.specs.Environments.{Environment};
ghost use Rattle.symbols.specs.PlaceTypes.{place_type_view};
ghost use Rattle.symbols.specs.Serving.{Serves};
ghost use Rattle.symbols.specs.Tables.{ServesTables};

use st_rules::Typing;
use st_types::{Kind, Variable};
use st_typing::type_after_selectors;
use symbols::{PlaceType, TextTables, UnitNames};

/// The type, if it is elementary or enumerated.
pub fn kind_of_type(tables: &TextTables, declared: PlaceType) -> Option<Kind>
    ensures { (text : Declared) → ServesTables tables.now text
        → result ≡ kind_among text.types (place_type_view declared.entry) }
{
    match tables.typing_of_type(declared) {
        Typing::Elementary(kind) => Some(kind),
        _ => None,
    }
}

/// The type, if there is one and it is elementary or enumerated.
pub fn kind_there(tables: &TextTables, declared: Option<PlaceType>) -> Option<Kind>
    ensures { (text : Declared) → ServesTables tables.now text
        → result ≡ kind_there text (option_map place_type_view declared.entry) }
{
    match declared {
        Some(declared) => kind_of_type(tables, declared),
        None => None,
    }
}

/// The elementary or enumerated type of a variable.
pub fn kind_of_variable(names: &UnitNames, variable: &Variable) -> Option<Kind>
    ensures { (env : Environment) → Serves names.now env
        → result ≡ kind_of_variable env.text env.unit (variable_view variable.now) }
{
    match names.type_of_name(&variable.name.name) {
        Some(declared) => kind_there(
            names.tables,
            type_after_selectors(names.tables, declared, &variable.selectors),
        ),
        None => None,
    }
}
