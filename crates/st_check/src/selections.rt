//! Selections of variables, apart from the expressions in their subscripts.

ghost use Rattle.std.specs.Prelude.{◌≡◌, map, option_map};
ghost use Rattle.st_types.specs.Expressions.{selectors_of};
ghost use Rattle.st_types.specs.ExpressionViews.{selector_view, variable_view};
ghost use Rattle.st_meaning.specs.NameTypes.{Declared};
ghost use Rattle.st_rules.specs.Environments.{Environment, is_instance, type_of_place};
ghost use Rattle.st_rules.specs.ExpressionRules.{wrong_selectors, wrong_variable};
ghost use Rattle.st_rules.specs.Collecting.{Collects};
ghost use Rattle.st_rules.specs.TargetRules.{passes_instance};
ghost use Rattle.symbols.specs.PlaceTypes.{place_type_view};
ghost use Rattle.symbols.specs.Serving.{Serves};
ghost use Rattle.symbols.specs.Tables.{ServesTables};

use st_rules::{Broken, BrokenRules, Reason};
use st_types::{Selector, SimpleType, Variable};
use st_typing::{select, selected_type, type_after_selectors};
use symbols::{PlaceType, TextTables, UnitNames};

/// The type of the part that a variable selects.
pub fn type_of_place<'a>(names: &UnitNames<'_, 'a>, variable: &Variable) -> Option<PlaceType<'a>>
    ensures { (env : Environment) → Serves names.now env
        → option_map place_type_view result ≡ type_of_place env (variable_view variable.now) }
{
    match names.type_of_name(&variable.name.name) {
        Some(declared) => type_after_selectors(names.tables, declared, &variable.selectors),
        None => None,
    }
}

/// Adds the fault in the selectors after the name at a place.
fn wrong_selectors<'a>(
    tables: &TextTables<'a>,
    place: usize,
    declared: PlaceType<'a>,
    selectors: &[Selector],
    broken: &mut BrokenRules,
)
    ensures { (text : Declared) → ServesTables tables.now text
        → Collects (wrong_selectors text place (place_type_view declared.entry)
        (selectors_of (map selector_view selectors.now))) broken.old broken.new }
{
    let mut found = Some(declared);
    for selector in selectors {
        found = select(tables, place, found, selector, broken);
    }
}

/// Adds a variable that isn't declared, or a wrong selection.
pub fn wrong_variable(names: &UnitNames, variable: &Variable, broken: &mut BrokenRules)
    ensures { (env : Environment) → Serves names.now env
        → Collects (wrong_variable env (variable_view variable.now)) broken.old broken.new }
{
    let place = variable.name.place;
    match names.type_of_name(&variable.name.name) {
        Some(declared) => {
            wrong_selectors(names.tables, place, declared, &variable.selectors, broken);
        }
        None => broken.add(Broken {
            reason: Reason::Undeclared,
            place,
        }),
    }
}

/// Whether a variable of the type is an instance of a block.
pub fn is_instance(tables: &TextTables, declared: Option<PlaceType>) -> bool
    ensures { (env : Environment) → ServesTables tables.now env.text
        → result ≡ is_instance env (option_map place_type_view declared.entry) }
{
    match declared {
        Some(PlaceType::Simple(SimpleType::Named(name))) => tables.is_block(&name.name),
        _ => false,
    }
}

/// Whether the selectors of a variable of the type lead into an instance.
pub fn passes_instance<'a>(
    tables: &TextTables<'a>,
    declared: Option<PlaceType<'a>>,
    selectors: &[Selector],
) -> bool
    ensures { (env : Environment) → ServesTables tables.now env.text
        → result ≡ passes_instance env (option_map place_type_view declared.entry)
        (selectors_of (map selector_view selectors.now)) }
{
    let mut behind = declared;
    for selector in selectors {
        if is_instance(tables, behind) {
            return true;
        }
        behind = match behind {
            Some(declared) => selected_type(tables, declared, selector),
            None => None,
        };
    }
    false
}
