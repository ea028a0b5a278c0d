//! Selections of variables: members and elements.

ghost use Rattle.std.specs.Prelude.{◌≡◌, ◌∷◌, [], map, option_map};
ghost use Rattle.st_types.specs.Expressions.{selectors_of};
ghost use Rattle.st_types.specs.ExpressionViews.{selector_view};
ghost use Rattle.st_meaning.specs.NameTypes.{Declared, selected_type, type_after_selectors};
ghost use Rattle.symbols.specs.PlaceTypes.{place_type_view};
ghost use Rattle.symbols.specs.Tables.{ServesTables};
ghost use Rattle.st_rules.specs.Environments.{Environment};
ghost use Rattle.st_rules.specs.Roots.{demand_of_type};
ghost use Rattle.st_rules.specs.Typings.{typing_of_type};
ghost use Rattle.st_rules.specs.ExpressionRules.{wrong_selector};
ghost use Rattle.st_rules.specs.Collecting.{Collects};
ghost use Rattle.st_rules.specs.Reasons.{type_word};
ghost use Rattle.st_typing.specs.Selections.{selected, wrong_step};

use crate::operands::{demand_of_typing, is_nothing};
use st_rules::{Broken, BrokenRules, Demand, Purpose, Reason, TypeWord, Typing};
use st_types::{Selector, SimpleType};
use symbols::{PlaceType, TextTables};

/// The type of the part that a selector selects.
pub fn selected_type<'a>(
    tables: &TextTables<'a>,
    declared: PlaceType<'a>,
    selector: &Selector,
) -> Option<PlaceType<'a>>
    ensures { (text : Declared) → ServesTables tables.now text → option_map place_type_view result
        ≡ selected_type text (place_type_view declared.entry) (selector_view selector.now) }
{
    match selector {
        Selector::Member(member) => tables.member_type(declared, &member.name),
        Selector::Subscript(_) => tables.element_type(declared),
    }
}

/// The type of the part that selectors select, one after another.
pub fn type_after_selectors<'a>(
    tables: &TextTables<'a>,
    declared: PlaceType<'a>,
    selectors: &[Selector],
) -> Option<PlaceType<'a>>
    ensures { (text : Declared) → ServesTables tables.now text → option_map place_type_view result
        ≡ type_after_selectors text (selectors_of (map selector_view selectors.now)) (place_type_view declared.entry) }
{
    let mut behind = declared;
    for selector in selectors {
        match selected_type(tables, behind, selector) {
            Some(next) => behind = next,
            None => return None,
        }
    }
    Some(behind)
}

/// A type as its declaration writes it.
pub fn type_word(declared: PlaceType) -> TypeWord
    ensures { result ≡ type_word (place_type_view declared.entry) }
{
    match declared {
        PlaceType::Simple(SimpleType::Elementary(kind, _)) => TypeWord::Elementary(*kind),
        PlaceType::Simple(SimpleType::Named(name)) => TypeWord::Named(name.place),
        PlaceType::Array(_) => TypeWord::Array,
        PlaceType::Standard(kind) => TypeWord::Elementary(kind),
    }
}

/// The fault in a selector that selects nothing of a variable at a place: a member that its type doesn't have (C1), or an
/// element of what isn't an array (C3).
fn wrong_selector(place: usize, declared: PlaceType, selector: &Selector) -> Broken
    ensures { wrong_selector place (place_type_view declared.entry) (selector_view selector.now) ≡ result ∷ [] }
{
    match selector {
        Selector::Member(member) => Broken {
            reason: Reason::NoMember(type_word(declared)),
            place: member.place,
        },
        Selector::Subscript(_) => Broken {
            reason: Reason::NotArray(type_word(declared)),
            place,
        },
    }
}

/// The type of the part that a selector selects of a variable at a place; none if that is unknown. Adds the selector's fault.
pub fn select<'a>(
    tables: &TextTables<'a>,
    place: usize,
    declared: Option<PlaceType<'a>>,
    selector: &Selector,
    broken: &mut BrokenRules,
) -> Option<PlaceType<'a>>
    ensures selected { (text : Declared) → ServesTables tables.now text → option_map place_type_view result
        ≡ selected text (option_map place_type_view declared.entry) (selector_view selector.now) }
    ensures broken { (text : Declared) → ServesTables tables.now text
        → Collects (wrong_step text place (option_map place_type_view declared.entry) (selector_view selector.now))
        broken.old broken.new }
{
    let declared = declared?;
    let found = selected_type(tables, declared, selector);
    if found.is_none() && !is_nothing(tables.typing_of_type(declared)) {
        broken.add(wrong_selector(place, declared, selector));
    }
    found
}

/// The typing of the part that a variable selects. If that is unknown there is none.
pub fn typing_of_place(tables: &TextTables, declared: Option<PlaceType>) -> Typing
    ensures { (text : Declared) → ServesTables tables.now text
        → result ≡ typing_of_type text (option_map place_type_view declared.entry) }
{
    match declared {
        Some(declared) => tables.typing_of_type(declared),
        None => Typing::Nothing,
    }
}

/// The demand of a place of this type on a value.
pub fn demand_of_type(tables: &TextTables, purpose: Purpose, declared: Option<PlaceType>) -> Demand
    ensures { (env : Environment) → ServesTables tables.now env.text
        → result ≡ demand_of_type env purpose (option_map place_type_view declared.entry) }
{
    demand_of_typing(purpose, typing_of_place(tables, declared))
}
