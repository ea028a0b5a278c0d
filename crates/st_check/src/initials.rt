//! Initial values, by the types of the variables and fields that get them (C1, C3, C4).

ghost use Rattle.std.specs.Prelude.{◌≡◌, ◌||◌, map, option_map, is_some, if◌then◌else◌};
ghost use Rattle.std.specs.List.{flat_map};
ghost use Rattle.st_types.specs.Initials.{elements_of, members_of};
ghost use Rattle.st_types.specs.InitialViews.{element_view, member_view};
ghost use Rattle.st_meaning.specs.NameTypes.{Declared};
ghost use Rattle.st_rules.specs.Collecting.{Collects};
ghost use Rattle.st_rules.specs.ExpressionRules.{wrong_literal};
ghost use Rattle.st_rules.specs.InitialRules.{array_in, definition_at, is_structure, is_unknown, unread_value};
ghost use Rattle.st_rules.specs.InitialRules.{wrong_constant, wrong_count, wrong_counts, wrong_fields, wrong_list};
ghost use Rattle.st_rules.specs.InitialRules.{wrong_structure, wrong_start};
ghost use Rattle.st_rules.specs.Typings.{is_nothing, kind_of, typing_of_literal, typing_of_reading};
ghost use Rattle.symbols.specs.Enumerated.{reading_view};
ghost use Rattle.symbols.specs.Fields.{ServesFields};
ghost use Rattle.symbols.specs.PlaceTypes.{place_type_view};
ghost use Rattle.symbols.specs.Tables.{ServesTables};
ghost use Rattle.symbols.specs.Texts.{ServesText};
ghost use Rattle.st_decl.specs.StartViews.{start_view};

use st_decl::{Start, array_at, field_of};
use st_rules::{BrokenRules, Purpose, Reason, Typing};
use st_types::{Initial, InitialElement, InitialMember, Kind, Literal, SimpleType, TypeDefinition};
use st_typing::{
    allows, demand_of_typing, is_nothing, kind_of, place_of_literal, settled, type_word,
    typing_of_place, wrong_number, wrong_reading,
};
use symbols::{FieldNames, PlaceType, Reading, TextNames, TextTables};

fn typing_of_reading(reading: Reading) -> Typing
    ensures { result ≡ typing_of_reading (reading_view reading) }
{
    match reading {
        Reading::Value(member) => Typing::Elementary(member.kind),
        Reading::Unknown => Typing::Nothing,
        Reading::Ambiguous => Typing::Nothing,
    }
}

fn typing_of_literal(tables: &TextTables, literal: &Literal) -> Typing
    ensures { (text : Declared) → ServesTables tables.now text → result ≡ typing_of_literal text literal.now }
{
    match literal {
        Literal::Number(number) => match number.written {
            Some(kind) => Typing::Elementary(kind),
            None => Typing::Untyped,
        },
        Literal::Truth(_, _) => Typing::Elementary(Kind::Bool),
        Literal::Duration(_, _) => Typing::Elementary(Kind::Time),
        Literal::Enumerated(value) => typing_of_reading(tables.reading_written(value)),
    }
}

/// Adds a name that stands for no value of an enumerated type, if the type that it is for is not known.
fn unread_value(tables: &TextTables, literal: &Literal, broken: &mut BrokenRules)
    ensures { (text : Declared) → ServesTables tables.now text
        → Collects (unread_value text literal.now) broken.old broken.new }
{
    match literal {
        Literal::Enumerated(value) => {
            wrong_reading(value.place, tables.reading_written(value), broken);
        }
        _ => {}
    }
}

/// Adds a number outside its type, or a name that stands for no value of an enumerated type.
fn wrong_literal(
    tables: &TextTables,
    offered: Option<Kind>,
    literal: &Literal,
    broken: &mut BrokenRules,
)
    ensures { (text : Declared) → ServesTables tables.now text
        → Collects (wrong_literal text offered literal.now) broken.old broken.new }
{
    match literal {
        Literal::Number(number) => wrong_number(offered, number, broken),
        Literal::Truth(_, _) => {}
        Literal::Duration(_, _) => {}
        Literal::Enumerated(value) => {
            wrong_reading(value.place, tables.reading_written(value), broken);
        }
    }
}

/// Adds the fault in a literal itself, for this typing.
fn wrong_in_constant(
    tables: &TextTables,
    typing: Typing,
    literal: &Literal,
    broken: &mut BrokenRules,
)
    ensures { (text : Declared) → ServesTables tables.now text
        → Collects (if is_nothing typing then unread_value text literal.now
        else wrong_literal text (kind_of typing) literal.now) broken.old broken.new }
{
    if is_nothing(typing) {
        unread_value(tables, literal, broken);
    } else {
        wrong_literal(tables, kind_of(typing), literal, broken);
    }
}

/// Adds the faults in a constant: it isn't of its variable's type, or is wrong in itself.
fn wrong_constant(tables: &TextTables, typing: Typing, literal: &Literal, broken: &mut BrokenRules)
    ensures { (text : Declared) → ServesTables tables.now text
        → Collects (wrong_constant text typing literal.now) broken.old broken.new }
{
    let demand = demand_of_typing(Purpose::Initial, typing);
    let given = typing_of_literal(tables, literal);
    broken.add_unless(
        allows(demand, settled(kind_of(typing), given)),
        Reason::Mismatch(demand, given),
        place_of_literal(literal),
    );
    wrong_in_constant(tables, typing, literal, broken);
}

/// Whether the type is not known, so that nothing is asked of a value.
fn is_unknown(tables: &TextTables, declared: Option<PlaceType>) -> bool
    ensures { (text : Declared) → ServesTables tables.now text
        → result ≡ is_unknown text (option_map place_type_view declared.entry) }
{
    is_nothing(typing_of_place(tables, declared))
}

fn is_array<'a>(names: &TextNames<'a>, declared: Option<PlaceType<'a>>) -> bool
    ensures { (text : Declared) → ServesText names.now text
        → result ≡ is_some (array_in (definition_at text (option_map place_type_view declared.entry))) }
{
    array_at(names, declared).is_some()
}

fn is_structure(names: &TextNames, declared: Option<PlaceType>) -> bool
    ensures { (text : Declared) → ServesText names.now text
        → result ≡ is_structure (definition_at text (option_map place_type_view declared.entry)) }
{
    match declared {
        Some(PlaceType::Simple(SimpleType::Named(name))) => match names.type_named(&name.name) {
            Some(TypeDefinition::Array(_)) => false,
            Some(TypeDefinition::Structure(_)) => true,
            Some(TypeDefinition::Enumeration(_)) => false,
            None => false,
        },
        _ => false,
    }
}

/// Adds a count outside its type.
fn wrong_count(element: &InitialElement, broken: &mut BrokenRules)
    ensures { Collects (wrong_count (element_view element.now)) broken.old broken.new }
{
    match element {
        InitialElement::Single(_) => {}
        InitialElement::Repeated(count, _) => wrong_number(None, count, broken),
        InitialElement::Defaults(count) => wrong_number(None, count, broken),
    }
}

fn wrong_counts(elements: &[InitialElement], broken: &mut BrokenRules)
    ensures { Collects (wrong_counts (elements_of (map element_view elements.now))) broken.old broken.new }
{
    for element in elements {
        wrong_count(element, broken);
    }
}

/// Adds the fields that a structure of the type doesn't have.
fn wrong_fields<'a>(
    fields: &FieldNames<'a>,
    declared: PlaceType<'a>,
    members: &[InitialMember],
    broken: &mut BrokenRules,
)
    ensures { (text : Declared) → ServesFields fields.now text
        → Collects (wrong_fields text (place_type_view declared.entry) (members_of (map member_view members.now)))
        broken.old broken.new }
{
    for member in members {
        let is_field = field_of(fields, Some(declared), &member.name.name).is_some();
        let reason = Reason::NoMember(type_word(declared));
        broken.add_unless(is_field, reason, member.name.place);
    }
}

/// Whether a list may be given: for an array, and where the type is not known.
fn takes_list<'a>(
    names: &TextNames<'a>,
    tables: &TextTables<'a>,
    declared: Option<PlaceType<'a>>,
) -> bool
    ensures { (text : Declared) → ServesText names.now text → ServesTables tables.now text
        → result ≡ (is_unknown text (option_map place_type_view declared.entry)
        || is_some (array_in (definition_at text (option_map place_type_view declared.entry)))) }
{
    is_unknown(tables, declared) || is_array(names, declared)
}

/// Adds a list for what isn't an array.
fn wrong_list<'a>(
    names: &TextNames<'a>,
    tables: &TextTables<'a>,
    declared: Option<PlaceType<'a>>,
    place: usize,
    broken: &mut BrokenRules,
)
    ensures { (text : Declared) → ServesText names.now text → ServesTables tables.now text
        → Collects (wrong_list text (option_map place_type_view declared.entry) place) broken.old broken.new }
{
    if let Some(given) = declared {
        broken.add_unless(
            takes_list(names, tables, declared),
            Reason::ListForOther(type_word(given)),
            place,
        );
    }
}

/// Adds fields for what isn't a structure, or the fields that a structure doesn't have.
fn wrong_structure<'a>(
    names: &TextNames<'a>,
    tables: &TextTables<'a>,
    fields: &FieldNames<'a>,
    declared: Option<PlaceType<'a>>,
    place: usize,
    members: &[InitialMember],
    broken: &mut BrokenRules,
)
    ensures { (text : Declared) → ServesText names.now text → ServesTables tables.now text
        → ServesFields fields.now text
        → Collects (wrong_structure text (option_map place_type_view declared.entry) place
        (members_of (map member_view members.now))) broken.old broken.new }
{
    let Some(given) = declared else {
        return;
    };
    if is_structure(names, declared) {
        wrong_fields(fields, given, members, broken);
    } else {
        let reason = Reason::FieldsForOther(type_word(given));
        broken.add_unless(is_unknown(tables, declared), reason, place);
    }
}

/// Adds the faults in an initial value for a type. Values inside it are not looked at.
fn wrong_start<'a>(
    names: &TextNames<'a>,
    tables: &TextTables<'a>,
    fields: &FieldNames<'a>,
    start: Start<'a>,
    broken: &mut BrokenRules,
)
    ensures { (text : Declared) → ServesText names.now text → ServesTables tables.now text
        → ServesFields fields.now text
        → Collects (wrong_start text (start_view start.entry)) broken.old broken.new }
{
    let declared = start.declared;
    match start.initial {
        Initial::Constant(literal) => {
            wrong_constant(tables, typing_of_place(tables, declared), literal, broken);
        }
        Initial::List(place, elements) => {
            wrong_list(names, tables, declared, *place, broken);
            wrong_counts(elements, broken);
        }
        Initial::Structure(place, members) => {
            wrong_structure(names, tables, fields, declared, *place, members, broken);
        }
    }
}

/// Adds the faults in these initial values, none of them looked into.
pub fn wrong_starts_of<'a>(
    names: &TextNames<'a>,
    tables: &TextTables<'a>,
    fields: &FieldNames<'a>,
    starts: &[Start<'a>],
    broken: &mut BrokenRules,
)
    ensures { (text : Declared) → ServesText names.now text → ServesTables tables.now text
        → ServesFields fields.now text
        → Collects (flat_map (wrong_start text) (map start_view starts.now)) broken.old broken.new }
{
    for start in starts {
        wrong_start(names, tables, fields, *start, broken);
    }
}
