//! All initial values of a text, as one list: those inside others too, each with the type of its target.

ghost use Rattle.std.specs.Prelude.{◌≡◌, ◌++◌, ◌∷◌, map, option_map, Some, if◌then◌else◌, [], IfOk};
ghost use Rattle.std.specs.List.{flat_map};
ghost use Rattle.st_types.specs.Initials.{elements_of, members_of};
ghost use Rattle.st_types.specs.InitialViews.{initial_view, element_view, member_view};
ghost use Rattle.st_meaning.specs.NameTypes.{Declared, unit_named};
ghost use Rattle.st_rules.specs.Environments.{is_block_type, is_own_block};
ghost use Rattle.st_rules.specs.InitialRules.{start, starts_below, starts_of_element, starts_of_elements};
ghost use Rattle.st_rules.specs.InitialRules.{starts_of_members, starts_of, starts_of_declaring};
ghost use Rattle.symbols.specs.Texts.{ServesText};
ghost use Rattle.symbols.specs.Fields.{ServesFields};
ghost use Rattle.st_decl.specs.DeclaringViews.{declaring_view};
ghost use Rattle.symbols.specs.PlaceTypes.{place_type_view};
ghost use Rattle.st_decl.specs.StartViews.{start_view};

use crate::declarings::Declaring;
use crate::standard::is_block;
use crate::started::{element_of, field_of};
use st_types::{
    Initial, InitialElement, InitialMember, Name, SimpleType, Unit, UnitSort, VariableType,
};
use std::alloc::{AllocError, Global};
use symbols::{FieldNames, PlaceType, TextNames, place_type};

/// An initial value, or one inside another, with the type of its target.
#[derive(Clone, Copy)]
pub struct Start<'a> {
    pub declared: Option<PlaceType<'a>>,
    pub initial: &'a Initial,
}

/// Appends an initial value and those inside it.
#[cycle(push_start)]
fn push_start<'a>(
    starts: &mut Vec<Start<'a>>,
    names: &TextNames<'a>,
    fields: &FieldNames<'a>,
    declared: Option<PlaceType<'a>>,
    initial: &'a Initial,
) -> Result<(), AllocError>
    ensures { IfOk result (λ done. (text : Declared) → ServesText names.now text → ServesFields fields.now text
        → map start_view starts.new.items ≡ map start_view starts.old.items
        ++ start (option_map place_type_view declared.entry) (initial_view initial.now)
        ∷ starts_below text (option_map place_type_view declared.entry) (initial_view initial.now)) }
{
    starts.push(Start { declared, initial })?;
    match initial {
        Initial::Constant(_) => Ok(()),
        Initial::List(_, elements) => {
            push_elements(starts, names, fields, element_of(names, declared), elements)
        }
        Initial::Structure(_, members) => push_members(starts, names, fields, declared, members),
    }
}

#[cycle(push_start)]
fn push_element<'a>(
    starts: &mut Vec<Start<'a>>,
    names: &TextNames<'a>,
    fields: &FieldNames<'a>,
    declared: Option<PlaceType<'a>>,
    element: &'a InitialElement,
) -> Result<(), AllocError>
    ensures { IfOk result (λ done. (text : Declared) → ServesText names.now text → ServesFields fields.now text
        → map start_view starts.new.items ≡ map start_view starts.old.items
        ++ starts_of_element text (option_map place_type_view declared.entry) (element_view element.now)) }
{
    match element {
        InitialElement::Single(value) => push_start(starts, names, fields, declared, value),
        InitialElement::Repeated(_, value) => push_start(starts, names, fields, declared, value),
        InitialElement::Defaults(_) => Ok(()),
    }
}

#[cycle(push_start)]
fn push_elements<'a>(
    starts: &mut Vec<Start<'a>>,
    names: &TextNames<'a>,
    fields: &FieldNames<'a>,
    declared: Option<PlaceType<'a>>,
    elements: &'a [InitialElement],
) -> Result<(), AllocError>
    ensures { IfOk result (λ done. (text : Declared) → ServesText names.now text → ServesFields fields.now text
        → map start_view starts.new.items ≡ map start_view starts.old.items
        ++ starts_of_elements text (option_map place_type_view declared.entry) (elements_of (map element_view elements.now))) }
{
    for element in elements {
        push_element(starts, names, fields, declared, element)?;
    }
    Ok(())
}

#[cycle(push_start)]
fn push_members<'a>(
    starts: &mut Vec<Start<'a>>,
    names: &TextNames<'a>,
    fields: &FieldNames<'a>,
    declared: Option<PlaceType<'a>>,
    members: &'a [InitialMember],
) -> Result<(), AllocError>
    ensures { IfOk result (λ done. (text : Declared) → ServesText names.now text → ServesFields fields.now text
        → map start_view starts.new.items ≡ map start_view starts.old.items
        ++ starts_of_members text (option_map place_type_view declared.entry) (members_of (map member_view members.now))) }
{
    for member in members {
        let field = field_of(fields, declared, &member.name.name);
        push_start(starts, names, fields, field, &member.value)?;
    }
    Ok(())
}

fn is_own_block(names: &TextNames, name: &Name) -> bool
    ensures { (text : Declared) → ServesText names.now text → result ≡ is_own_block (unit_named text.units name.now) }
{
    match names.unit_named(name) {
        Some(unit) => matches!(unit.sort, UnitSort::FunctionBlock),
        None => false,
    }
}

/// Whether variables of a type are instances of blocks.
fn is_block_type(names: &TextNames, declared: &VariableType) -> bool
    ensures { (text : Declared) → ServesText names.now text → result ≡ is_block_type text declared.now }
{
    match declared {
        VariableType::Array(_) => false,
        VariableType::Simple(SimpleType::Elementary(_, _)) => false,
        VariableType::Simple(SimpleType::Named(name)) => {
            is_block(&name.name) || is_own_block(names, &name.name)
        }
    }
}

/// Those of a declaration; an instance has none.
fn push_declaring<'a>(
    starts: &mut Vec<Start<'a>>,
    names: &TextNames<'a>,
    fields: &FieldNames<'a>,
    declaring: Declaring<'a>,
) -> Result<(), AllocError>
    ensures { IfOk result (λ done. (text : Declared) → ServesText names.now text → ServesFields fields.now text
        → map start_view starts.new.items ≡ map start_view starts.old.items
        ++ starts_of_declaring text (declaring_view declaring.entry)) }
{
    match declaring.initial {
        Some(initial) => {
            if is_block_type(names, declaring.declared) {
                Ok(())
            } else {
                let declared = Some(place_type(declaring.declared));
                push_start(starts, names, fields, declared, initial)
            }
        }
        None => Ok(()),
    }
}

/// All initial values of these declarations, with those inside them.
pub fn starts_of<'a>(
    alloc: Global,
    names: &TextNames<'a>,
    fields: &FieldNames<'a>,
    declarings: &[Declaring<'a>],
) -> Result<Vec<Start<'a>>, AllocError>
    ensures { IfOk result (λ starts. (text : Declared) → ServesText names.now text → ServesFields fields.now text
        → map start_view starts.items ≡ flat_map (starts_of_declaring text) (map declaring_view declarings.now)) }
{
    let mut starts = Vec::new(alloc);
    for declaring in declarings {
        push_declaring(&mut starts, names, fields, *declaring)?;
    }
    Ok(starts)
}
