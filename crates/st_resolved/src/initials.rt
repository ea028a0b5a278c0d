//! Initial values.

ghost use Rattle.std.specs.Prelude.{◌≡◌, IfOk, map, option_map};
ghost use Rattle.st_types.specs.InitialViews.{initial_view, element_view, member_view};
ghost use Rattle.st_meaning.specs.NameTypes.{Declared};
ghost use Rattle.st_meaning.specs.ResolvedUnits.{element_of, resolved_initial, resolved_element};
ghost use Rattle.symbols.specs.Fields.{ServesFields};
ghost use Rattle.symbols.specs.PlaceTypes.{place_type_view};
ghost use Rattle.symbols.specs.Tables.{ServesTables};
ghost use Rattle.st_resolved.specs.Arms.{resolved_member};

use crate::kinds::kind_there;
use crate::literals::{taking_literal, taking_number};
use st_decl::field_of;
use st_types::{Initial, InitialElement, InitialMember};
use st_typing::taken_kind;
use std::alloc::{AllocError, Global};
use symbols::{FieldNames, PlaceType, TextTables};

/// The type of an array's elements.
fn element_of<'a>(tables: &TextTables<'a>, declared: Option<PlaceType<'a>>) -> Option<PlaceType<'a>>
    ensures { (text : Declared) → ServesTables tables.now text → option_map place_type_view result
        ≡ element_of text (option_map place_type_view declared.entry) }
{
    match declared {
        Some(declared) => tables.element_type(declared),
        None => None,
    }
}

/// An initial value of a variable of a type.
#[cycle(resolved_initial)]
#[tactic(auto, using(crate::proofs::ListLemmas::elements_resolved, crate::proofs::ListLemmas::members_resolved))]
pub fn resolved_initial<'a>(
    alloc: Global,
    tables: &TextTables<'a>,
    fields: &FieldNames<'a>,
    declared: Option<PlaceType<'a>>,
    initial: &Initial,
) -> Result<Initial, AllocError>
    ensures { IfOk result (λ i. (text : Declared) → ServesTables tables.now text → ServesFields fields.now text
        → initial_view i
        ≡ resolved_initial text (option_map place_type_view declared.entry) (initial_view initial.now)) }
{
    match initial {
        Initial::Constant(literal) => {
            let taken = taken_kind(kind_there(tables, declared));
            Ok(Initial::constant(taking_literal(alloc, tables, taken, literal)?))
        }
        Initial::List(place, elements) => {
            let element = element_of(tables, declared);
            let elements = resolved_elements(alloc, tables, fields, element, elements)?;
            Ok(Initial::list(*place, elements))
        }
        Initial::Structure(place, members) => {
            let members = resolved_members(alloc, tables, fields, declared, members)?;
            Ok(Initial::structure(*place, members))
        }
    }
}

/// Elements of an array of elements of a type; a count that has no type is a LINT.
#[cycle(resolved_initial)]
fn resolved_element<'a>(
    alloc: Global,
    tables: &TextTables<'a>,
    fields: &FieldNames<'a>,
    declared: Option<PlaceType<'a>>,
    element: &InitialElement,
) -> Result<InitialElement, AllocError>
    ensures { IfOk result (λ e. (text : Declared) → ServesTables tables.now text → ServesFields fields.now text
        → element_view e
        ≡ resolved_element text (option_map place_type_view declared.entry) (element_view element.now)) }
{
    match element {
        InitialElement::Single(value) => {
            let value = resolved_initial(alloc, tables, fields, declared, value)?;
            Ok(InitialElement::single(value))
        }
        InitialElement::Repeated(count, value) => {
            let value = resolved_initial(alloc, tables, fields, declared, value)?;
            let count = taking_number(taken_kind(None), *count);
            Ok(InitialElement::repeated(count, value))
        }
        InitialElement::Defaults(count) => {
            let count = taking_number(taken_kind(None), *count);
            Ok(InitialElement::defaults(count))
        }
    }
}

#[cycle(resolved_initial)]
fn resolved_elements<'a>(
    alloc: Global,
    tables: &TextTables<'a>,
    fields: &FieldNames<'a>,
    declared: Option<PlaceType<'a>>,
    elements: &[InitialElement],
) -> Result<Vec<InitialElement>, AllocError>
    ensures { IfOk result (λ list. (text : Declared) → ServesTables tables.now text → ServesFields fields.now text
        → map element_view list.items
        ≡ map (resolved_element text (option_map place_type_view declared.entry)) (map element_view elements.now)) }
{
    let mut resolved = Vec::new(alloc);
    for element in elements {
        resolved.push(resolved_element(alloc, tables, fields, declared, element)?)?;
    }
    Ok(resolved)
}

/// The fields of a structure of a type.
#[cycle(resolved_initial)]
fn resolved_members<'a>(
    alloc: Global,
    tables: &TextTables<'a>,
    fields: &FieldNames<'a>,
    declared: Option<PlaceType<'a>>,
    members: &[InitialMember],
) -> Result<Vec<InitialMember>, AllocError>
    ensures { IfOk result (λ list. (text : Declared) → ServesTables tables.now text → ServesFields fields.now text
        → map member_view list.items
        ≡ map (resolved_member text (option_map place_type_view declared.entry)) (map member_view members.now)) }
{
    let mut resolved = Vec::new(alloc);
    for member in members {
        let field = field_of(fields, declared, &member.name.name);
        let value = resolved_initial(alloc, tables, fields, field, &member.value)?;
        let name = member.name.copied(alloc)?;
        resolved.push(InitialMember { name, value })?;
    }
    Ok(resolved)
}
