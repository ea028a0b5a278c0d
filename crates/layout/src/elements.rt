//! The elements of an array, with the initial value of each.

ghost use Rattle.std.specs.Prelude.{◌≡◌, ◌++◌, ℕ, map, option_map, replicate, slice_get, IfOk};
ghost use Rattle.st_types.specs.Initials.{Elements, element_then, elements_of};
ghost use Rattle.st_types.specs.InitialViews.{element_view};
ghost use Rattle.st_meaning.specs.Operators.{natural, number_of};
ghost use Rattle.st_rules.specs.TypeRules.{elements_of_array};
ghost use Rattle.layout.specs.Types as made;
ghost use Rattle.layout.specs.Sites.{element_initial, given, listed_elements};
ghost use Rattle.layout.specs.KeptSites.{element_part, element_parts, given_view, kept, kept_part, part_view, site_view};

use crate::sites::{Part, PartStep, Site};
use st_decl::{bound, elements_of_array};
use st_types::{ArrayType, Initial, InitialElement, Number};
use std::alloc::{AllocError, Global};
use symbols::PlaceType;

/// How many elements a count stands for.
fn times_of(count: &Number) -> u64
    ensures { result ≡ natural (number_of count.now) }
{
    if count.is_negative {
        0
    } else {
        count.magnitude
    }
}

/// Appends the same initial value for each of `count` elements.
fn push_repeated<'a>(
    given: &mut Vec<Option<&'a Initial>>,
    times: u64,
    initial: Option<&'a Initial>,
) -> Result<(), AllocError>
    ensures { IfOk result (λ done. map given_view given.new.items ≡ map given_view given.old.items
        ++ replicate times (given_view initial.entry)) }
{
    for _ in 0..times {
        given.push(initial)?;
    }
    Ok(())
}

/// Appends the initial values that an entry of a list gives its elements.
fn push_listed_element<'a>(
    given: &mut Vec<Option<&'a Initial>>,
    element: &'a InitialElement,
) -> Result<(), AllocError>
    ensures { IfOk result (λ done. (rest : Elements) → map given_view given.new.items ++ listed_elements rest
        ≡ map given_view given.old.items ++ listed_elements (element_then (element_view element.now) rest)) }
{
    match element {
        InitialElement::Single(initial) => {
            given.push(Some(initial))?;
            Ok(())
        }
        InitialElement::Repeated(times, initial) => {
            push_repeated(given, times_of(times), Some(initial))
        }
        InitialElement::Defaults(times) => push_repeated(given, times_of(times), None),
    }
}

/// The initial values that a list gives the elements of an array, from the first on.
fn listed_elements<'a>(
    alloc: Global,
    elements: &'a [InitialElement],
) -> Result<Vec<Option<&'a Initial>>, AllocError>
    ensures { IfOk result (λ given. map given_view given.items
        ≡ listed_elements (elements_of (map element_view elements.now))) }
{
    let mut given = Vec::new(alloc);
    for element in elements {
        push_listed_element(&mut given, element)?;
    }
    Ok(given)
}

/// The initial values that a whole gives the elements of an array, from the first on. Those after the last have none.
fn given_elements<'a>(
    alloc: Global,
    initial: Option<&'a Initial>,
) -> Result<Vec<Option<&'a Initial>>, AllocError>
    ensures { IfOk result (λ listed. (n : ℕ) → given (slice_get (map given_view listed.items) n)
        ≡ element_initial (given_view initial.entry) n) }
{
    match initial {
        Some(Initial::List(_, elements)) => listed_elements(alloc, elements),
        _ => Ok(Vec::new(alloc)),
    }
}

/// The initial value of the element with this number, from 0.
fn element_initial<'a>(listed: &[Option<&'a Initial>], number: usize) -> Option<&'a Initial>
    ensures { given_view result ≡ given (slice_get (map given_view listed.now) number) }
{
    match listed.get(number) {
        Some(initial) => *initial,
        None => None,
    }
}

/// The element of this number, from 0.
fn element_part<'a>(
    whole: Site<'a>,
    array: &'a ArrayType,
    listed: &[Option<&'a Initial>],
    number: usize,
) -> Part<'a>
    ensures { (s : made.Site) → site_view whole.entry ≡ kept s
        → ((n : ℕ) → given (slice_get (map given_view listed.now) n) ≡ element_initial s.initial n)
        → part_view result ≡ kept_part (element_part s array.now number) }
{
    Part {
        step: PartStep::Element(bound(&array.lower) + number as i128),
        site: Site {
            declared: PlaceType::Simple(&array.element),
            initial: element_initial(listed, number),
            retained: whole.retained,
        },
    }
}

/// The elements of an array in order, its subscripts ascending.
pub fn elements_of<'a>(
    alloc: Global,
    whole: Site<'a>,
    array: &'a ArrayType,
) -> Result<Vec<Part<'a>>, AllocError>
    ensures { IfOk result (λ parts. (s : made.Site) → site_view whole.entry ≡ kept s → map part_view parts.items
        ≡ map kept_part (element_parts s array.now 0 (elements_of_array array.now))) }
{
    let listed = given_elements(alloc, whole.initial)?;
    let count = elements_of_array(array);
    let mut parts = Vec::new(alloc);
    for _ in 0..count {
        parts.push(element_part(whole, array, &listed, parts.len()))?;
    }
    Ok(parts)
}
