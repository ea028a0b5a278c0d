//! Lists of more elements than their arrays have.

ghost use Rattle.std.specs.Prelude.{◌≡◌, ◌<◌, ◌^◌, map};
ghost use Rattle.std.specs.List.{flat_map};
ghost use Rattle.st_types.specs.Initials.{elements_of};
ghost use Rattle.st_types.specs.InitialViews.{element_view};
ghost use Rattle.st_meaning.specs.NameTypes.{Declared};
ghost use Rattle.st_meaning.specs.Operators.{number_of, natural};
ghost use Rattle.st_rules.specs.InitialRules.{count_of_element, count_of_elements, too_many_elements, too_long};
ghost use Rattle.st_rules.specs.TypeRules.{elements_of_array};
ghost use Rattle.st_rules.specs.Collecting.{Collects};
ghost use Rattle.symbols.specs.Texts.{ServesText};
ghost use Rattle.st_decl.specs.StartViews.{start_view};

use crate::bounds::elements_of_array;
use crate::started::array_at;
use crate::starts::Start;
use st_rules::{BrokenRules, Reason};
use st_types::{ArrayType, Initial, InitialElement, Number};
use symbols::TextNames;

/// A number of elements; a negative one counts as 0.
fn natural(number: &Number) -> u128
    ensures value { result ≡ natural (number_of number.now) }
    ensures small { result < 2 ^ 64 }
{
    let magnitude = number.magnitude;
    if number.is_negative {
        0
    } else {
        magnitude as u128
    }
}

/// How many elements of a list a part of it stands for.
fn count_of(element: &InitialElement) -> u128
    ensures value { result ≡ count_of_element (element_view element.now) }
    ensures small { result < 2 ^ 64 }
{
    match element {
        InitialElement::Single(_) => 1,
        InitialElement::Repeated(count, _) => natural(count),
        InitialElement::Defaults(count) => natural(count),
    }
}

/// How many elements a list stands for.
fn count_of_elements(elements: &[InitialElement]) -> u128
    ensures { result ≡ count_of_elements (elements_of (map element_view elements.now)) }
{
    let mut count = 0;
    for element in elements {
        count += count_of(element);
    }
    count
}

/// Adds a list at a place for an array if it stands for more elements.
fn too_long_for(
    array: &ArrayType,
    place: usize,
    elements: &[InitialElement],
    broken: &mut BrokenRules,
)
    ensures { Collects (too_many_elements (count_of_elements (elements_of (map element_view elements.now)))
        (elements_of_array array.now) place) broken.old broken.new }
{
    let (count, room) = (count_of_elements(elements), elements_of_array(array));
    broken.add_in_case(room < count, Reason::LongList(count, room), place);
}

fn too_long<'a>(names: &TextNames<'a>, start: Start<'a>, broken: &mut BrokenRules)
    ensures { (text : Declared) → ServesText names.now text
        → Collects (too_long text (start_view start.entry)) broken.old broken.new }
{
    match start.initial {
        Initial::Constant(_) => {}
        Initial::List(place, elements) => {
            if let Some(array) = array_at(names, start.declared) {
                too_long_for(array, *place, elements, broken);
            }
        }
        Initial::Structure(_, _) => {}
    }
}

/// Adds lists that have more elements than their arrays (C8).
pub fn long_lists<'a>(names: &TextNames<'a>, starts: &[Start<'a>], broken: &mut BrokenRules)
    ensures { (text : Declared) → ServesText names.now text
        → Collects (flat_map (too_long text) (map start_view starts.now)) broken.old broken.new }
{
    for start in starts {
        too_long(names, *start, broken);
    }
}
