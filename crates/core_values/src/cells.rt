//! Slots of variables and inputs.

ghost use Rattle.std.specs.Prelude.{◌≡◌, length, map, slice_get, true};
ghost use Rattle.st_meaning.specs.Slots.{agrees, is_value as is_value_of};
ghost use Rattle.plan.specs.SlotPlaces.{are_numbered, merged, value_at_place, written_variables};
ghost use Rattle.slot_memory.specs.Cells.{cell_view};

use plan::SlotPlace;
use slot_memory::Cell;
use st_types::Value;

fn item(values: &[Value], number: usize) -> Option<Value>
    ensures { result ≡ slice_get values.now number }
{
    match values.get(number) {
        Some(value) => Some(*value),
        None => None,
    }
}

/// The value in a place, of these variables and inputs.
fn value_in(values: &[Value], image: &[Value], place: Option<SlotPlace>) -> Option<Value>
    ensures { result ≡ value_at_place values.now image.now place }
{
    match place {
        Some(SlotPlace::Variable(number)) => item(values, number),
        Some(SlotPlace::Input(number)) => item(image, number),
        None => None,
    }
}

fn place_at(places: &[SlotPlace], slot: usize) -> Option<SlotPlace>
    ensures { result ≡ slice_get places.now slot }
{
    match places.get(slot) {
        Some(place) => Some(*place),
        None => None,
    }
}

/// The value of a slot.
pub(crate) fn value_at(
    places: &[SlotPlace],
    values: &[Value],
    image: &[Value],
    slot: usize,
) -> Option<Value>
    requires { are_numbered 0 0 places.now (length values.now) (length image.now) ≡ true }
    ensures { result ≡ slice_get (merged places.now values.now image.now) slot }
{
    value_in(values, image, place_at(places, slot))
}

/// Whether there is a value, and it is this one.
fn is_value(found: Option<Value>, value: Value) -> bool
    ensures { result ≡ is_value_of found value }
{
    match found {
        Some(found) => found.is(value),
        None => false,
    }
}

/// Whether each cell's value is in its slot.
pub fn are_current(places: &[SlotPlace], values: &[Value], image: &[Value], cells: &[Cell]) -> bool
    requires { are_numbered 0 0 places.now (length values.now) (length image.now) ≡ true }
    ensures { result ≡ agrees (merged places.now values.now image.now) (map cell_view cells.now) }
{
    for cell in cells {
        if !is_value(value_at(places, values, image, cell.slot), cell.value) {
            return false;
        }
    }
    true
}

/// Writes each cell's value to its variable. A cell of another slot changes nothing.
pub fn write_all(places: &[SlotPlace], values: &mut Vec<Value>, cells: &[Cell])
    ensures { values.new.items ≡ written_variables places.now values.old.items (map cell_view cells.now) }
{
    for cell in cells {
        if let Some(SlotPlace::Variable(number)) = place_at(places, cell.slot) {
            if number < values.len() {
                values[number] = cell.value;
            }
        }
    }
}
