//! The values of a window's slots.

ghost use Rattle.std.specs.Prelude.{◌≡◌, ◌<◌, IfOk, Some, length, slice_get, true};
ghost use Rattle.plan.specs.SlotPlaces.{are_numbered, merged};
ghost use Rattle.slot_code.specs.Quick.{AreIn};
ghost use Rattle.quick_trees.specs.Windows.{IsWindow};

use crate::cells::value_at;
use plan::SlotPlace;
use st_types::Value;
use std::alloc::{AllocError, Global};

/// The value of a slot that is there.
fn value_there(places: &[SlotPlace], values: &[Value], image: &[Value], slot: usize) -> Value
    requires numbered { are_numbered 0 0 places.now (length values.now) (length image.now) ≡ true }
    requires there { slot < length places.now }
    ensures { slice_get (merged places.now values.now image.now) slot ≡ Some result }
{
    match value_at(places, values, image, slot) {
        Some(value) => value,
        None => unreachable!(),
    }
}

/// The slot at an index.
fn slot_at(window: &[usize], index: usize) -> usize
    requires { index < length window.now }
    ensures { slice_get window.now index ≡ Some result }
{
    window[index]
}

/// The values of a window's slots, of these variables and inputs, in its order. It looks at no other slot.
pub fn window_values(
    alloc: Global,
    places: &[SlotPlace],
    values: &[Value],
    image: &[Value],
    window: &[usize],
) -> Result<Vec<Value>, AllocError>
    requires numbered { are_numbered 0 0 places.now (length values.now) (length image.now) ≡ true }
    requires window { IsWindow (length places.now) window.now }
    ensures { IfOk result (λ found. AreIn window.now (merged places.now values.now image.now) found.items) }
{
    let mut found = Vec::with_capacity(alloc, window.len())?;
    for index in 0..window.len() {
        let slot = slot_at(window, index);
        found.push(value_there(places, values, image, slot))?;
    }
    Ok(found)
}
