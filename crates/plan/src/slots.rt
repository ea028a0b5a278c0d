//! The slots of a plan.

ghost use Rattle.std.specs.Prelude.{◌≡◌, length, slice_get, true, IfOk};
ghost use Rattle.plan.specs.SlotPlaces.{are_numbered, merged};

use st_types::Value;
use std::alloc::{AllocError, Global};

/// The content of a slot: a variable or an input of the plant, by its number from 0.
#[derive(Clone, Copy, Debug, PartialEq, Eq)]
pub enum SlotPlace {
    Variable(usize),
    Input(usize),
}

/// The content of a slot by its number; none if there is no such slot.
pub(crate) fn place_numbered(places: &[SlotPlace], number: u16) -> Option<SlotPlace>
    ensures { result ≡ slice_get places.now number }
{
    match places.get(usize::from(number)) {
        Some(place) => Some(*place),
        None => None,
    }
}

/// The values of all slots, from those of the variables and those of the inputs.
pub fn merged_values(
    alloc: Global,
    places: &[SlotPlace],
    variables: &[Value],
    inputs: &[Value],
) -> Result<Vec<Value>, AllocError>
    requires { are_numbered 0 0 places.now (length variables.now) (length inputs.now) ≡ true }
    ensures { IfOk result (λ values. values.items ≡ merged places.now variables.now inputs.now) }
{
    let mut values = Vec::new(alloc);
    for place in places {
        let value = match place {
            SlotPlace::Variable(k) => variables[*k],
            SlotPlace::Input(k) => inputs[*k],
        };
        values.push(value)?;
    }
    Ok(values)
}
