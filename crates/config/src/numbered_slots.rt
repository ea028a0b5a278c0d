//! The slots of a plan.

ghost use Rattle.std.specs.Prelude.{◌≡◌, IfOk};
ghost use Rattle.plan.specs.NumberedSlots.{numbered_from};

use layout::Layout;
use plan::SlotPlace;
use std::alloc::{AllocError, Global};

/// The variables and inputs in the slots of a layout, each numbered in its order.
pub fn numbered_slots(alloc: Global, layout: &Layout) -> Result<Vec<SlotPlace>, AllocError>
    ensures { IfOk result (λ places. places.items ≡ numbered_from 0 0 layout.now.slots) }
{
    let mut places = Vec::new(alloc);
    let mut variables = 0;
    let mut inputs = 0;
    for facts in layout.facts() {
        if facts.is_input {
            places.push(SlotPlace::Input(inputs))?;
            inputs += 1;
        } else {
            places.push(SlotPlace::Variable(variables))?;
            variables += 1;
        }
    }
    Ok(places)
}
