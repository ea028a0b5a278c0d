//! The types of slots.

ghost use Rattle.std.specs.Prelude.{◌≡◌, IfOk, map};

use layout::SlotFacts;
use st_types::Kind;
use std::alloc::{AllocError, Global};

/// The types of the slots of a layout, in order.
pub fn kinds_of(alloc: Global, slots: &[SlotFacts]) -> Result<Vec<Kind>, AllocError>
    ensures { IfOk result (λ kinds. kinds.items ≡ map (λ s. s.initial.kind) slots.now) }
{
    let mut kinds = Vec::new(alloc);
    for slot in slots {
        kinds.push(slot.initial.kind())?;
    }
    Ok(kinds)
}
