//! The start of a run.

ghost use Rattle.std.specs.Prelude.{◌≡◌, map};

use slot_code::Code;
use st_types::{Activation, Value};
use std::sync::Arc;

/// The code of a program, the activation that it serves, and the values of all slots, which are of the code's types.
#[derive(Drop)]
pub struct Snapshot {
    pub code: Arc<Code>,
    pub activation: Activation,
    /// The moment of the activation's row, in milliseconds.
    pub moment: u64,
    /// How many ticks the run may take.
    pub budget: u32,
    /// The values by their slots, those of the inputs among them.
    pub slots: Vec<Value>,
    ghost typed: { map (λ v. v.kind) slots.items ≡ code.value.kinds.value.items },
}

impl Snapshot {
    /// A snapshot of the values of all slots for an activation of the code.
    pub fn new(
        code: Arc<Code>,
        activation: Activation,
        moment: u64,
        budget: u32,
        slots: Vec<Value>,
    ) -> Snapshot
        requires typed { map (λ v. v.kind) slots.items ≡ code.value.kinds.value.items }
        ensures code { result.code.value ≡ code.value }
        ensures activation { result.activation ≡ activation }
        ensures moment { result.moment ≡ moment }
        ensures budget { result.budget ≡ budget }
        ensures slots { result.slots.items ≡ slots.items }
    {
        Snapshot {
            code,
            activation,
            moment,
            budget,
            slots,
        }
    }
}
