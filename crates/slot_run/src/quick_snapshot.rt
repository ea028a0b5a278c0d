//! The start of a run of quick code.

ghost use Rattle.std.specs.Prelude.{◌≡◌};
ghost use Rattle.slot_code.specs.Quick.{AreTyped};
ghost use Rattle.slot_code.specs.Windows.{window_of};

use slot_code::Code;
use st_types::{Activation, Value};
use std::sync::Arc;

/// The code of a program, the activation that it serves, and the values of only those slots that the code names, which are
/// of their types.
#[derive(Drop)]
pub struct QuickSnapshot {
    pub code: Arc<Code>,
    pub activation: Activation,
    /// The moment of the activation's row, in milliseconds.
    pub moment: u64,
    /// How many ticks the run may take.
    pub budget: u32,
    /// The values of the slots of the code's window, in its order, those of inputs among them.
    pub values: Vec<Value>,
    ghost typed: { AreTyped code.value.kinds.value.items (window_of code.value) values.items },
}

impl QuickSnapshot {
    /// A snapshot of the values that the code names, for an activation of it.
    pub fn new(
        code: Arc<Code>,
        activation: Activation,
        moment: u64,
        budget: u32,
        values: Vec<Value>,
    ) -> QuickSnapshot
        requires typed { AreTyped code.value.kinds.value.items (window_of code.value) values.items }
        ensures code { result.code.value ≡ code.value }
        ensures activation { result.activation ≡ activation }
        ensures moment { result.moment ≡ moment }
        ensures budget { result.budget ≡ budget }
        ensures values { result.values.items ≡ values.items }
    {
        QuickSnapshot {
            code,
            activation,
            moment,
            budget,
            values,
        }
    }
}
