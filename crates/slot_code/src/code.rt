//! The code of a program.

ghost use Rattle.std.specs.Option.{ForSome};
ghost use Rattle.std.specs.Prelude.{◌≡◌, ◌≤◌, ◌+◌, length};
ghost use Rattle.machine_code.specs.declared.limits.TheConstants.{MAX_INSTRUCTIONS, MAX_MEMORY};

use crate::program::QuickProgram;
use machine_code::Instr;
use st_types::Kind;
use std::sync::Arc;

/// The code of a program: instructions over the slots of a layout, and after these over values for functions.
pub struct Code {
    pub instrs: Arc<Vec<Instr>>,
    /// The types of the layout's slots in their order, those of inputs among them. All codes of a plan share them.
    pub kinds: Arc<Vec<Kind>>,
    /// How many values its memory has after those of the slots, for the variables of functions.
    pub extra: usize,
    /// Quick code of the same program, if there is some: a run begins with it.
    pub quick: Option<QuickProgram>,
    ghost short: { length instrs.value.items ≤ MAX_INSTRUCTIONS },
    ghost numbered: { length kinds.value.items + extra ≤ MAX_MEMORY },
    ghost stands: { ForSome quick (λ q. (q.instrs ≡ instrs.value.items) × (q.kinds ≡ kinds.value.items)
        × (q.extra ≡ extra)) },
}

impl Drop for Code {
    fn drop(self) {
        let Self {
            instrs: _,
            kinds: _,
            extra: _,
            quick: _,
        } = self;
    }
}
