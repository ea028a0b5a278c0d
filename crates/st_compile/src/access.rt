//! Accesses to variables.

ghost use Rattle.std.specs.Prelude.{◌≡◌};
ghost use Rattle.st_compile.specs.Accesses.{known_instr, led_instr};

use machine_code::Instr;

/// An access to an elementary variable.
#[derive(Clone, Copy)]
pub enum Access {
    /// Its value is pushed on the stack.
    Load,
    /// It takes the value on the stack.
    Store,
}

impl Access {
    /// The instruction if its slot is known.
    pub fn known(self, slot: u16) -> Instr
        ensures { result ≡ known_instr self slot }
    {
        match self {
            Access::Load => Instr::Load(slot),
            Access::Store => Instr::Store(slot),
        }
    }

    /// The instruction if subscripts lead to its slot.
    pub fn led(self) -> Instr
        ensures { result ≡ led_instr self }
    {
        match self {
            Access::Load => Instr::LoadAt,
            Access::Store => Instr::StoreAt,
        }
    }
}
