//! The limits of code.

ghost use Rattle.std.specs.Prelude.{◌≡◌};

/// The most instructions of a program's code.
pub const MAX_INSTRUCTIONS: usize = 16_384;

/// The most values of the memory that code runs over.
pub const MAX_MEMORY: usize = 65_536;

/// The limits are these numbers. A law.
pub fn limits_of_code()
    ensures instructions { MAX_INSTRUCTIONS ≡ 16384 }
    ensures memory { MAX_MEMORY ≡ 65536 }
{}
