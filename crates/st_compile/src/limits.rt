//! The limits of calls.

ghost use Rattle.std.specs.Prelude.{◌≡◌};

/// How deep calls may be.
pub const CALL_DEPTH: u16 = 64;

/// How many values of functions may come after the values of a program.
pub const FUNCTION_PLACES: usize = 4096;

/// The limits are these numbers. A law.
pub fn limits_of_calls()
    ensures depth { CALL_DEPTH ≡ 64 }
    ensures places { FUNCTION_PLACES ≡ 4096 }
{}
