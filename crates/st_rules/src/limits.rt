//! Limits of declarations, each in one place. Definitions and code take them from here.

ghost use Rattle.std.specs.Prelude.{◌≡◌};

/// The most elements of an array.
pub const MAX_ELEMENTS: usize = 4_096;

/// The greatest depth of a type, a block or a function. An elementary type has depth 1.
pub const MAX_TYPE_DEPTH: usize = 64;

/// The most names of an enumerated type.
pub const MAX_NAMES: usize = 256;

/// The limits are these numbers. A law.
pub fn limits_of_declarations()
    ensures elements { MAX_ELEMENTS ≡ 4096 }
    ensures type_depth { MAX_TYPE_DEPTH ≡ 64 }
    ensures names { MAX_NAMES ≡ 256 }
{}
