//! Limits of layouts.

ghost use Rattle.std.specs.Prelude.{◌≡◌};

/// The greatest number of instances of function blocks, at every depth.
pub const MAX_INSTANCES: usize = 4_096;

/// The limit is this number. A law.
pub fn limits_of_layouts()
    ensures { MAX_INSTANCES ≡ 4096 }
{}
