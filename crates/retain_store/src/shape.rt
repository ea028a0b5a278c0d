//! The bytes of a retain file: two areas, of which each has a gate, a header and a body.

ghost use Rattle.std.specs.Prelude.{◌≡◌};

use st_types::limits::MAX_RECORD_BODY;

/// The length of an area in bytes.
pub const AREA_BYTES: usize = 131_072;

/// The length of a file with its two areas, in bytes.
pub const FILE_BYTES: usize = 2 * AREA_BYTES;

/// The byte of an open gate.
pub(crate) const OPEN_GATE: u8 = 0xA5;

/// The byte that closes a gate. Any byte except that of an open gate is a closed one.
pub(crate) const CLOSED_GATE: u8 = 0;

/// The length of a header in bytes: 8 of the generation and 4 of the body's length.
pub const HEADER_BYTES: usize = 12;

// The longest body fills its area after the gate and the header.
const _: () = prove!(MAX_RECORD_BODY == AREA_BYTES - 1 - HEADER_BYTES);

/// The sizes and the bytes of gates are these numbers. A law.
pub fn sizes_of_areas()
    ensures area { AREA_BYTES ≡ 131072 }
    ensures file { FILE_BYTES ≡ 262144 }
    ensures open { OPEN_GATE ≡ 165 }
    ensures closed { CLOSED_GATE ≡ 0 }
    ensures header { HEADER_BYTES ≡ 12 }
{}
