//! The greatest sizes of a record's parts.

ghost use Rattle.std.specs.Prelude.{◌≡◌};

use st_types::limits::MAX_RECORD_BODY;

/// The longest layout text of a record in bytes: a body's room besides its moment and the text's length.
pub(crate) const MAX_LAYOUT_BYTES: usize = MAX_RECORD_BODY - 12;

/// The most lines of a layout text. A line has at least six bytes.
pub(crate) const MAX_LINES: usize = MAX_LAYOUT_BYTES / 6;

/// The sizes are these numbers. A law.
pub fn sizes_of_records()
    ensures layout { MAX_LAYOUT_BYTES ≡ 131047 }
    ensures lines { MAX_LINES ≡ 21841 }
{}
