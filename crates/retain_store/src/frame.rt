//! The frame after the gate of an area: a header and a body.

ghost use Rattle.std.specs.Prelude.{◌≡◌, ◌+◌, ◌≤◌, ◌<◌, ◌++◌, length, take, drop};
ghost use Rattle.std.specs.Int.{w32, w64, to_be_bytes};
ghost use Rattle.st_types.specs.declared.limits.TheConstants.{MAX_RECORD_BODY};
ghost use Rattle.retain_records.specs.Records.{IsRecordable, record_bytes};
ghost use Rattle.retain_store.specs.Areas.{IsFrame};
ghost use Rattle.retain_store.specs.Kept.{content_of};

use crate::shape::HEADER_BYTES;
use retain_records::spell;
use st_types::Value;

/// Writes a header.
fn put_header(header: &mut [u8], generation: u64, size: u32)
    requires { length header.old ≡ HEADER_BYTES }
    ensures { header.new ≡ to_be_bytes w64 generation ++ to_be_bytes w32 size }
{
    let (first, second) = header.split_at_mut(8);
    first.copy_from_slice(&generation.to_be_bytes());
    second.copy_from_slice(&size.to_be_bytes());
}

/// Writes the frame of a record to the front of a buffer, and gives its length in bytes.
pub(crate) fn put_frame(
    frame: &mut [u8],
    generation: u64,
    moment: Option<u64>,
    layout: &[u8],
    values: &[Value],
) -> usize
    requires sound { IsRecordable (content_of moment layout.now values.now) }
    requires room { HEADER_BYTES + length (record_bytes (content_of moment layout.now values.now)) ≤ length frame.old }
    requires short { length (record_bytes (content_of moment layout.now values.now)) ≤ MAX_RECORD_BODY }
    requires some { 0 < generation }

    ensures size { result ≡ HEADER_BYTES + length (record_bytes (content_of moment layout.now values.now)) }
    ensures frame { IsFrame generation (take result frame.new) }
    ensures body { drop HEADER_BYTES (take result frame.new) ≡ record_bytes (content_of moment layout.now values.now) }
    ensures room { length frame.new ≡ length frame.old }
{
    let (header, body) = frame.split_at_mut(HEADER_BYTES);
    let size = spell(moment, layout, values, body);
    put_header(header, generation, size as u32);
    HEADER_BYTES + size
}
