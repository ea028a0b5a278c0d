//! The contents of a whole file.

ghost use Rattle.std.specs.Prelude.{◌≡◌, ◌-◌, ◌≤◌, length, take, drop, IfNone, IfSome};
ghost use Rattle.std.specs.Int.{w32, w64, from_be_bytes};
ghost use Rattle.retain_store.specs.Recovered.{recovered, opened, Refused};
ghost use Rattle.retain_store.specs.Areas.{IsSurveyed};
ghost use Rattle.retain_store.specs.Surveys.{area_in, shown, held, gate_of, IsChoice, IsRecordableAt, LooksSound};

use crate::area::{Areas, Gate, Half};
use crate::shape::{AREA_BYTES, FILE_BYTES, HEADER_BYTES, OPEN_GATE};
use retain_records::{LineRoom, Record};
use st_types::limits::MAX_RECORD_BODY;
use std::cmp::Ordering;

/// The state of an area, without the record of an open one.
#[derive(Clone, Copy)]
enum Look {
    Closed,
    Damaged,
    /// The generation.
    Open(u64),
}

impl Look {
    /// The gate of the area.
    fn gate(self) -> Gate
        ensures { result ≡ gate_of self }
    {
        match self {
            Look::Closed => Gate::Closed,
            Look::Damaged | Look::Open(_) => Gate::Open,
        }
    }
}

/// The fields between a gate and a body.
#[derive(Clone, Copy)]
struct Header {
    generation: u64,
    /// The length of the body in bytes.
    size: u32,
}

/// Reads the header, after which the body comes.
fn read_header(bytes: &[u8]) -> Header
    requires { HEADER_BYTES ≤ length bytes.now }
    ensures generation { result.generation ≡ from_be_bytes w64 (take 8 bytes.now) }
    ensures size { result.size ≡ from_be_bytes w32 (take 4 (drop 8 bytes.now)) }
{
    let generation = u64::from_be_bytes([
        bytes[0], bytes[1], bytes[2], bytes[3], bytes[4], bytes[5], bytes[6], bytes[7],
    ]);
    let size = u32::from_be_bytes([bytes[8], bytes[9], bytes[10], bytes[11]]);
    Header { generation, size }
}

/// Looks at the bytes after an open gate. The record is read if there is one.
fn look_after_gate(behind: &[u8], into: &mut Record, lines: &mut LineRoom) -> Look
    requires { length behind.now ≡ AREA_BYTES - 1 }
    ensures shown { opened behind.now ≡ shown result into.new }
    ensures sound { LooksSound result into.new }
{
    let Header { generation, size } = read_header(behind);
    let size = size as usize;
    if size > MAX_RECORD_BODY {
        return Look::Damaged;
    }
    if generation == 0 {
        return Look::Damaged;
    }
    let (_, after) = behind.split_at(HEADER_BYTES);
    let (body, _) = after.split_at(size);
    if into.read(body, lines) {
        Look::Open(generation)
    } else {
        Look::Damaged
    }
}

/// Looks at an area. The record is read if there is one.
fn look_at(area: &[u8], into: &mut Record, lines: &mut LineRoom) -> Look
    requires { length area.now ≡ AREA_BYTES }
    ensures shown { area_in area.now ≡ shown result into.new }
    ensures sound { LooksSound result into.new }
{
    if area[0] != OPEN_GATE {
        return Look::Closed;
    }
    look_after_gate(&area[1..], into, lines)
}

/// Which of two areas holds the last record.
#[derive(Clone, Copy)]
enum Choice {
    Neither,
    /// The first, of this generation.
    First(u64),
    /// The second, of this generation.
    Second(u64),
    /// One of them is damaged, or both are of the same generation.
    Refused,
}

/// Chooses the one open area, or of two the newer.
fn choose(first: Look, second: Look) -> Choice
    ensures { IsChoice result first second }
{
    match (first, second) {
        (Look::Closed, Look::Closed) => Choice::Neither,
        (Look::Open(generation), Look::Closed) => Choice::First(generation),
        (Look::Closed, Look::Open(generation)) => Choice::Second(generation),
        (Look::Open(a), Look::Open(b)) => match a.cmp(&b) {
            Ordering::Greater => Choice::First(a),
            Ordering::Less => Choice::Second(b),
            Ordering::Equal => Choice::Refused,
        },
        _ => Choice::Refused,
    }
}

/// Gives the state of the areas of a whole file, and leaves its last record in `last` if there is one; `None` for a file
/// that is refused because it is damaged.
pub fn survey(
    file: &[u8],
    last: &mut Record,
    next: &mut Record,
    lines: &mut LineRoom,
) -> Option<Areas>
    requires { length file.now ≡ FILE_BYTES }
    ensures damaged { IfNone result (recovered file.now ≡ Refused) }
    ensures surveyed { IfSome result (λ areas. IsSurveyed file.now areas (held areas.generation last.new)) }
    ensures sound { IfSome result (λ areas. IsRecordableAt areas.generation last.new) }
{
    let (first_area, second_area) = file.split_at(AREA_BYTES);
    let first = look_at(first_area, last, lines);
    let second = look_at(second_area, next, lines);
    match choose(first, second) {
        Choice::Neither => Some(Areas::closed()),
        Choice::First(generation) => Some(Areas {
            target: Half::Second,
            target_gate: second.gate(),
            other_gate: Gate::Open,
            generation,
        }),
        Choice::Second(generation) => {
            std::mem::swap(last, next);
            Some(Areas {
                target: Half::First,
                target_gate: first.gate(),
                other_gate: Gate::Open,
                generation,
            })
        }
        Choice::Refused => None,
    }
}
