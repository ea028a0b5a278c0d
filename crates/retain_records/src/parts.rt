//! The fields of a record before its values.

ghost use Rattle.std.specs.Prelude.{◌≡◌, option_map};
ghost use Rattle.std.specs.Int.{w32, w64};
ghost use Rattle.retain_records.specs.Reading.{moment_of, number_at, parts_at};

use st_types::limits::MOMENT_LIMIT;

/// A moment, a layout text, and the bytes after them.
#[derive(Clone, Copy)]
pub(crate) struct Parts<'a> {
    pub(crate) moment: Option<u64>,
    pub(crate) layout: &'a [u8],
    pub(crate) rest: &'a [u8],
}

/// The fields at the front of a body, and the bytes after them.
#[tactic(auto, unfolding(crate::specs::Reading::parts_at))]
pub(crate) fn parts_at(body: &[u8]) -> Option<Parts<'_>>
    ensures { option_map (λ p. record { moment = p.moment; layout = p.layout.now; rest = p.rest.now }) result
        ≡ parts_at body.now }
{
    let (code, behind) = u64_at(body)?;
    let (size, behind) = u32_at(behind)?;
    let size = size as usize;
    if MOMENT_LIMIT < code {
        return None;
    }
    if behind.len() < size {
        return None;
    }
    let (layout, rest) = behind.split_at(size);
    let moment = moment_of(code);
    Some(Parts {
        moment,
        layout,
        rest,
    })
}

/// No moment for 0, else the number minus 1.
fn moment_of(code: u64) -> Option<u64>
    ensures { result ≡ moment_of code }
{
    code.checked_sub(1)
}

fn u64_at(bytes: &[u8]) -> Option<(u64, &[u8])>
    ensures { option_map (λ p. (p.0, p.1.now)) result ≡ number_at w64 bytes.now }
{
    if bytes.len() < 8 {
        return None;
    }
    let (front, behind) = bytes.split_at(8);
    let number = u64::from_be_bytes([
        front[0], front[1], front[2], front[3], front[4], front[5], front[6], front[7],
    ]);
    Some((number, behind))
}

fn u32_at(bytes: &[u8]) -> Option<(u32, &[u8])>
    ensures { option_map (λ p. (p.0, p.1.now)) result ≡ number_at w32 bytes.now }
{
    if bytes.len() < 4 {
        return None;
    }
    let (front, behind) = bytes.split_at(4);
    let number = u32::from_be_bytes([front[0], front[1], front[2], front[3]]);
    Some((number, behind))
}
