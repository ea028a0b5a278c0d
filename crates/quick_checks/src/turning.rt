//! The code that moves bits up, and that rotates them.

ghost use Rattle.std.specs.Prelude.{◌≡◌, ◌<◌, ◌≤◌, ◌-◌, ◌^◌, ℕ, IfOk, IfSome, OnOk, if◌then◌else◌, pos};
ghost use Rattle.st_types.specs.Kinds.{row_of};
ghost use Rattle.quick_trees.specs.Functions.{IsMovedUp, IsShiftedUp, IsTurnedBy};
ghost use Rattle.quick_trees.specs.Pieces.{IsNumberAt};
ghost use Rattle.quick_checks.specs.Checking.{frame_of, kinds_read, point_of, words_read};

use crate::constants::Reading;
use crate::cursor::{Cursor, expect, expect_for};
use crate::draft::QuickDraft;
use crate::expressions::{deeper, temporary};
use crate::functions::{only_two, width_of};
use crate::instructions::by_bits;
use crate::ranges::{expect_within, natural_of};
use crate::refusal::Refusal;
use quick_code::QuickInstr;
use st_types::Kind;

/// A power of two.
fn power_of(places: u8) -> u64
    requires { places < 64 }
    ensures { result ≡ 2 ^ places }
{
    1u64 << places
}

/// The constant number of places by which bits are moved.
fn places_of(draft: &QuickDraft, count: Reading) -> Option<u8>
    ensures { IfSome result (λ n. (now : ℕ) → IsNumberAt (frame_of draft.now now) count.kind (pos n) count.word) }
{
    let index = (count.word as usize).checked_sub(draft.window.len())?;
    let value = draft.constants.get(index)?;
    let Ok(places) = u8::try_from(value.number()) else {
        return None;
    };
    match natural_of(draft, count.kind, places as u64) {
        Ok(word) if word == count.word => Some(places),
        _ => None,
    }
}

/// A bit string whose bits are moved up.
#[derive(Clone, Copy)]
struct Moved {
    kind: Kind,
    word: u16,
    places: u8,
}

/// Finds the code that moves bits up.
fn expect_moved_up(
    draft: &QuickDraft,
    moved: Moved,
    depth: u16,
    to: u16,
    at: &mut Cursor,
) -> Result<(), Refusal>
    ensures { OnOk result ((now : ℕ) → IsMovedUp (frame_of draft.now now) moved.kind moved.word moved.places depth to
        (point_of at.old) (point_of at.new)) }
{
    let Some(width) = width_of(moved.kind) else {
        return Err(Refusal::Other);
    };
    if moved.places > width {
        return Err(Refusal::Other);
    }
    temporary(draft, depth)?;
    let mask = natural_of(draft, moved.kind, power_of(width - moved.places) - 1)?;
    let power = natural_of(draft, moved.kind, power_of(moved.places))?;
    let masked = QuickInstr::And {
        left: moved.word,
        right: mask,
        to: depth,
    };
    expect_for(draft, at, by_bits(moved.kind, masked))?;
    expect(
        draft,
        at,
        QuickInstr::MultiplyLint {
            left: depth,
            right: power,
            to,
        },
    )?;
    Ok(())
}

/// Finds the code that moves bits up by a constant number of places.
pub fn expect_shifted_up(
    draft: &QuickDraft,
    read: &[Reading],
    depth: u16,
    to: u16,
    at: &mut Cursor,
) -> Result<Kind, Refusal>
    ensures { IfOk result (λ t. (now : ℕ) → IsShiftedUp (frame_of draft.now now) (kinds_read read.now)
        (words_read read.now) t depth to (point_of at.old) (point_of at.new)) }
{
    let Some((value, count)) = only_two(read) else {
        return Err(Refusal::Other);
    };
    let (Some(width), Some(places)) = (width_of(value.kind), places_of(draft, count)) else {
        return Err(Refusal::Other);
    };
    if places >= width {
        return Err(Refusal::Other);
    }
    let moved = Moved {
        kind: value.kind,
        word: value.word,
        places,
    };
    expect_moved_up(draft, moved, depth, to, at)?;
    Ok(value.kind)
}

/// Finds the code that rotates bits by a constant number of places, up or down.
pub fn expect_turned(
    draft: &QuickDraft,
    read: &[Reading],
    is_down: bool,
    depth: u16,
    to: u16,
    at: &mut Cursor,
) -> Result<Kind, Refusal>
    ensures { IfOk result (λ t. (now : ℕ) → (n : ℕ) × IsTurnedBy (frame_of draft.now now) (kinds_read read.now)
        (words_read read.now) t n (if is_down then (row_of t).bits - n else n) depth to (point_of at.old)
        (point_of at.new)) }
{
    let Some((value, count)) = only_two(read) else {
        return Err(Refusal::Other);
    };
    let (Some(width), Some(places)) = (width_of(value.kind), places_of(draft, count)) else {
        return Err(Refusal::Other);
    };
    if places == 0 || places >= width {
        return Err(Refusal::Other);
    }
    let up = if is_down { width - places } else { places };
    let below = deeper(depth)?;
    temporary(draft, below)?;
    let moved = Moved {
        kind: value.kind,
        word: value.word,
        places: up,
    };
    expect_moved_up(draft, moved, depth, depth, at)?;
    expect(
        draft,
        at,
        QuickInstr::ShiftRight {
            from: value.word,
            places: width - up,
            to: below,
        },
    )?;
    expect(
        draft,
        at,
        QuickInstr::AddLint {
            left: depth,
            right: below,
            to: depth,
        },
    )?;
    expect_within(draft, value.kind, depth, to, at)?;
    Ok(value.kind)
}
