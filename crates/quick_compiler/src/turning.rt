//! The code that moves bits up, and that rotates them.

use crate::draft::Draft;
use crate::functions::width_of;
use crate::ranges::{number_word, put_within};
use crate::reading::Reading;
use crate::stop::Stop;
use crate::unit::Unit;
use quick_code::QuickInstr;
use st_types::Kind;

/// A power of two.
fn power_of(places: u8) -> Result<u64, Stop> {
    if places >= 64 {
        return Err(Stop::NotCovered);
    }
    Ok(1u64 << places)
}

/// Writes the code that moves bits up: bits that leave the width are masked out, and the rest is multiplied.
fn put_moved_up(
    unit: Unit,
    draft: &mut Draft,
    value: Reading,
    places: u8,
    depth: u16,
    to: u16,
) -> Result<(), Stop> {
    let Some(stay) = width_of(value.kind)?.checked_sub(places) else {
        return Err(Stop::NotCovered);
    };
    let ones = power_of(stay)?.saturating_sub(1);
    let mask = number_word(unit, draft, value.kind, ones as i128)?;
    let power = number_word(unit, draft, value.kind, power_of(places)? as i128)?;
    let masked = draft.temporary(depth);
    draft.sheet.put(QuickInstr::And {
        left: value.word,
        right: mask,
        to: masked,
    })?;
    draft.sheet.put(QuickInstr::MultiplyLint {
        left: masked,
        right: power,
        to,
    })
}

/// Writes the code that moves bits up by a constant number of places.
pub fn put_shifted_up(
    unit: Unit,
    draft: &mut Draft,
    read: &[Reading],
    places: u8,
    depth: u16,
    to: u16,
) -> Result<Kind, Stop> {
    let [value, _] = read else {
        return Err(Stop::NotCovered);
    };
    if places >= width_of(value.kind)? {
        return Err(Stop::NotCovered);
    }
    put_moved_up(unit, draft, *value, places, depth, to)?;
    Ok(value.kind)
}

/// Writes the code that rotates bits up by a number of places: those that are moved up, those that are moved down, and the
/// sum.
fn put_sum(
    unit: Unit,
    draft: &mut Draft,
    value: Reading,
    up: u8,
    depth: u16,
    to: u16,
) -> Result<(), Stop> {
    let (Some(down), Some(below)) = (width_of(value.kind)?.checked_sub(up), depth.checked_add(1))
    else {
        return Err(Stop::NotCovered);
    };
    put_moved_up(unit, draft, value, up, depth, depth)?;
    let below = draft.temporary(below);
    draft.sheet.put(QuickInstr::ShiftRight {
        from: value.word,
        places: down,
        to: below,
    })?;
    draft.sheet.put(QuickInstr::AddLint {
        left: depth,
        right: below,
        to: depth,
    })?;
    put_within(unit, draft, value.kind, depth, to)
}

/// Writes the code that rotates bits by a constant number of places, up or down.
pub fn put_turned(
    unit: Unit,
    draft: &mut Draft,
    read: &[Reading],
    places: u8,
    is_down: bool,
    depth: u16,
    to: u16,
) -> Result<Kind, Stop> {
    let [value, _] = read else {
        return Err(Stop::NotCovered);
    };
    let width = width_of(value.kind)?;
    if places == 0 || places >= width {
        return Err(Stop::NotCovered);
    }
    let up = if is_down { width - places } else { places };
    put_sum(unit, draft, *value, up, depth, to)?;
    Ok(value.kind)
}
