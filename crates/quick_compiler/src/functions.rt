//! The code of standard functions.

use crate::draft::Draft;
use crate::ranges::{number_word, put_within};
use crate::reading::{Reading, is_wider, put_read};
use crate::spot::Spot;
use crate::stop::Stop;
use crate::turning::{put_shifted_up, put_turned};
use crate::unit::Unit;
use quick_checks::literal_value;
use quick_code::QuickInstr;
use slot_trees::SlotExpr;
use st_types::{Kind, is_wide};
use symbols::Standard;

/// Whether a standard function converts to a type that has each number, so that the word stays where it is.
pub fn is_widening(function: Standard) -> bool {
    match function {
        Standard::Convert(from, into) => is_wider(from, into),
        _ => false,
    }
}

/// Writes the code of a standard function, whose value is then in a word: its type.
#[cycle(draft)]
pub fn put_evaluated(
    unit: Unit,
    draft: &mut Draft,
    function: Standard,
    arguments: &[SlotExpr],
    spot: Spot,
    to: u16,
) -> Result<Kind, Stop> {
    let mut read = Vec::new(draft.alloc);
    for (place, argument) in arguments.iter().enumerate() {
        read.push(put_read(unit, draft, argument, spot.after_temporaries(place)?)?)?;
    }
    let behind = spot.after_temporaries(arguments.len())?;
    match function {
        Standard::Shr | Standard::Shl | Standard::Rol | Standard::Ror => {
            let places = places_in(arguments)?;
            put_moved(unit, draft, function, &read, places, behind.depth, to)
        }
        _ => put_function(unit, draft, function, &read, behind.depth, to),
    }
}

/// Writes the code that moves bits by a constant number of places.
fn put_moved(
    unit: Unit,
    draft: &mut Draft,
    function: Standard,
    read: &[Reading],
    places: u8,
    depth: u16,
    to: u16,
) -> Result<Kind, Stop> {
    match function {
        Standard::Shr => put_shifted(draft, read, places, to),
        Standard::Shl => put_shifted_up(unit, draft, read, places, depth, to),
        Standard::Rol => put_turned(unit, draft, read, places, false, depth, to),
        Standard::Ror => put_turned(unit, draft, read, places, true, depth, to),
        _ => Err(Stop::NotCovered),
    }
}

/// The constant number of places by which bits are moved.
fn places_in(arguments: &[SlotExpr]) -> Result<u8, Stop> {
    let [_, SlotExpr::Constant(literal)] = arguments else {
        return Err(Stop::NotCovered);
    };
    match u8::try_from(literal_value(literal)?.number()) {
        Ok(places) => Ok(places),
        Err(_) => Err(Stop::NotCovered),
    }
}

/// The number of bits of a type whose bits can be moved.
pub fn width_of(kind: Kind) -> Result<u8, Stop> {
    match kind {
        Kind::Byte => Ok(8),
        Kind::Word => Ok(16),
        Kind::Dword => Ok(32),
        _ => Err(Stop::NotCovered),
    }
}

/// Writes the instruction that moves bits down.
fn put_shifted(draft: &mut Draft, read: &[Reading], places: u8, to: u16) -> Result<Kind, Stop> {
    let [value, _] = read else {
        return Err(Stop::NotCovered);
    };
    if places >= width_of(value.kind)? {
        return Err(Stop::NotCovered);
    }
    draft.sheet.put(QuickInstr::ShiftRight {
        from: value.word,
        places,
        to,
    })?;
    Ok(value.kind)
}

/// Writes the code of a standard function whose arguments are read, with free temporaries from a depth on.
fn put_function(
    unit: Unit,
    draft: &mut Draft,
    function: Standard,
    read: &[Reading],
    depth: u16,
    to: u16,
) -> Result<Kind, Stop> {
    match (function, read) {
        (Standard::Convert(_, into), [argument]) => {
            put_converted(unit, draft, into, *argument, to)
        }
        (Standard::Min, [left, right]) => put_lesser(draft, *left, *right, depth, to),
        (Standard::Max, [left, right]) => put_greater(draft, *left, *right, depth, to),
        (Standard::Limit, [lower, value, upper]) => {
            put_limited(draft, *lower, *value, *upper, depth, to)
        }
        (Standard::Sel, [truth, left, right]) => {
            draft.sheet.put(QuickInstr::Select {
                condition: truth.word,
                yes: right.word,
                no: left.word,
                to,
            })?;
            Ok(left.kind)
        }
        (Standard::Abs, [argument]) => put_without_sign(unit, draft, *argument, depth, to),
        _ => Err(Stop::NotCovered),
    }
}

fn put_converted(
    unit: Unit,
    draft: &mut Draft,
    into: Kind,
    argument: Reading,
    to: u16,
) -> Result<Kind, Stop> {
    if is_wide(argument.kind) || is_wide(into) {
        return Err(Stop::NotCovered);
    }
    put_within(unit, draft, into, argument.word, to)?;
    Ok(into)
}

/// Two words that are compared, and two of which one is chosen if the first is at most the second.
#[derive(Clone, Copy)]
struct Choice {
    left: u16,
    right: u16,
    yes: u16,
    no: u16,
}

/// Writes the code that assigns one of two words.
fn put_chosen(draft: &mut Draft, choice: Choice, depth: u16, to: u16) -> Result<(), Stop> {
    let truth = draft.temporary(depth);
    draft.sheet.put(QuickInstr::AtMost {
        left: choice.left,
        right: choice.right,
        to: truth,
    })?;
    draft.sheet.put(QuickInstr::Select {
        condition: truth,
        yes: choice.yes,
        no: choice.no,
        to,
    })
}

fn put_lesser(
    draft: &mut Draft,
    left: Reading,
    right: Reading,
    depth: u16,
    to: u16,
) -> Result<Kind, Stop> {
    let choice = Choice {
        left: left.word,
        right: right.word,
        yes: left.word,
        no: right.word,
    };
    put_chosen(draft, choice, depth, to)?;
    Ok(left.kind)
}

fn put_greater(
    draft: &mut Draft,
    left: Reading,
    right: Reading,
    depth: u16,
    to: u16,
) -> Result<Kind, Stop> {
    let choice = Choice {
        left: right.word,
        right: left.word,
        yes: left.word,
        no: right.word,
    };
    put_chosen(draft, choice, depth, to)?;
    Ok(left.kind)
}

/// One level deeper.
fn deeper(depth: u16) -> Result<u16, Stop> {
    match depth.checked_add(1) {
        Some(depth) => Ok(depth),
        None => Err(Stop::NotCovered),
    }
}

fn put_limited(
    draft: &mut Draft,
    lower: Reading,
    value: Reading,
    upper: Reading,
    depth: u16,
    to: u16,
) -> Result<Kind, Stop> {
    let first = Choice {
        left: lower.word,
        right: value.word,
        yes: value.word,
        no: lower.word,
    };
    put_chosen(draft, first, depth, depth)?;
    let second = Choice {
        left: depth,
        right: upper.word,
        yes: depth,
        no: upper.word,
    };
    put_chosen(draft, second, deeper(depth)?, to)?;
    Ok(lower.kind)
}

/// Writes the code that assigns a number without its sign.
fn put_without_sign(
    unit: Unit,
    draft: &mut Draft,
    argument: Reading,
    depth: u16,
    to: u16,
) -> Result<Kind, Stop> {
    if is_wide(argument.kind) {
        return Err(Stop::NotCovered);
    }
    let nought = number_word(unit, draft, argument.kind, 0)?;
    let turned = draft.temporary(depth);
    draft.sheet.put(QuickInstr::SubtractLint {
        left: nought,
        right: argument.word,
        to: turned,
    })?;
    let choice = Choice {
        left: nought,
        right: argument.word,
        yes: argument.word,
        no: turned,
    };
    put_chosen(draft, choice, deeper(depth)?, turned)?;
    put_within(unit, draft, argument.kind, turned, to)?;
    Ok(argument.kind)
}
