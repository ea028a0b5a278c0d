//! Numbers of a type, which are assigned if the type has them.

use crate::draft::Draft;
use crate::reading::Reading;
use crate::stop::Stop;
use crate::unit::Unit;
use quick_checks::{instr_by, instr_for};
use quick_code::QuickInstr;
use st_types::{BinaryOperator, Kind, Value};

/// The word of the constant that is a number of a type.
pub fn number_word(unit: Unit, draft: &mut Draft, kind: Kind, number: i128) -> Result<u16, Stop> {
    match Value::new(kind, number) {
        Ok(value) => draft.constant(unit, value),
        Err(_) => Err(Stop::NotCovered),
    }
}

/// Writes the instruction that assigns a word if it is a number of a type.
pub fn put_within(
    unit: Unit,
    draft: &mut Draft,
    kind: Kind,
    from: u16,
    to: u16,
) -> Result<(), Stop> {
    let least = number_word(unit, draft, kind, kind.least())?;
    let greatest = number_word(unit, draft, kind, kind.greatest())?;
    draft.sheet.put(QuickInstr::MoveWithin {
        from,
        least,
        greatest,
        to,
    })
}

/// Whether numbers of a type are computed as LINT, and tested then.
fn is_small(kind: Kind) -> bool {
    match kind {
        Kind::Sint | Kind::Usint | Kind::Uint | Kind::Udint => true,
        _ => false,
    }
}

/// Writes the code of an operator on a number of a small type and a constant, if there is one.
pub fn put_small_by(
    unit: Unit,
    draft: &mut Draft,
    operator: BinaryOperator,
    left: Reading,
    constant: i32,
    depth: u16,
    to: u16,
) -> Result<bool, Stop> {
    if !is_small(left.kind) {
        return Ok(false);
    }
    let Some(instr) = instr_by(operator, Kind::Lint, left.word, constant, depth) else {
        return Ok(false);
    };
    draft.temporary(depth);
    draft.sheet.put(instr)?;
    put_within(unit, draft, left.kind, depth, to)?;
    Ok(true)
}

/// The same for two numbers.
pub fn put_small(
    unit: Unit,
    draft: &mut Draft,
    operator: BinaryOperator,
    left: Reading,
    right: Reading,
    depth: u16,
    to: u16,
) -> Result<bool, Stop> {
    if !is_small(left.kind) {
        return Ok(false);
    }
    let Some(instr) = instr_for(operator, Kind::Lint, left.word, right.word, depth) else {
        return Ok(false);
    };
    draft.temporary(depth);
    draft.sheet.put(instr)?;
    put_within(unit, draft, left.kind, depth, to)?;
    Ok(true)
}
