//! The code of minus and NOT.

use crate::constants::small_word;
use crate::draft::Draft;
use crate::reading::{Reading, put_read};
use crate::spot::Spot;
use crate::stop::Stop;
use crate::unit::Unit;
use quick_checks::{instr_by, instr_for};
use slot_trees::SlotExpr;
use st_types::{BinaryOperator, Kind, UnaryOperator, Value};

/// A number of a type.
fn number_of(kind: Kind, number: i128) -> Result<Value, Stop> {
    match Value::new(kind, number) {
        Ok(value) => Ok(value),
        Err(_) => Err(Stop::NotCovered),
    }
}

/// Writes the code that assigns minus a value to a word, or NOT one: its type.
#[cycle(draft)]
pub fn put_unary(
    unit: Unit,
    draft: &mut Draft,
    operator: UnaryOperator,
    operand: &SlotExpr,
    spot: Spot,
    to: u16,
) -> Result<Kind, Stop> {
    let from = put_read(unit, draft, operand, spot.inside()?)?;
    match operator {
        UnaryOperator::Negate => put_negated(unit, draft, from, to)?,
        UnaryOperator::Not => put_turned(unit, draft, from, to)?,
    }
    Ok(from.kind)
}

/// Subtracts a value from 0.
fn put_negated(unit: Unit, draft: &mut Draft, from: Reading, to: u16) -> Result<(), Stop> {
    let nought = draft.constant(unit, number_of(from.kind, 0)?)?;
    let operator = BinaryOperator::Subtract;
    draft
        .sheet
        .put_for(instr_for(operator, from.kind, nought, from.word, to))
}

/// Flips each bit of a value.
fn put_turned(unit: Unit, draft: &mut Draft, from: Reading, to: u16) -> Result<(), Stop> {
    let operator = BinaryOperator::Xor;
    let greatest = number_of(from.kind, from.kind.greatest())?;
    if let Some(ones) = small_word(greatest) {
        let instr = instr_by(operator, from.kind, from.word, ones, to);
        return draft.sheet.put_for(instr);
    }
    let ones = draft.constant(unit, greatest)?;
    draft
        .sheet
        .put_for(instr_for(operator, from.kind, from.word, ones, to))
}
