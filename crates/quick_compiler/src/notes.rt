//! The notes before statements.

use crate::blocks::{Invocation, note_invocation};
use crate::choosing::{cheap_choice, note_choice};
use crate::draft::Draft;
use crate::spot::below;
use crate::stop::Stop;
use crate::survey::{Turns, survey_turns};
use crate::touch::Touch;
use crate::unit::Unit;
use quick_trees::Noting;
use slot_trees::{Anchor, Place, SlotExpr, SlotStmt};

/// Notes the looks of an expression.
#[cycle(note)]
pub fn note_looks(
    unit: Unit,
    draft: &mut Draft,
    expression: &SlotExpr,
    levels: usize,
) -> Result<(), Stop> {
    let levels = below(levels)?;
    match expression {
        SlotExpr::Constant(_) => {}
        SlotExpr::Load(place) => {
            note_subscripts(unit, draft, place, levels)?;
            if place.subscripts.is_empty() && unit.is_noted() {
                draft.note_look(unit.word_of(place.anchor)?)?;
            }
        }
        SlotExpr::Compute(_, arguments) | SlotExpr::Call(_, arguments) => {
            for argument in arguments {
                note_looks(unit, draft, argument, levels)?;
            }
        }
        SlotExpr::Unary(_, operand) => note_looks(unit, draft, operand, levels)?,
        SlotExpr::Binary(_, operands) => {
            note_looks(unit, draft, &operands.left, levels)?;
            note_looks(unit, draft, &operands.right, levels)?;
        }
    }
    Ok(())
}

/// Notes the looks of the subscripts of a place.
#[cycle(note)]
fn note_subscripts(
    unit: Unit,
    draft: &mut Draft,
    place: &Place,
    levels: usize,
) -> Result<(), Stop> {
    let levels = below(levels)?;
    for subscript in &place.subscripts {
        note_looks(unit, draft, &subscript.index, levels)?;
    }
    Ok(())
}

/// Notes the looks and assignments that a statement surely does before its first branch.
pub fn note_statement(
    unit: Unit,
    draft: &mut Draft,
    statement: &SlotStmt,
    levels: usize,
) -> Result<(), Stop> {
    if !unit.is_noted() {
        return Ok(());
    }
    match statement {
        SlotStmt::Assign(place, value) => {
            note_looks(unit, draft, value, levels)?;
            note_subscripts(unit, draft, place, levels)?;
            if place.subscripts.is_empty() {
                draft.note_assignment(unit.word_of(place.anchor)?)?;
            }
        }
        SlotStmt::If(arms, otherwise) => {
            if let Some(choice) = cheap_choice(unit, draft, arms, otherwise)? {
                note_choice(unit, draft, choice, levels)?;
            } else if let Some(arm) = arms.first() {
                note_looks(unit, draft, &arm.condition, levels)?;
            }
        }
        SlotStmt::Case(selector, _, _) => note_looks(unit, draft, selector, levels)?,
        SlotStmt::For {
            control,
            start,
            limit,
            step,
            ..
        } => {
            note_looks(unit, draft, start, levels)?;
            note_looks(unit, draft, limit, levels)?;
            if let Some(step) = step {
                note_looks(unit, draft, step, levels)?;
            }
            draft.note_assignment(unit.word_of(*control)?)?;
        }
        SlotStmt::While(condition, _) => note_looks(unit, draft, condition, levels)?,
        SlotStmt::Invoke(instance, block, arguments) => {
            let invocation = Invocation {
                instance: *instance,
                block: *block,
                arguments,
            };
            note_invocation(unit, draft, invocation, levels)?;
        }
        SlotStmt::Empty | SlotStmt::Repeat(_, _) | SlotStmt::Exit | SlotStmt::Return => {}
    }
    Ok(())
}

/// Notes the use of a slot in each turn of a loop, once, before the first turn.
pub fn note_turns(unit: Unit, draft: &mut Draft, turns: Turns, levels: usize) -> Result<(), Stop> {
    if !unit.is_noted() {
        return Ok(());
    }
    for touch in &survey_turns(unit, &mut draft.survey, turns, levels)? {
        let word = unit.word_of(Anchor::Absolute(touch.slot))?;
        note_touch(draft, word, touch.state)?;
    }
    Ok(())
}

fn note_touch(draft: &mut Draft, word: u16, touch: Touch) -> Result<(), Stop> {
    let is_exact = draft.known.at(word as usize)? == Noting::Exact;
    if is_exact && touch.looks() {
        draft.note_look(word)?;
    }
    if touch.assigns() && (touch.is_alike() || !is_exact) {
        draft.note_assignment(word)?;
    }
    Ok(())
}
