//! How calls of blocks touch slots.

use crate::blocks::{Invocation, member_at};
use crate::spot::below;
use crate::stop::Stop;
use crate::survey::{Survey, survey_expr, survey_stmts};
use crate::unit::{Unit, Values};
use slot_trees::{BlockCode, SlotArgument};
use symbols::{StandardBlock, member_count};

/// Looks at a call of a block: inputs are read and then given, the block runs, and outputs are copied.
#[cycle(survey)]
pub fn survey_invocation(
    unit: Unit,
    survey: &mut Survey,
    invocation: Invocation,
    levels: usize,
) -> Result<(), Stop> {
    let inner = below(levels)?;
    let first = unit.slot_of(invocation.instance)?;
    survey_inputs(unit, survey, first, invocation.arguments, inner)?;
    match invocation.block {
        BlockCode::Own(number) => survey_block(unit, survey, number, first, inner)?,
        BlockCode::Standard(block) => survey_step(survey, block, first)?,
    }
    survey_outputs(unit, survey, first, invocation.arguments)
}

/// Looks at the inputs of a call.
fn survey_inputs(
    unit: Unit,
    survey: &mut Survey,
    first: usize,
    arguments: &[SlotArgument],
    levels: usize,
) -> Result<(), Stop> {
    for argument in arguments {
        if let SlotArgument::Given(_, value) = argument {
            survey_expr(unit, survey, value, levels)?;
        }
    }
    for argument in arguments {
        if let SlotArgument::Given(member, _) = argument {
            survey.assign_slot(member_at(first, *member)?)?;
        }
    }
    Ok(())
}

/// Looks at the body of a block of the text.
#[cycle(survey)]
fn survey_block(
    unit: Unit,
    survey: &mut Survey,
    number: usize,
    first: usize,
    levels: usize,
) -> Result<(), Stop> {
    let inner = below(levels)?;
    let body = unit.block_at(number)?;
    let values = Values::Whole(first);
    let called = Unit {
        values: &values,
        ..unit
    };
    let around = survey.begin_block()?;
    let goes_on = survey_stmts(called, survey, body, inner)?;
    survey.end_block(goes_on, around)
}

/// All members of a standard block are looked up, and then all are assigned.
fn survey_step(survey: &mut Survey, block: StandardBlock, first: usize) -> Result<(), Stop> {
    let count = member_count(block);
    for member in 0..count {
        survey.look_slot(member_at(first, member)?)?;
    }
    for member in 0..count {
        survey.assign_slot(member_at(first, member)?)?;
    }
    Ok(())
}

/// Looks at the outputs of a call.
fn survey_outputs(
    unit: Unit,
    survey: &mut Survey,
    first: usize,
    arguments: &[SlotArgument],
) -> Result<(), Stop> {
    for argument in arguments {
        if let SlotArgument::Copied(member, place) = argument {
            survey.look_slot(member_at(first, *member)?)?;
            survey.assign_slot(unit.slot_of(place.anchor)?)?;
        }
    }
    Ok(())
}
