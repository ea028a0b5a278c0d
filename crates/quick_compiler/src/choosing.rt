//! The code of an IF that assigns one of two values.
//!
//! Both are read, and one is assigned: there is no branch whose way the processor could guess wrongly. That is done if
//! reading them is cheap and can't fail, and looks up nothing but values that are looked up whichever is assigned, or were
//! touched before.

ghost use Rattle.std.specs.Prelude.{◌<◌, IsTrue, length};

use crate::draft::Draft;
use crate::functions::is_widening;
use crate::notes::note_looks;
use crate::places::{Variable, variable_of};
use crate::reading::put_read;
use crate::spot::Spot;
use crate::stop::Stop;
use crate::unit::Unit;
use quick_checks::{Choice, choice_of, unequal_to_0};
use quick_code::QuickInstr;
use slot_trees::{Anchor, SlotArm, SlotExpr, SlotStmt};
use st_types::{BinaryOperator, Kind, UnaryOperator};
use symbols::Standard;

/// The greatest number of levels of the expressions of a choice, so that they are cheap.
const MOST_LEVELS: usize = 4;

/// How many constants a program may have before an IF with a choice. A choice takes words for the constants that it assigns,
/// while a branch would have them in its instructions, and words for constants are few.
const MOST_CONSTANTS: usize = 1024;

/// The choice of an IF, if its code is written as one.
pub fn cheap_choice<'a>(
    unit: Unit,
    draft: &Draft,
    arms: &'a [SlotArm],
    otherwise: &'a [SlotStmt],
) -> Result<Option<Choice<'a>>, Stop> {
    let Some(choice) = choice_of(arms, otherwise) else {
        return Ok(None);
    };
    if draft.constants.len() > MOST_CONSTANTS {
        return Ok(None);
    }
    let is_cheap = is_straight(choice.condition, true, MOST_LEVELS)
        && is_straight(choice.yes, false, MOST_LEVELS)
        && is_straight(choice.no, false, MOST_LEVELS);
    if !is_cheap
        || !is_looked_up(unit, draft, choice.yes, choice, MOST_LEVELS)?
        || !is_looked_up(unit, draft, choice.no, choice, MOST_LEVELS)?
    {
        return Ok(None);
    }
    Ok(Some(choice))
}

/// Whether code that reads an expression has no branch and, unless it may fail, no operator that may have no result.
fn is_straight(expression: &SlotExpr, may_fail: bool, levels: usize) -> bool {
    if levels == 0 {
        return false;
    }
    let levels = levels - 1;
    match expression {
        SlotExpr::Constant(_) => true,
        SlotExpr::Load(place) => place.subscripts.is_empty(),
        SlotExpr::Unary(UnaryOperator::Not, operand) => is_straight(operand, may_fail, levels),
        SlotExpr::Unary(UnaryOperator::Negate, operand) => {
            may_fail && is_straight(operand, may_fail, levels)
        }
        SlotExpr::Binary(operator, operands) => {
            (may_fail || !may_fail_at(*operator))
                && is_straight(&operands.left, may_fail, levels)
                && is_straight(&operands.right, may_fail, levels)
        }
        SlotExpr::Compute(function, arguments) => {
            has_no_branch(*function, arguments) && is_straight(&arguments[0], may_fail, levels)
        }
        SlotExpr::Call(_, _) => false,
    }
}

/// Whether a standard function is a conversion to a type that has each number, or moves bits down by a constant.
fn has_no_branch(function: Standard, arguments: &[SlotExpr]) -> bool
    ensures { IsTrue result → 0 < length arguments.now }
{
    match function {
        Standard::Shr => match arguments {
            [_, SlotExpr::Constant(..)] => true,
            _ => false,
        },
        _ => arguments.len() == 1 && is_widening(function),
    }
}

/// Whether an operator may have no result.
fn may_fail_at(operator: BinaryOperator) -> bool {
    match operator {
        BinaryOperator::Add
        | BinaryOperator::Subtract
        | BinaryOperator::Multiply
        | BinaryOperator::Divide
        | BinaryOperator::Modulo => true,
        _ => false,
    }
}

/// Whether each variable that an expression of a choice looks up is looked up whichever is chosen.
fn is_looked_up(
    unit: Unit,
    draft: &Draft,
    expression: &SlotExpr,
    choice: Choice<'_>,
    levels: usize,
) -> Result<bool, Stop> {
    if levels == 0 {
        return Ok(false);
    }
    let levels = levels - 1;
    match expression {
        SlotExpr::Constant(_) => Ok(true),
        SlotExpr::Load(place) => match variable_of(place) {
            Variable::Whole(anchor) => Ok(
                looks_up(choice.condition, anchor, MOST_LEVELS)
                    || (looks_up(choice.yes, anchor, MOST_LEVELS)
                        && looks_up(choice.no, anchor, MOST_LEVELS))
                    || draft.is_touched(unit, anchor)?,
            ),
            _ => Ok(false),
        },
        SlotExpr::Unary(_, operand) => is_looked_up(unit, draft, operand, choice, levels),
        SlotExpr::Binary(_, operands) => {
            Ok(
                is_looked_up(unit, draft, &operands.left, choice, levels)?
                    && is_looked_up(unit, draft, &operands.right, choice, levels)?,
            )
        }
        SlotExpr::Compute(_, arguments) => match arguments.first() {
            Some(first) => is_looked_up(unit, draft, first, choice, levels),
            None => Ok(true),
        },
        SlotExpr::Call(_, _) => Ok(false),
    }
}

/// Whether an expression without calls looks a variable up.
fn looks_up(expression: &SlotExpr, variable: Anchor, levels: usize) -> bool {
    if levels == 0 {
        return false;
    }
    let levels = levels - 1;
    match expression {
        SlotExpr::Load(place) => place.subscripts.is_empty() && place.anchor == variable,
        SlotExpr::Unary(_, operand) => looks_up(operand, variable, levels),
        SlotExpr::Binary(_, operands) => {
            looks_up(&operands.left, variable, levels)
                || looks_up(&operands.right, variable, levels)
        }
        SlotExpr::Compute(_, arguments) => match arguments.first() {
            Some(first) => looks_up(first, variable, levels),
            None => false,
        },
        SlotExpr::Constant(_) | SlotExpr::Call(_, _) => false,
    }
}

/// Notes the effect of a choice: it looks up each variable in its expressions, and assigns its own.
pub fn note_choice(
    unit: Unit,
    draft: &mut Draft,
    choice: Choice<'_>,
    levels: usize,
) -> Result<(), Stop> {
    note_looks(unit, draft, choice.condition, levels)?;
    note_looks(unit, draft, choice.yes, levels)?;
    note_looks(unit, draft, choice.no, levels)?;
    draft.note_assignment(unit.word_of(choice.variable)?)
}

/// Writes the code that reads both expressions of a choice, and assigns one.
#[cycle(draft)]
pub fn put_choice(
    unit: Unit,
    draft: &mut Draft,
    choice: Choice<'_>,
    spot: Spot,
) -> Result<(), Stop> {
    let behind = draft.sheet.mark()?;
    draft.promise(behind)?;
    let slot = unit.slot_of(choice.variable)?;
    let to = unit.own_word_of(slot)?;
    let condition = put_asked(unit, draft, choice.condition, spot.inside()?)?;
    draft.sheet.tick()?;
    let yes = put_read(unit, draft, choice.yes, spot.after_temporaries(1)?)?;
    let no = put_read(unit, draft, choice.no, spot.after_temporaries(2)?)?;
    let kind = unit.kind_at(slot)?;
    if yes.kind != kind || no.kind != kind {
        return Err(Stop::NotCovered);
    }
    draft.sheet.put(QuickInstr::Select {
        condition,
        yes: yes.word,
        no: no.word,
        to,
    })?;
    draft.assign(unit, choice.variable)?;
    draft.sheet.bind(behind)
}

/// Writes the code that reads a condition: the word that is not 0 if it holds.
#[cycle(draft)]
fn put_asked(unit: Unit, draft: &mut Draft, condition: &SlotExpr, spot: Spot) -> Result<u16, Stop> {
    if let Some(operands) = unequal_to_0(condition) {
        let left = put_read(unit, draft, &operands.left, spot.inside()?)?;
        return Ok(left.word);
    }
    let read = put_read(unit, draft, condition, spot.inside()?)?;
    if read.kind != Kind::Bool {
        return Err(Stop::NotCovered);
    }
    Ok(read.word)
}
