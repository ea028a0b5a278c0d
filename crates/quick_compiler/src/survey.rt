//! How the statements of a loop touch slots, so that the use of a slot in each turn is noted once, before the first one.

use crate::block_surveys::survey_invocation;
use crate::blocks::Invocation;
use crate::known::{Entry, Known, Ways};
use crate::spot::below;
use crate::stop::Stop;
use crate::touch::Touch;
use crate::unit::Unit;
use slot_trees::{Anchor, Place, SlotArm, SlotCaseArm, SlotExpr, SlotStmt};
use std::alloc::{AllocError, Global};

/// How many statements and expressions are looked at in all. Those in loops in loops are looked at for each.
const MAX_LOOKED_AT: usize = 8_000_000;

/// The touches of the statements up to a point.
pub struct Survey {
    alloc: Global,
    known: Known<Touch>,
    /// The ways out of the loops and the blocks around. The first ones are those out of all.
    outs: Vec<Ways<Touch>>,
    /// Those of them to which RETURN leads.
    back: usize,
    left: usize,
}

impl Drop for Survey {
    fn drop(self) {
        let Self {
            alloc: _,
            known: _,
            outs: _,
            back: _,
            left: _,
        } = self;
    }
}

impl Survey {
    /// No touches yet, of `slots` slots.
    pub fn new(alloc: Global, slots: usize) -> Result<Survey, AllocError> {
        Ok(Survey {
            alloc,
            known: Known::new(alloc, slots, Touch::NONE)?,
            outs: Vec::new(alloc),
            back: 0,
            left: MAX_LOOKED_AT,
        })
    }

    fn spend(&mut self) -> Result<(), Stop> {
        match self.left.checked_sub(1) {
            Some(left) => {
                self.left = left;
                Ok(())
            }
            None => Err(Stop::NotCovered),
        }
    }

    fn look(&mut self, unit: Unit, anchor: Anchor) -> Result<(), Stop> {
        self.look_slot(unit.slot_of(anchor)?)
    }

    /// A slot is looked up.
    pub fn look_slot(&mut self, slot: usize) -> Result<(), Stop> {
        let touch = self.known.at(slot)?;
        self.put(slot, touch, touch.then_look())
    }

    fn assign(&mut self, unit: Unit, anchor: Anchor) -> Result<(), Stop> {
        self.assign_slot(unit.slot_of(anchor)?)
    }

    /// A slot is assigned.
    pub fn assign_slot(&mut self, slot: usize) -> Result<(), Stop> {
        let touch = self.known.at(slot)?;
        self.put(slot, touch, touch.then_assignment())
    }

    fn put(&mut self, slot: usize, before: Touch, after: Touch) -> Result<(), Stop> {
        if before == after {
            return Ok(());
        }
        self.known.set(slot, after)
    }

    fn leave_loop(&mut self, comes: bool) -> Result<(), Stop> {
        let Some(mut ways) = self.outs.pop() else {
            return Err(Stop::NotCovered);
        };
        self.known.add(&mut ways, comes)?;
        self.outs.push(ways)?;
        Ok(())
    }

    fn leave_all(&mut self) -> Result<(), Stop> {
        if self.back >= self.outs.len() {
            return Err(Stop::NotCovered);
        }
        self.known.add(&mut self.outs[self.back], true)
    }

    /// Begins the body of a block, to whose end RETURN leads; gives where it led before.
    pub fn begin_block(&mut self) -> Result<usize, Stop> {
        let around = self.back;
        self.back = self.outs.len();
        self.outs.push(Ways::new(self.alloc, self.known.changes()))?;
        Ok(around)
    }

    /// Ends it.
    pub fn end_block(&mut self, goes_on: bool, around: usize) -> Result<(), Stop> {
        self.leave_loop(goes_on)?;
        self.back = around;
        match self.outs.pop() {
            Some(ways) => self.known.meet(ways),
            None => Err(Stop::NotCovered),
        }
    }

    fn forget(&mut self) {
        self.known.undo(0);
        self.outs.clear();
        self.back = 0;
    }
}

/// Turns of a loop: statements, and the condition after them.
#[derive(Clone, Copy)]
pub struct Turns<'a> {
    pub body: &'a [SlotStmt],
    pub condition: Option<&'a SlotExpr>,
}

/// How the turns of a loop touch each slot that they touch.
pub fn survey_turns(
    unit: Unit,
    survey: &mut Survey,
    turns: Turns,
    levels: usize,
) -> Result<Vec<Entry<Touch>>, Stop> {
    survey.forget();
    survey_loop(unit, survey, turns, false, levels)?;
    let touches = survey.known.changed(0)?;
    survey.forget();
    Ok(touches)
}

/// Looks at the turns of a loop, which may have none.
#[cycle(survey)]
fn survey_loop(
    unit: Unit,
    survey: &mut Survey,
    turns: Turns,
    may_have_none: bool,
    levels: usize,
) -> Result<(), Stop> {
    let inner = below(levels)?;
    let mut ways = Ways::new(survey.alloc, survey.known.changes());
    if may_have_none {
        survey.known.add(&mut ways, true)?;
    }
    survey.outs.push(ways)?;
    let goes_on = survey_stmts(unit, survey, turns.body, inner)?;
    if let Some(condition) = turns.condition {
        survey_expr(unit, survey, condition, inner)?;
    }
    survey.leave_loop(goes_on)?;
    match survey.outs.pop() {
        Some(ways) => survey.known.meet(ways),
        None => Err(Stop::NotCovered),
    }
}

/// Looks at statements: whether a run comes to their end.
#[cycle(survey)]
pub fn survey_stmts(
    unit: Unit,
    survey: &mut Survey,
    statements: &[SlotStmt],
    levels: usize,
) -> Result<bool, Stop> {
    let inner = below(levels)?;
    for statement in statements {
        if !survey_stmt(unit, survey, statement, inner)? {
            return Ok(false);
        }
    }
    Ok(true)
}

#[cycle(survey)]
fn survey_stmt(
    unit: Unit,
    survey: &mut Survey,
    statement: &SlotStmt,
    levels: usize,
) -> Result<bool, Stop> {
    let inner = below(levels)?;
    survey.spend()?;
    match statement {
        SlotStmt::Empty => {}
        SlotStmt::Assign(place, value) => {
            survey_expr(unit, survey, value, inner)?;
            survey_place(unit, survey, place, inner)?;
            if place.subscripts.is_empty() {
                survey.assign(unit, place.anchor)?;
            }
        }
        SlotStmt::If(arms, otherwise) => survey_if(unit, survey, arms, otherwise, inner)?,
        SlotStmt::Case(selector, arms, otherwise) => {
            survey_expr(unit, survey, selector, inner)?;
            survey_case(unit, survey, arms, otherwise, inner)?;
        }
        SlotStmt::For {
            control,
            start,
            limit,
            step,
            body,
        } => {
            survey_expr(unit, survey, start, inner)?;
            survey_expr(unit, survey, limit, inner)?;
            if let Some(step) = step {
                survey_expr(unit, survey, step, inner)?;
            }
            survey.assign(unit, *control)?;
            let turns = Turns {
                body,
                condition: None,
            };
            survey_loop(unit, survey, turns, true, inner)?;
        }
        SlotStmt::While(condition, body) => {
            survey_expr(unit, survey, condition, inner)?;
            let turns = Turns {
                body,
                condition: None,
            };
            survey_loop(unit, survey, turns, true, inner)?;
        }
        SlotStmt::Repeat(body, condition) => {
            let turns = Turns {
                body,
                condition: Some(condition),
            };
            survey_loop(unit, survey, turns, false, inner)?;
        }
        SlotStmt::Exit => {
            survey.leave_loop(true)?;
            return Ok(false);
        }
        SlotStmt::Return => {
            survey.leave_all()?;
            return Ok(false);
        }
        SlotStmt::Invoke(instance, block, arguments) => {
            let invocation = Invocation {
                instance: *instance,
                block: *block,
                arguments,
            };
            survey_invocation(unit, survey, invocation, inner)?;
        }
    }
    Ok(true)
}

#[cycle(survey)]
fn survey_if(
    unit: Unit,
    survey: &mut Survey,
    arms: &[SlotArm],
    otherwise: &[SlotStmt],
    levels: usize,
) -> Result<(), Stop> {
    let inner = below(levels)?;
    let mut ways = Ways::new(survey.alloc, survey.known.changes());
    for arm in arms {
        survey_expr(unit, survey, &arm.condition, inner)?;
        survey_arm(unit, survey, &arm.body, &mut ways, inner)?;
    }
    survey_arm(unit, survey, otherwise, &mut ways, inner)?;
    survey.known.meet(ways)
}

#[cycle(survey)]
fn survey_case(
    unit: Unit,
    survey: &mut Survey,
    arms: &[SlotCaseArm],
    otherwise: &[SlotStmt],
    levels: usize,
) -> Result<(), Stop> {
    let inner = below(levels)?;
    let mut ways = Ways::new(survey.alloc, survey.known.changes());
    for arm in arms {
        survey_arm(unit, survey, &arm.body, &mut ways, inner)?;
    }
    survey_arm(unit, survey, otherwise, &mut ways, inner)?;
    survey.known.meet(ways)
}

/// Looks at statements that are one way of several.
#[cycle(survey)]
fn survey_arm(
    unit: Unit,
    survey: &mut Survey,
    body: &[SlotStmt],
    ways: &mut Ways<Touch>,
    levels: usize,
) -> Result<(), Stop> {
    let inner = below(levels)?;
    let changes = survey.known.changes();
    let goes_on = survey_stmts(unit, survey, body, inner)?;
    survey.known.add(ways, goes_on)?;
    survey.known.undo(changes);
    Ok(())
}

/// Looks at an expression.
#[cycle(surveyed_expression)]
pub fn survey_expr(
    unit: Unit,
    survey: &mut Survey,
    expression: &SlotExpr,
    levels: usize,
) -> Result<(), Stop> {
    let inner = below(levels)?;
    survey.spend()?;
    match expression {
        SlotExpr::Constant(_) => {}
        SlotExpr::Load(place) => {
            survey_place(unit, survey, place, inner)?;
            if place.subscripts.is_empty() {
                survey.look(unit, place.anchor)?;
            }
        }
        SlotExpr::Compute(_, arguments) | SlotExpr::Call(_, arguments) => {
            for argument in arguments {
                survey_expr(unit, survey, argument, inner)?;
            }
        }
        SlotExpr::Unary(_, operand) => survey_expr(unit, survey, operand, inner)?,
        SlotExpr::Binary(_, operands) => {
            survey_expr(unit, survey, &operands.left, inner)?;
            survey_expr(unit, survey, &operands.right, inner)?;
        }
    }
    Ok(())
}

/// Looks at the subscripts of a place.
#[cycle(surveyed_expression)]
fn survey_place(unit: Unit, survey: &mut Survey, place: &Place, levels: usize) -> Result<(), Stop> {
    let inner = below(levels)?;
    for subscript in &place.subscripts {
        survey_expr(unit, survey, &subscript.index, inner)?;
    }
    Ok(())
}
