//! The code of statements.

use crate::blocks::{Invocation, put_invocation};
use crate::cases::cases_of;
use crate::choosing::{cheap_choice, put_choice};
use crate::conditions::{Branch, put_test};
use crate::draft::Draft;
use crate::known::Ways;
use crate::loops::{Turning, put_for, put_repeat, put_while};
use crate::notes::{note_looks, note_statement};
use crate::places::{Variable, put_store, variable_of};
use crate::reading::{put_made, put_read};
use crate::spot::Spot;
use crate::stop::Stop;
use crate::subscripts::put_subscript;
use crate::unit::{Unit, narrow};
use crate::within::{Access, put_within};
use quick_code::QuickInstr;
use quick_trees::Noting;
use slot_trees::{Place, SlotArm, SlotCaseArm, SlotExpr, SlotStmt};
use st_types::is_wide;

/// The marks where EXIT and RETURN lead, and where the statements end.
#[derive(Clone, Copy)]
pub struct Exits {
    pub out: usize,
    pub back: usize,
    pub end: usize,
}

/// Writes the code of statements one after another: whether a run comes to their end.
#[cycle(draft)]
pub fn put_stmts(
    unit: Unit,
    draft: &mut Draft,
    statements: &[SlotStmt],
    spot: Spot,
    exits: Exits,
) -> Result<bool, Stop> {
    let mut goes_on = true;
    for statement in statements {
        if !goes_on {
            return Err(Stop::NotCovered);
        }
        note_statement(unit, draft, statement, spot.levels)?;
        draft.sheet.tick()?;
        goes_on = put_stmt(unit, draft, statement, spot.inside()?, exits)?;
    }
    Ok(goes_on)
}

#[cycle(draft)]
fn put_stmt(
    unit: Unit,
    draft: &mut Draft,
    statement: &SlotStmt,
    spot: Spot,
    exits: Exits,
) -> Result<bool, Stop> {
    match statement {
        SlotStmt::Empty => {}
        SlotStmt::Assign(place, value) => {
            put_assignment(unit, draft, place, value, spot.inside()?)?;
        }
        SlotStmt::If(arms, otherwise) => {
            match cheap_choice(unit, draft, arms, otherwise)? {
                Some(choice) => put_choice(unit, draft, choice, spot.inside()?)?,
                None => put_if(unit, draft, arms, otherwise, spot.inside()?, exits)?,
            }
        }
        SlotStmt::Case(selector, arms, otherwise) => {
            put_case(
                unit,
                draft,
                selector,
                arms,
                otherwise,
                spot.inside()?,
                exits,
            )?;
        }
        SlotStmt::For {
            control,
            start,
            limit,
            step,
            body,
        } => {
            let turning = Turning {
                control: *control,
                start,
                limit,
                step,
            };
            put_for(unit, draft, turning, body, spot.inside()?, exits)?;
        }
        SlotStmt::While(condition, body) => {
            put_while(unit, draft, condition, body, spot.inside()?, exits)?;
        }
        SlotStmt::Repeat(body, condition) => {
            put_repeat(unit, draft, body, condition, spot.inside()?, exits)?;
        }
        SlotStmt::Exit => {
            draft.leave(exits.out, exits.end)?;
            draft.add_out(true)?;
            return Ok(false);
        }
        SlotStmt::Return => {
            draft.leave(exits.back, exits.end)?;
            draft.add_back(unit, true)?;
            return Ok(false);
        }
        SlotStmt::Invoke(instance, block, arguments) => {
            let invocation = Invocation {
                instance: *instance,
                block: *block,
                arguments,
            };
            put_invocation(unit, draft, invocation, spot.inside()?)?;
        }
    }
    Ok(true)
}

#[cycle(draft)]
fn put_assignment(
    unit: Unit,
    draft: &mut Draft,
    place: &Place,
    value: &SlotExpr,
    spot: Spot,
) -> Result<(), Stop> {
    match variable_of(place) {
        Variable::Whole(anchor) => {
            let slot = unit.slot_of(anchor)?;
            let to = unit.own_word_of(slot)?;
            let kind = put_made(unit, draft, value, spot.inside()?, to)?;
            if kind != unit.kind_at(slot)? {
                return Err(Stop::NotCovered);
            }
            draft.assign(unit, anchor)
        }
        Variable::Element(anchor, subscript) => {
            let from = put_read(unit, draft, value, spot.inside()?)?;
            let index = put_subscript(unit, draft, subscript, spot.after_temporaries(1)?)?;
            if from.kind != unit.kind_at(unit.slot_of(anchor)?)? {
                return Err(Stop::NotCovered);
            }
            put_store(unit, draft, anchor, subscript, index, from.word)
        }
        Variable::Within => {
            let from = put_read(unit, draft, value, spot.inside()?)?;
            let access = Access::Store(from.word);
            let kind = put_within(unit, draft, place, spot.after_temporaries(1)?, access)?;
            if kind != from.kind {
                return Err(Stop::NotCovered);
            }
            Ok(())
        }
    }
}

#[cycle(draft)]
fn put_if(
    unit: Unit,
    draft: &mut Draft,
    arms: &[SlotArm],
    otherwise: &[SlotStmt],
    spot: Spot,
    exits: Exits,
) -> Result<(), Stop> {
    let behind = draft.sheet.mark()?;
    let landing = draft.promise(behind)?;
    let inner = Exits {
        end: behind,
        ..exits
    };
    let mut ways = Ways::new(draft.alloc, draft.known.changes());
    for (number, arm) in arms.iter().enumerate() {
        note_looks(unit, draft, &arm.condition, spot.levels)?;
        let next = draft.sheet.mark()?;
        put_test(
            unit,
            draft,
            &arm.condition,
            Branch::unless(next),
            spot.inside()?,
        )?;
        let is_last = otherwise.is_empty() && arms.len() - number == 1;
        put_arm(
            unit,
            draft,
            &arm.body,
            &mut ways,
            is_last,
            spot.inside()?,
            inner,
        )?;
        draft.sheet.bind(next)?;
    }
    put_arm(
        unit,
        draft,
        otherwise,
        &mut ways,
        true,
        spot.inside()?,
        inner,
    )?;
    draft.sheet.bind(behind)?;
    draft.known.meet(ways)?;
    draft.keep_here(landing)
}

/// The same for statements that are one way of several. The last one goes on to their common end.
#[cycle(draft)]
fn put_arm(
    unit: Unit,
    draft: &mut Draft,
    body: &[SlotStmt],
    ways: &mut Ways<Noting>,
    is_last: bool,
    spot: Spot,
    exits: Exits,
) -> Result<(), Stop> {
    let changes = draft.known.changes();
    let goes_on = put_stmts(unit, draft, body, spot.inside()?, exits)?;
    draft.known.add(ways, goes_on)?;
    if goes_on && !is_last {
        draft.sheet.jump(exits.end)?;
    }
    draft.known.undo(changes);
    Ok(())
}

#[cycle(draft)]
fn put_case(
    unit: Unit,
    draft: &mut Draft,
    selector: &SlotExpr,
    arms: &[SlotCaseArm],
    otherwise: &[SlotStmt],
    spot: Spot,
    exits: Exits,
) -> Result<(), Stop> {
    let behind = draft.sheet.mark()?;
    let landing = draft.promise(behind)?;
    let inner = Exits {
        end: behind,
        ..exits
    };
    let read = put_read(unit, draft, selector, spot.inside()?)?;
    if is_wide(read.kind) {
        return Err(Stop::NotCovered);
    }
    let marks = put_switch(draft, read.word, arms)?;
    let mut ways = Ways::new(draft.alloc, draft.known.changes());
    for (number, arm) in arms.iter().enumerate() {
        if let Some(Some(mark)) = marks.arms.get(number) {
            draft.sheet.bind(*mark)?;
            let is_last = otherwise.is_empty() && number == marks.last;
            put_arm(
                unit,
                draft,
                &arm.body,
                &mut ways,
                is_last,
                spot.inside()?,
                inner,
            )?;
        }
    }
    draft.sheet.bind(marks.others)?;
    put_arm(
        unit,
        draft,
        otherwise,
        &mut ways,
        true,
        spot.inside()?,
        inner,
    )?;
    draft.sheet.bind(behind)?;
    draft.known.meet(ways)?;
    draft.keep_here(landing)
}

/// The marks of the arms of a CASE that some number leads to, and of the statements for all other numbers.
struct Marks {
    arms: Vec<Option<usize>>,
    /// The last arm that some number leads to.
    last: usize,
    others: usize,
}

impl Drop for Marks {
    fn drop(self) {
        let Self {
            arms: _,
            last: _,
            others: _,
        } = self;
    }
}

/// Writes the switch of a CASE.
fn put_switch(draft: &mut Draft, selector: u16, arms: &[SlotCaseArm]) -> Result<Marks, Stop> {
    let cases = cases_of(draft.alloc, arms)?;
    let first = draft.sheet.next_way()?;
    draft.sheet.put(QuickInstr::Switch {
        selector,
        shift: cases.shift,
        first,
        count: narrow(cases.arms.len())?,
    })?;
    let others = draft.sheet.mark()?;
    let mut marks = Marks {
        arms: Vec::new(draft.alloc),
        last: 0,
        others,
    };
    for _ in arms {
        marks.arms.push(None)?;
    }
    for arm in &cases.arms {
        let mark = match arm {
            Some(arm) => {
                marks.last = marks.last.max(*arm);
                mark_of(draft, &mut marks.arms, *arm)?
            }
            None => others,
        };
        draft.sheet.put_way(mark)?;
    }
    draft.sheet.put_way(others)?;
    Ok(marks)
}

/// The mark of an arm, a new one if it has none yet.
fn mark_of(draft: &mut Draft, marks: &mut Vec<Option<usize>>, arm: usize) -> Result<usize, Stop> {
    if arm >= marks.len() {
        return Err(Stop::NotCovered);
    }
    if let Some(mark) = marks[arm] {
        return Ok(mark);
    }
    let mark = draft.sheet.mark()?;
    marks[arm] = Some(mark);
    Ok(mark)
}
