//! The slots that a program names: these have words, and all others are left alone.

use crate::blocks::{Invocation, member_at};
use crate::spot::below;
use crate::stop::Stop;
use crate::unit::narrow;
use slot_trees::{
    Anchor, BlockCode, Place, SlotArgument, SlotArm, SlotCaseArm, SlotExpr, SlotLibrary, SlotStmt,
    Subscript,
};
use std::alloc::{AllocError, Global};
use symbols::member_count;

/// How many statements and expressions are looked at in all, those of a block for each call.
const MAX_LOOKED_AT: usize = 8_000_000;

/// The slots that have words, in increasing order, and the word of each.
pub struct Window {
    pub slots: Vec<usize>,
    words: Vec<u16>,
}

impl Drop for Window {
    fn drop(self) {
        let Self { slots: _, words: _ } = self;
    }
}

impl Window {
    /// How many slots have words.
    pub fn count(&self) -> usize {
        self.slots.len()
    }

    /// The word of a slot.
    pub fn word_of(&self, slot: usize) -> Result<u16, Stop> {
        let Some(word) = self.words.get(slot) else {
            return Err(Stop::NotCovered);
        };
        match self.slots.get(*word as usize) {
            Some(there) if *there == slot => Ok(*word),
            Some(_) | None => Err(Stop::NotCovered),
        }
    }

    /// The slots.
    pub fn into_slots(self) -> Vec<usize> {
        let Self { slots, words: _ } = self;
        slots
    }
}

/// The slots that are named so far.
struct Names {
    /// How many slots are named from each one on.
    spans: Vec<usize>,
    left: usize,
}

impl Drop for Names {
    fn drop(self) {
        let Self { spans: _, left: _ } = self;
    }
}

impl Names {
    /// None of `count` slots.
    fn new(alloc: Global, count: usize) -> Result<Names, AllocError> {
        Ok(Names {
            spans: vec![in alloc; 0; count]?,
            left: MAX_LOOKED_AT,
        })
    }

    fn spend(&mut self) -> Result<(), Stop> {
        match self.left.checked_sub(1) {
            Some(left) => {
                self.left = left;
                Ok(())
            }
            None => Err(Stop::NotCovered),
        }
    }

    /// The slots from `first` on, `count` of them, are named.
    fn name(&mut self, first: usize, count: usize) -> Result<(), Stop> {
        if first >= self.spans.len() {
            return Err(Stop::NotCovered);
        }
        if self.spans[first] < count {
            self.spans[first] = count;
        }
        Ok(())
    }

    /// The slots that are named, each with a word.
    fn window(&self, alloc: Global) -> Result<Window, Stop> {
        let mut slots = Vec::new(alloc);
        let mut words = Vec::new(alloc);
        let mut end: usize = 0;
        for slot in 0..self.spans.len() {
            end = end.max(slot.saturating_add(self.spans[slot]));
            words.push(narrow(slots.len())?)?;
            if slot < end {
                slots.push(slot)?;
            }
        }
        Ok(Window { slots, words })
    }
}

/// The slots, among `count`, that a program names whose own variables begin at a base.
pub fn window_of(
    alloc: Global,
    library: &SlotLibrary,
    count: usize,
    base: usize,
    body: &[SlotStmt],
    levels: usize,
) -> Result<Window, Stop> {
    let mut names = Names::new(alloc, count)?;
    name_stmts(library, &mut names, base, body, levels)?;
    names.window(alloc)
}

/// The slot that an anchor means.
fn slot_of(base: usize, anchor: Anchor) -> Result<usize, Stop> {
    match anchor {
        Anchor::Own(offset) => member_at(base, offset),
        Anchor::Absolute(slot) => Ok(slot),
    }
}

/// The number of slots from the first to the last value to which subscripts may lead.
fn span_of(subscripts: &[Subscript]) -> usize {
    let mut behind: usize = 0;
    for subscript in subscripts {
        let last = subscript.count.saturating_sub(1);
        behind = behind.saturating_add(last.saturating_mul(subscript.stride));
    }
    behind.saturating_add(1)
}

#[cycle(name)]
fn name_stmts(
    library: &SlotLibrary,
    names: &mut Names,
    base: usize,
    statements: &[SlotStmt],
    levels: usize,
) -> Result<(), Stop> {
    let inner = below(levels)?;
    for statement in statements {
        name_stmt(library, names, base, statement, inner)?;
    }
    Ok(())
}

#[cycle(name)]
fn name_stmt(
    library: &SlotLibrary,
    names: &mut Names,
    base: usize,
    statement: &SlotStmt,
    levels: usize,
) -> Result<(), Stop> {
    let inner = below(levels)?;
    names.spend()?;
    match statement {
        SlotStmt::Assign(place, value) => {
            name_place(names, base, place, inner)?;
            name_expr(names, base, value, inner)?;
        }
        SlotStmt::If(arms, otherwise) => {
            name_arms(library, names, base, arms, inner)?;
            name_stmts(library, names, base, otherwise, inner)?;
        }
        SlotStmt::Case(selector, arms, otherwise) => {
            name_expr(names, base, selector, inner)?;
            name_case_arms(library, names, base, arms, inner)?;
            name_stmts(library, names, base, otherwise, inner)?;
        }
        SlotStmt::For {
            control,
            start,
            limit,
            step,
            body,
        } => {
            names.name(slot_of(base, *control)?, 1)?;
            name_expr(names, base, start, inner)?;
            name_expr(names, base, limit, inner)?;
            if let Some(step) = step {
                name_expr(names, base, step, inner)?;
            }
            name_stmts(library, names, base, body, inner)?;
        }
        SlotStmt::While(condition, body) | SlotStmt::Repeat(body, condition) => {
            name_expr(names, base, condition, inner)?;
            name_stmts(library, names, base, body, inner)?;
        }
        SlotStmt::Invoke(instance, block, arguments) => {
            let invocation = Invocation {
                instance: *instance,
                block: *block,
                arguments,
            };
            name_invocation(library, names, base, invocation, inner)?;
        }
        SlotStmt::Empty | SlotStmt::Exit | SlotStmt::Return => {}
    }
    Ok(())
}

#[cycle(name)]
fn name_arms(
    library: &SlotLibrary,
    names: &mut Names,
    base: usize,
    arms: &[SlotArm],
    levels: usize,
) -> Result<(), Stop> {
    let inner = below(levels)?;
    for arm in arms {
        name_expr(names, base, &arm.condition, inner)?;
        name_stmts(library, names, base, &arm.body, inner)?;
    }
    Ok(())
}

#[cycle(name)]
fn name_case_arms(
    library: &SlotLibrary,
    names: &mut Names,
    base: usize,
    arms: &[SlotCaseArm],
    levels: usize,
) -> Result<(), Stop> {
    let inner = below(levels)?;
    for arm in arms {
        name_stmts(library, names, base, &arm.body, inner)?;
    }
    Ok(())
}

/// The members and the variables of a call, and the slots that the block names on the instance.
#[cycle(name)]
fn name_invocation(
    library: &SlotLibrary,
    names: &mut Names,
    base: usize,
    invocation: Invocation,
    levels: usize,
) -> Result<(), Stop> {
    let inner = below(levels)?;
    let first = slot_of(base, invocation.instance)?;
    for argument in invocation.arguments {
        name_argument(names, base, first, argument, inner)?;
    }
    match invocation.block {
        BlockCode::Own(number) => match library.blocks.get(number) {
            Some(Some(body)) => name_stmts(library, names, first, body, inner),
            Some(None) | None => Err(Stop::NotCovered),
        },
        BlockCode::Standard(block) => names.name(first, member_count(block)),
    }
}

fn name_argument(
    names: &mut Names,
    base: usize,
    first: usize,
    argument: &SlotArgument,
    levels: usize,
) -> Result<(), Stop> {
    match argument {
        SlotArgument::Given(member, value) => {
            names.name(member_at(first, *member)?, 1)?;
            name_expr(names, base, value, levels)
        }
        SlotArgument::Copied(member, place) => {
            names.name(member_at(first, *member)?, 1)?;
            name_place(names, base, place, levels)
        }
    }
}

#[cycle(named_expression)]
fn name_expr(
    names: &mut Names,
    base: usize,
    expression: &SlotExpr,
    levels: usize,
) -> Result<(), Stop> {
    let inner = below(levels)?;
    names.spend()?;
    match expression {
        SlotExpr::Constant(_) => {}
        SlotExpr::Load(place) => name_place(names, base, place, inner)?,
        SlotExpr::Compute(_, arguments) | SlotExpr::Call(_, arguments) => {
            for argument in arguments {
                name_expr(names, base, argument, inner)?;
            }
        }
        SlotExpr::Unary(_, operand) => name_expr(names, base, operand, inner)?,
        SlotExpr::Binary(_, operands) => {
            name_expr(names, base, &operands.left, inner)?;
            name_expr(names, base, &operands.right, inner)?;
        }
    }
    Ok(())
}

/// A variable, or all values to which its subscripts may lead, and the slots that these name.
#[cycle(named_expression)]
fn name_place(names: &mut Names, base: usize, place: &Place, levels: usize) -> Result<(), Stop> {
    let inner = below(levels)?;
    names.name(slot_of(base, place.anchor)?, span_of(&place.subscripts))?;
    for subscript in &place.subscripts {
        name_expr(names, base, &subscript.index, inner)?;
    }
    Ok(())
}
