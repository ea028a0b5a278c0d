//! The code of calls of blocks.

use crate::draft::Draft;
use crate::known::Ways;
use crate::notes::note_looks;
use crate::places::{Variable, read_variable, variable_of};
use crate::reading::put_read;
use crate::spot::Spot;
use crate::statements::{Exits, put_stmts};
use crate::stop::Stop;
use crate::unit::{Unit, Values};
use quick_code::QuickInstr;
use slot_trees::{Anchor, BlockCode, SlotArgument};
use symbols::{StandardBlock, member_count};

/// A call of a block: its instance, the block, and the arguments.
#[derive(Clone, Copy)]
pub struct Invocation<'a> {
    pub instance: Anchor,
    pub block: BlockCode,
    pub arguments: &'a [SlotArgument],
}

/// An input that was read: the slot of its member and the word of that, and the word that has its value.
#[derive(Clone, Copy)]
struct Input {
    slot: usize,
    to: u16,
    word: u16,
}

/// The slot of a member.
pub fn member_at(first: usize, member: usize) -> Result<usize, Stop> {
    first.checked_add(member).ok_or(Stop::NotCovered)
}

/// Writes the code of a call of a block: inputs are read and then given, the block runs, and outputs are copied.
#[cycle(draft)]
pub fn put_invocation(
    unit: Unit,
    draft: &mut Draft,
    invocation: Invocation,
    spot: Spot,
) -> Result<(), Stop> {
    if !unit.is_noted() {
        return Err(Stop::NotCovered);
    }
    let first = unit.slot_of(invocation.instance)?;
    let inputs = put_inputs(unit, draft, first, invocation.arguments, spot.inside()?)?;
    for input in &inputs {
        give(unit, draft, input.slot, input.word)?;
    }
    match invocation.block {
        BlockCode::Own(number) => put_block(unit, draft, number, first, spot.inside()?)?,
        BlockCode::Standard(block) => put_step(unit, draft, block, first)?,
    }
    copy_outputs(unit, draft, first, invocation.arguments)
}

/// Reads the inputs one after another.
#[cycle(draft)]
fn put_inputs(
    unit: Unit,
    draft: &mut Draft,
    first: usize,
    arguments: &[SlotArgument],
    spot: Spot,
) -> Result<Vec<Input>, Stop> {
    let mut inputs: Vec<Input> = Vec::new(draft.alloc);
    for argument in arguments {
        if let SlotArgument::Given(member, value) = argument {
            let slot = member_at(first, *member)?;
            let place = spot.after_temporaries(inputs.len())?;
            let read = put_read(unit, draft, value, place)?;
            if read.kind != unit.kind_at(slot)? {
                return Err(Stop::NotCovered);
            }
            let word = kept(draft, &inputs, read.word, place)?;
            let to = unit.own_word_of(slot)?;
            inputs.push(Input { slot, to, word })?;
        }
    }
    Ok(inputs)
}

/// A word to which no earlier input is given.
fn kept(draft: &mut Draft, inputs: &[Input], word: u16, spot: Spot) -> Result<u16, Stop> {
    let mut is_given = false;
    for input in inputs {
        if input.to == word {
            is_given = true;
        }
    }
    if !is_given {
        return Ok(word);
    }
    let to = draft.temporary(spot.depth);
    draft.sheet.put(QuickInstr::Move { from: word, to })?;
    Ok(to)
}

/// Moves a word to a variable.
fn give(unit: Unit, draft: &mut Draft, slot: usize, word: u16) -> Result<(), Stop> {
    draft.sheet.put(QuickInstr::Move {
        from: word,
        to: unit.own_word_of(slot)?,
    })?;
    draft.assign(unit, Anchor::Absolute(slot))
}

/// Writes the code of a block of the text on an instance.
#[cycle(draft)]
fn put_block(
    unit: Unit,
    draft: &mut Draft,
    number: usize,
    first: usize,
    spot: Spot,
) -> Result<(), Stop> {
    let Some(calls) = unit.calls.checked_sub(1) else {
        return Err(Stop::NotCovered);
    };
    let body = unit.block_at(number)?;
    let values = Values::Whole(first);
    let inner = Unit {
        values: &values,
        calls,
        ..unit
    };
    let last = draft.sheet.mark()?;
    let landing = draft.promise(last)?;
    let ways = Ways::new(draft.alloc, draft.known.changes());
    draft.backs.push(ways)?;
    let exits = Exits {
        out: last,
        back: last,
        end: last,
    };
    let goes_on = put_stmts(inner, draft, body, spot.inside()?, exits)?;
    draft.add_back(inner, goes_on)?;
    let Some(ways) = draft.backs.pop() else {
        return Err(Stop::NotCovered);
    };
    draft.sheet.bind(last)?;
    draft.known.meet(ways)?;
    draft.keep_here(landing)
}

/// Writes the instruction by which a standard block steps: all members are looked up, and then all are assigned.
fn put_step(unit: Unit, draft: &mut Draft, block: StandardBlock, first: usize) -> Result<(), Stop> {
    let count = member_count(block);
    draft.sheet.put(QuickInstr::Step {
        block,
        first: unit.own_word_of(first)?,
    })?;
    for member in 0..count {
        draft.look(unit, member_at(first, member)?)?;
    }
    for member in 0..count {
        draft.assign(unit, Anchor::Absolute(member_at(first, member)?))?;
    }
    Ok(())
}

/// Copies the outputs, with notes before each.
fn copy_outputs(
    unit: Unit,
    draft: &mut Draft,
    first: usize,
    arguments: &[SlotArgument],
) -> Result<(), Stop> {
    for argument in arguments {
        if let SlotArgument::Copied(member, place) = argument {
            let Variable::Whole(target) = variable_of(place) else {
                return Err(Stop::NotCovered);
            };
            let from = member_at(first, *member)?;
            let to = unit.slot_of(target)?;
            draft.note_look(unit.own_word_of(from)?)?;
            draft.note_assignment(unit.own_word_of(to)?)?;
            let read = read_variable(unit, draft, Anchor::Absolute(from))?;
            if read.kind != unit.kind_at(to)? {
                return Err(Stop::NotCovered);
            }
            give(unit, draft, to, read.word)?;
        }
    }
    Ok(())
}

/// Notes the looks and assignments that a call surely does before its first branch: a block of the text notes for itself.
pub fn note_invocation(
    unit: Unit,
    draft: &mut Draft,
    invocation: Invocation,
    levels: usize,
) -> Result<(), Stop> {
    let first = unit.slot_of(invocation.instance)?;
    for argument in invocation.arguments {
        if let SlotArgument::Given(_, value) = argument {
            note_looks(unit, draft, value, levels)?;
        }
    }
    for argument in invocation.arguments {
        if let SlotArgument::Given(member, _) = argument {
            draft.note_assignment(unit.own_word_of(member_at(first, *member)?)?)?;
        }
    }
    if let BlockCode::Standard(block) = invocation.block {
        for member in 0..member_count(block) {
            let word = unit.own_word_of(member_at(first, member)?)?;
            draft.note_look(word)?;
            draft.note_assignment(word)?;
        }
    }
    Ok(())
}
