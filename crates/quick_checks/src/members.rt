//! The members of an instance of a block, when it is called.

ghost use Rattle.std.specs.Prelude.{◌≡◌, ◌≤◌, ◌∷◌, ◌++◌, ◌+◌, [], ℕ, List, IfOk, IsTrue, OnOk, Some, map, slice_get};
ghost use Rattle.symbols.specs.Standard.{block_view};
ghost use Rattle.st_meaning.specs.StandardBlocks.{members_of};
ghost use Rattle.slot_trees.specs.SlotTrees as tree;
ghost use Rattle.slot_trees.specs.StatementViews.{slot_argument_view};
ghost use Rattle.quick_code.specs.declared.quick_instr.QuickInstr.TheVariants as instrs;
ghost use Rattle.quick_trees.specs.Calls.{AreMembers, IsStepped};
ghost use Rattle.quick_trees.specs.Notes as notes;
ghost use Rattle.quick_trees.specs.Notes.{NotesChange};
ghost use Rattle.quick_trees.specs.Points.{Point};
ghost use Rattle.quick_trees.specs.TreeCode.{InputsGiven, IsGiven, OutputsCopied};
ghost use Rattle.quick_checks.specs.Checking.{Ever, frame_of, inputs_taken, point_of};
ghost use Rattle.quick_checks.specs.Members.{IsMember};

use crate::constants::Reading;
use crate::cursor::{Cursor, assign, expect, instr_at, look, read_notes, step};
use crate::draft::QuickDraft;
use crate::expressions::{read_slot, variable_of};
use crate::refusal::Refusal;
use crate::scope::{Values, is_kind, kind_at, narrow, own_word_of, slot_of, word_in};
use quick_code::QuickInstr;
use slot_trees::SlotArgument;
use st_types::Kind;
use std::alloc::AllocError;
use symbols::{StandardBlock, member_count};

/// An input that a call gives: its member, by its distance from the first slot of the instance, its type, and the word that
/// has its value.
#[derive(Clone, Copy)]
pub struct Taken {
    pub member: usize,
    pub kind: Kind,
    pub word: u16,
}

/// Appends an input.
pub fn put_taken(inputs: &mut Vec<Taken>, member: usize, read: Reading) -> Result<(), AllocError>
    ensures { OnOk result (inputs.new.items ≡ inputs.old.items
        ++ record { member = member; kind = read.kind; word = read.word } ∷ []) }
{
    inputs.push(Taken {
        member,
        kind: read.kind,
        word: read.word,
    })?;
    Ok(())
}

/// Whether the input at an index is not in a word.
fn is_elsewhere(inputs: &[Taken], index: usize, word: u16) -> bool
    ensures { IsTrue result → (i : Taken) → slice_get inputs.now index ≡ Some i → i.word ≡ word → ⊥ }
{
    match inputs.get(index) {
        Some(input) => input.word != word,
        None => true,
    }
}

/// Whether no input from an index on is in a word.
fn are_elsewhere(inputs: &[Taken], from: usize, word: u16) -> bool
    ensures { IsTrue result → (j : ℕ) → from ≤ j → (i : Taken) → slice_get inputs.now j ≡ Some i → i.word ≡ word → ⊥ }
{
    let mut index = 0;
    while index < inputs.len() {
        if from <= index && !is_elsewhere(inputs, index, word) {
            return false;
        }
        index += 1;
    }
    true
}

/// Finds the instruction that moves a word to the word of a variable: that word.
fn give(
    draft: &QuickDraft,
    values: &Values,
    slot: usize,
    given: Reading,
    at: &mut Cursor,
) -> Result<u16, Refusal>
    ensures { IfOk result (λ to. Ever draft.now values.now (λ f s units. IsGiven f s units slot given.kind given.word
        to (point_of at.old) (point_of at.new))) }
{
    let kind = kind_at(draft, values, slot)?;
    let to = own_word_of(draft, values, slot)?;
    if !is_kind(kind, given.kind) {
        return Err(Refusal::Other);
    }
    let from = given.word;
    expect(draft, at, QuickInstr::Move { from, to })?;
    assign(values, at, to)?;
    Ok(to)
}

/// The input at an index.
fn input_at(inputs: &[Taken], index: usize) -> Result<Taken, Refusal>
    ensures { IfOk result (λ i. slice_get inputs.now index ≡ Some i) }
{
    match inputs.get(index) {
        Some(input) => Ok(*input),
        None => Err(Refusal::Other),
    }
}

/// Finds the code that moves the inputs to the members of an instance, one after another. None is in the word of a member
/// that took one before.
pub fn check_given(
    draft: &QuickDraft,
    values: &Values,
    first: usize,
    inputs: &[Taken],
    at: &mut Cursor,
) -> Result<(), Refusal>
    ensures { OnOk result (Ever draft.now values.now (λ f s units. InputsGiven f s units first
        (inputs_taken inputs.now) (point_of at.old) (point_of at.new))) }
{
    let mut index = 0;
    while index < inputs.len() {
        let input = input_at(inputs, index)?;
        let Some(slot) = first.checked_add(input.member) else {
            return Err(Refusal::Other);
        };
        let given = Reading {
            kind: input.kind,
            word: input.word,
        };
        let to = give(draft, values, slot, given, at)?;
        if !are_elsewhere(inputs, index + 1, to) {
            return Err(Refusal::Other);
        }
        index += 1;
    }
    Ok(())
}

/// Finds the code that copies the outputs of an instance, one after another.
pub fn check_copied(
    draft: &QuickDraft,
    values: &Values,
    first: usize,
    arguments: &[SlotArgument],
    at: &mut Cursor,
) -> Result<(), Refusal>
    ensures { OnOk result (Ever draft.now values.now (λ f s units. OutputsCopied f s units first
        (map slot_argument_view arguments.now) (point_of at.old) (point_of at.new))) }
{
    let mut index = 0;
    while index < arguments.len() {
        check_output(draft, values, first, &arguments[index], at)?;
        index += 1;
    }
    Ok(())
}

/// The same for an argument, before others.
fn check_output(
    draft: &QuickDraft,
    values: &Values,
    first: usize,
    argument: &SlotArgument,
    at: &mut Cursor,
) -> Result<(), Refusal>
    ensures { OnOk result (Ever draft.now values.now (λ f s units. (rest : List tree.SlotArgument) (q : Point)
        → OutputsCopied f s units first rest (point_of at.new) q
        → OutputsCopied f s units first (slot_argument_view argument.now ∷ rest) (point_of at.old) q)) }
{
    let SlotArgument::Copied(member, place) = argument else {
        return Ok(());
    };
    let (Some(target), Some(from)) = (variable_of(place), first.checked_add(*member)) else {
        return Err(Refusal::Other);
    };
    read_notes(draft, at)?;
    let slot = slot_of(values, target)?;
    let read = read_slot(draft, values, from, at)?;
    let _to = give(draft, values, slot, read, at)?;
    Ok(())
}

/// Whether the slots from a first one on are of these types, and their words begin at a word.
fn are_kinds(draft: &QuickDraft, first: usize, word: u16, kinds: &[Kind]) -> bool
    ensures { IsTrue result → (k : ℕ) (t : Kind) → slice_get kinds.now k ≡ Some t
        → IsMember (frame_of draft.now 0) (first + k) (word + k) t }
{
    let mut index = 0;
    while index < kinds.len() {
        if !is_of(draft, first, word, kinds, index) {
            return false;
        }
        index += 1;
    }
    true
}

/// Whether the slot at a distance from a first one is of the type at that index, and has the word at that distance.
fn is_of(draft: &QuickDraft, first: usize, word: u16, kinds: &[Kind], index: usize) -> bool
    ensures { IsTrue result → (t : Kind) → slice_get kinds.now index ≡ Some t
        → IsMember (frame_of draft.now 0) (first + index) (word + index) t }
{
    let (Some(kind), Some(slot), Some(place)) = (
        kinds.get(index),
        first.checked_add(index),
        (word as usize).checked_add(index),
    ) else {
        return false;
    };
    let (Some(there), Ok(its_word)) = (draft.kinds.get(slot), word_in(draft, slot)) else {
        return false;
    };
    is_kind(*there, *kind) && its_word as usize == place
}

/// Whether the members of a standard block are the slots from one on, and their words begin at a word.
fn are_members(draft: &QuickDraft, block: StandardBlock, first: usize, word: u16) -> bool
    ensures { IsTrue result → (now : ℕ)
        → AreMembers (frame_of draft.now now) (members_of (block_view block)) first word }
{
    match block {
        StandardBlock::Sr | StandardBlock::Rs | StandardBlock::RTrig | StandardBlock::FTrig => {
            are_kinds(draft, first, word, &[Kind::Bool, Kind::Bool, Kind::Bool])
        }
        StandardBlock::Ctu | StandardBlock::Ctd => are_kinds(
            draft,
            first,
            word,
            &[
                Kind::Bool,
                Kind::Bool,
                Kind::Int,
                Kind::Bool,
                Kind::Int,
                Kind::Bool,
            ],
        ),
        StandardBlock::Ton | StandardBlock::Tof | StandardBlock::Tp => are_kinds(
            draft,
            first,
            word,
            &[
                Kind::Bool,
                Kind::Time,
                Kind::Bool,
                Kind::Time,
                Kind::Bool,
                Kind::Time,
            ],
        ),
        StandardBlock::Ctud => are_kinds(
            draft,
            first,
            word,
            &[
                Kind::Bool,
                Kind::Bool,
                Kind::Bool,
                Kind::Bool,
                Kind::Int,
                Kind::Bool,
                Kind::Bool,
                Kind::Int,
                Kind::Bool,
                Kind::Bool,
            ],
        ),
    }
}

/// Whether the instruction here steps a standard block on an instance whose words begin at a word.
fn steps(draft: &QuickDraft, at: &Cursor, block: StandardBlock, word: u16) -> bool
    ensures { IsTrue result → slice_get draft.now.code.instrs.items at.now.place ≡ Some (instrs.Step block word) }
{
    match instr_at(draft, at.place) {
        Ok(
            QuickInstr::Step {
                block: there,
                first,
            },
        ) => is_block(there, block) && first == word,
        _ => false,
    }
}

/// Whether two standard blocks are the same.
fn is_block(one: StandardBlock, other: StandardBlock) -> bool
    ensures { IsTrue result → (one ≡ other) }
{
    one == other
}

/// Finds the instruction by which a standard block steps: all members are looked up, and then all are assigned.
pub fn check_step(
    draft: &QuickDraft,
    block: StandardBlock,
    first: usize,
    at: &mut Cursor,
) -> Result<(), Refusal>
    ensures { OnOk result ((now : ℕ)
        → IsStepped (frame_of draft.now now) (block_view block) first (point_of at.old) (point_of at.new)) }
{
    let word = word_in(draft, first)?;
    if !are_members(draft, block, first, word) {
        return Err(Refusal::Other);
    }
    if !steps(draft, at, block, word) {
        return Err(Refusal::Other);
    }
    step(at)?;
    let count = member_count(block);
    look_all(at, word, count)?;
    assign_all(at, word, count)?;
    Ok(())
}

/// The word at a distance after another one.
fn word_after(first: u16, index: usize) -> Result<u16, Refusal>
    ensures { IfOk result (λ w. w ≡ first + index) }
{
    match (first as usize).checked_add(index) {
        Some(place) => narrow(place),
        None => Err(Refusal::Other),
    }
}

/// The values of `count` words are looked up here, one after another.
fn look_all(at: &mut Cursor, first: u16, count: usize) -> Result<(), Refusal>
    ensures same { OnOk result (point_of at.new ≡ record (point_of at.old) { noted = at.new.noted.items }) }
    ensures looks { OnOk result (NotesChange notes.at_look first count at.old.noted.items at.new.noted.items) }
{
    let slots = Values::Whole(0);
    let mut index = 0;
    while index < count {
        let word = word_after(first, index)?;
        look(&slots, at, word)?;
        index += 1;
    }
    Ok(())
}

/// The values of `count` words are assigned here, one after another.
fn assign_all(at: &mut Cursor, first: u16, count: usize) -> Result<(), Refusal>
    ensures same { OnOk result (point_of at.new ≡ record (point_of at.old) { noted = at.new.noted.items }) }
    ensures assigns { OnOk result
        (NotesChange notes.at_assignment first count at.old.noted.items at.new.noted.items) }
{
    let slots = Values::Whole(0);
    let mut index = 0;
    while index < count {
        let word = word_after(first, index)?;
        assign(&slots, at, word)?;
        index += 1;
    }
    Ok(())
}
