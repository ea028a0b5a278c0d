//! The code before the body of a function in the place of its call.

ghost use Rattle.std.specs.Prelude.{◌≡◌, ◌<◌, ◌+◌, ℕ, IfNone, IfOk, IfSome, IsTrue, OnSome, Some, length, map, slice_get};
ghost use Rattle.st_types.specs.declared.kind.Kind.{Kind};
ghost use Rattle.st_types.specs.Values.{Datum, IsHeld};
ghost use Rattle.st_types.specs.Words.{datum_at};
ghost use Rattle.quick_code.specs.declared.quick_instr.QuickInstr.TheVariants as instrs;
ghost use Rattle.slot_trees.specs.LibraryViews.{slot_function_view};
ghost use Rattle.quick_trees.specs.Calls.{AreBegun, AreInputs, IsBegun, IsInput, kinds_in};
ghost use Rattle.quick_checks.specs.Checking.{frame_of, kinds_read, point_of, seat_of, words_read};

use crate::constants::Reading;
use crate::cursor::{Cursor, expect, instr_at, step};
use crate::draft::QuickDraft;
use crate::refusal::Refusal;
use crate::scope::{FunctionWord, is_kind, narrow};
use quick_code::{QuickInstr, is_same};
use slot_trees::SlotFunction;
use st_types::{Kind, Value};

/// The first of the inputs that is a value.
fn input_of(function: &SlotFunction, slot: usize) -> Option<usize>
    ensures found { IfSome result (λ i. slice_get (slot_function_view function.now).inputs i ≡ Some slot) }
    ensures first { IfSome result (λ i. (j : ℕ) → slice_get (slot_function_view function.now).inputs j ≡ Some slot
        → j < i → ⊥) }
    ensures none { IfNone result ((i : ℕ) → slice_get (slot_function_view function.now).inputs i ≡ Some slot → ⊥) }
{
    let mut index = 0;
    while index < function.inputs.len() {
        if function.inputs[index] == slot {
            return Some(index);
        }
        index += 1;
    }
    None
}

/// The value that an input is, if it is the first input that is this value.
#[tactic(auto, using(crate::proofs::Inputs::kind_there))]
fn value_of_input(function: &SlotFunction, index: usize) -> Option<Value>
    ensures there { IfSome result (λ v. (k : ℕ) → slice_get (slot_function_view function.now).inputs index ≡ Some k
        → slice_get (slot_function_view function.now).fresh k ≡ Some v) }
    ensures kind { IfSome result (λ v. (k : ℕ) → slice_get (slot_function_view function.now).inputs index ≡ Some k
        → slice_get (kinds_in (slot_function_view function.now)) k ≡ Some v.kind) }
    ensures first { OnSome result ((j k : ℕ) → slice_get (slot_function_view function.now).inputs index ≡ Some k
        → slice_get (slot_function_view function.now).inputs j ≡ Some k → j < index → ⊥) }
{
    let slot = *function.inputs.get(index)?;
    if input_of(function, slot) != Some(index) {
        return None;
    }
    Some(*function.fresh.get(slot)?)
}

/// Whether the argument at an index is of the type of its input, which isn't an earlier one.
fn is_input(function: &SlotFunction, read: &[Reading], index: usize) -> bool
    ensures typed { IsTrue result → (k : ℕ) (t : Kind)
        → slice_get (slot_function_view function.now).inputs index ≡ Some k
        → slice_get (kinds_in (slot_function_view function.now)) k ≡ Some t
        → slice_get (kinds_read read.now) index ≡ Some t }
    ensures there { IsTrue result → (k : ℕ) → slice_get (slot_function_view function.now).inputs index ≡ Some k
        → (v : Datum) × (slice_get (slot_function_view function.now).fresh k ≡ Some v) }
    ensures first { IsTrue result → (j k : ℕ) → slice_get (slot_function_view function.now).inputs index ≡ Some k
        → slice_get (slot_function_view function.now).inputs j ≡ Some k → j < index → ⊥ }
{
    let (Some(value), Some(kind)) = (value_of_input(function, index), kind_at(read, index)) else {
        return false;
    };
    is_kind(kind, value.kind())
}

/// The type of an argument.
#[tactic(auto, using(crate::proofs::Inputs::kind_read))]
fn kind_at(read: &[Reading], index: usize) -> Option<Kind>
    ensures { IfSome result (λ t. slice_get (kinds_read read.now) index ≡ Some t) }
{
    match read.get(index) {
        Some(argument) => Some(argument.kind),
        None => None,
    }
}

/// Whether arguments are of the types of the inputs, and no value is two inputs.
pub fn are_inputs(function: &SlotFunction, read: &[Reading]) -> bool
    ensures { IsTrue result → AreInputs (slot_function_view function.now) (kinds_read read.now) (words_read read.now) }
{
    if read.len() != function.inputs.as_slice().len() {
        return false;
    }
    let mut index = 0;
    while index < read.len() {
        if !is_input(function, read, index) {
            return false;
        }
        index += 1;
    }
    true
}

/// The constant that the instruction here assigns to a word, if it is a value.
fn set_here(draft: &QuickDraft, at: &Cursor, value: Value, to: u16) -> Option<i32>
    ensures value { IfSome result (λ w. value ≡ datum_at value.kind w) }
    ensures held { OnSome result (IsHeld value) }
    ensures stands { IfSome result (λ w. slice_get draft.now.code.instrs.items at.now.place ≡ Some (instrs.Set w to)) }
{
    let Ok(constant) = i32::try_from(value.word()) else {
        return None;
    };
    match instr_at(draft, at.place) {
        Ok(there) if is_same(there, QuickInstr::Set { constant, to }) => Some(constant),
        _ => None,
    }
}

/// A value of a function.
fn fresh_at(function: &SlotFunction, slot: usize) -> Result<Value, Refusal>
    ensures { IfOk result (λ v. slice_get (slot_function_view function.now).fresh slot ≡ Some v) }
{
    match function.fresh.get(slot) {
        Some(value) => Ok(*value),
        None => Err(Refusal::Other),
    }
}

/// The word of an argument.
#[tactic(auto, using(crate::proofs::Inputs::word_read))]
fn word_at(read: &[Reading], index: usize) -> Result<u16, Refusal>
    ensures { IfOk result (λ w. slice_get (words_read read.now) index ≡ Some w) }
{
    match read.get(index) {
        Some(argument) => Ok(argument.word),
        None => Err(Refusal::Other),
    }
}

/// A value of a function is begun: an input may stay where its argument is, or is moved; any other value is set.
fn begin_one(
    draft: &QuickDraft,
    at: &mut Cursor,
    function: &SlotFunction,
    read: &[Reading],
    start: u16,
    slot: usize,
) -> Result<FunctionWord, Refusal>
    ensures { IfOk result (λ s. (now : ℕ) → IsBegun (frame_of draft.now now) (slot_function_view function.now)
        (words_read read.now) start slot (seat_of s) (point_of at.old) (point_of at.new)) }
{
    let Some(own) = (start as usize).checked_add(slot) else {
        return Err(Refusal::Other);
    };
    let word = narrow(own)?;
    let Some(index) = input_of(function, slot) else {
        let value = fresh_at(function, slot)?;
        let Some(_) = set_here(draft, at, value, word) else {
            return Err(Refusal::Other);
        };
        step(at)?;
        return Ok(FunctionWord { word, is_own: true });
    };
    let argument = word_at(read, index)?;
    let moved = QuickInstr::Move {
        from: argument,
        to: word,
    };
    if !is_same(instr_at(draft, at.place)?, moved) {
        return Ok(FunctionWord {
            word: argument,
            is_own: false,
        });
    }
    expect(draft, at, moved)?;
    Ok(FunctionWord { word, is_own: true })
}

/// The values of a function are begun.
pub fn begin(
    draft: &QuickDraft,
    at: &mut Cursor,
    function: &SlotFunction,
    read: &[Reading],
    start: u16,
) -> Result<Vec<FunctionWord>, Refusal>
    ensures begun { IfOk result (λ v. (now : ℕ) → AreBegun (frame_of draft.now now) (slot_function_view function.now)
        (words_read read.now) start 0 (map seat_of v.items) (point_of at.old) (point_of at.new)) }
    ensures all { IfOk result (λ v. length v.items ≡ length (slot_function_view function.now).fresh) }
{
    let mut seats = Vec::new(at.alloc);
    let mut slot = 0;
    while slot < function.fresh.len() {
        seats.push(begin_one(draft, at, function, read, start, slot)?)?;
        slot += 1;
    }
    if seats.as_slice().len() != function.fresh.as_slice().len() {
        return Err(Refusal::Other);
    }
    Ok(seats)
}
