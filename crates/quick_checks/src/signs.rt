//! The code of minus and NOT.

ghost use Rattle.std.specs.Prelude.{◌≡◌, ℕ, IfOk, IfSome, IsTrue, OnOk, pos};
ghost use Rattle.st_types.specs.declared.operator.BinaryOperator.TheVariants.{Subtract};
ghost use Rattle.st_types.specs.Kinds.{greatest};
ghost use Rattle.slot_trees.specs.SlotTrees as tree;
ghost use Rattle.slot_trees.specs.ExpressionViews.{slot_expr_view};
ghost use Rattle.quick_trees.specs.Instructions as instrs;
ghost use Rattle.quick_trees.specs.Pieces.{IsNumberAt, IsInstr, TurnsBits};
ghost use Rattle.quick_trees.specs.Points.{next};
ghost use Rattle.quick_trees.specs.TreeCode.{IsAssignedTo};
ghost use Rattle.quick_checks.specs.Checking.{Always, frame_of, point_of};

use crate::constants::Reading;
use crate::cursor::{Cursor, expect_for, is_instr, step};
use crate::draft::QuickDraft;
use crate::instructions::{instr_by, instr_for};
use crate::reading::check_read;
use crate::refusal::Refusal;
use crate::scope::{Scope, is_kind, narrow};
use slot_trees::{SlotExpr, SlotLibrary};
use st_types::{BinaryOperator, Kind, UnaryOperator, Value};

/// Whether a value is this number of a type.
fn is_number(value: Value, kind: Kind, number: i128) -> bool
    ensures kind { IsTrue result → (value.kind ≡ kind) }
    ensures number { IsTrue result → (value.number ≡ number) }
{
    is_kind(value.kind(), kind) && value.number() == number
}

/// The word of a number of a type that is a constant after the slots.
fn number_at(draft: &QuickDraft, kind: Kind, number: i128) -> Result<u16, Refusal>
    ensures { IfOk result (λ k. (now : ℕ) → IsNumberAt (frame_of draft.now now) kind number k) }
{
    let mut index = 0;
    while index < draft.constants.len() {
        if is_number(draft.constants[index], kind, number) {
            let Some(place) = draft.window.len().checked_add(index) else {
                return Err(Refusal::Other);
            };
            let word = narrow(place)?;
            return Ok(word);
        }
        index += 1;
    }
    Err(Refusal::Other)
}

/// Finds the instruction that subtracts a value from 0: the word of that constant.
fn expect_negated(
    draft: &QuickDraft,
    at: &mut Cursor,
    from: Reading,
    to: u16,
) -> Result<u16, Refusal>
    ensures nought { IfOk result (λ k. (now : ℕ) → IsNumberAt (frame_of draft.now now) from.kind (pos 0) k) }
    ensures stands { IfOk result (λ k. (now : ℕ) → IsInstr (frame_of draft.now now)
        (instrs.instr_for Subtract from.kind k from.word to) at.old.place) }
    ensures next { OnOk result (point_of at.new ≡ next (point_of at.old)) }
{
    let nought = number_at(draft, from.kind, 0)?;
    expect_for(
        draft,
        at,
        instr_for(BinaryOperator::Subtract, from.kind, nought, from.word, to),
    )?;
    Ok(nought)
}

/// The constant that has each bit of a type set, if an instruction can have it.
fn ones_of(kind: Kind) -> Option<i32>
    ensures { IfSome result (λ n. n ≡ greatest kind) }
{
    match i32::try_from(kind.greatest()) {
        Ok(ones) => Some(ones),
        Err(_) => None,
    }
}

/// Finds the instruction that flips each bit of a value.
fn expect_turned(draft: &QuickDraft, at: &mut Cursor, from: Reading, to: u16) -> Result<(), Refusal>
    ensures turns { OnOk result ((now : ℕ) → TurnsBits (frame_of draft.now now) from.kind from.word to at.old.place) }
    ensures next { OnOk result (point_of at.new ≡ next (point_of at.old)) }
{
    let operator = BinaryOperator::Xor;
    if let Some(ones) = ones_of(from.kind) {
        if is_instr(
            draft,
            at,
            instr_by(operator, from.kind, from.word, ones, to),
        ) {
            return step(at);
        }
    }
    let greatest = from.kind.greatest();
    let ones = number_at(draft, from.kind, greatest)?;
    expect_for(
        draft,
        at,
        instr_for(operator, from.kind, from.word, ones, to),
    )?;
    Ok(())
}

/// Finds the code that assigns minus a value to a word, or NOT one: its type.
#[cycle(check)]
pub fn check_unary(
    draft: &QuickDraft,
    library: &SlotLibrary,
    scope: &Scope,
    operator: UnaryOperator,
    operand: &SlotExpr,
    depth: u16,
    to: u16,
    at: &mut Cursor,
) -> Result<Kind, Refusal>
    ensures { IfOk result (λ t. Always draft.now library.now scope.now (λ f s units. IsAssignedTo f s units
        (tree.unary operator (slot_expr_view operand.now)) t depth to (point_of at.old) (point_of at.new))) }
{
    let from = check_read(draft, library, scope, operand, depth, at)?;
    match operator {
        UnaryOperator::Negate => {
            expect_negated(draft, at, from, to)?;
        }
        UnaryOperator::Not => expect_turned(draft, at, from, to)?,
    }
    Ok(from.kind)
}
