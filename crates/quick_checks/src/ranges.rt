//! Numbers of a type, which are assigned if the type has them.

ghost use Rattle.std.specs.Prelude.{◌≡◌, ◌<◌, ℕ, IfOk, IfSome, OnOk, Some, pos, slice_get, suc};
ghost use Rattle.st_types.specs.declared.kind.Kind.TheVariants.{Lint};
ghost use Rattle.slot_trees.specs.ExpressionViews.{slot_expr_view};
ghost use Rattle.quick_trees.specs.Functions.{IsMovedWithin};
ghost use Rattle.quick_trees.specs.Instructions as instrs;
ghost use Rattle.quick_trees.specs.Pieces.{IsNumber, IsNumberAt, IsInstr};
ghost use Rattle.quick_trees.specs.Points.{next};
ghost use Rattle.quick_checks.specs.Checking.{frame_of, point_of};

use crate::constants::{Reading, number_for};
use crate::cursor::{Cursor, expect, expect_for, is_instr};
use crate::draft::QuickDraft;
use crate::instructions::instr_by;
use crate::refusal::Refusal;
use crate::scope::{is_kind, narrow};
use quick_code::QuickInstr;
use slot_trees::SlotExpr;
use st_types::{BinaryOperator, Kind, is_wide};

/// The word of the constant that is a number of a type.
pub fn constant_of(draft: &QuickDraft, kind: Kind, number: i128) -> Result<u16, Refusal>
    ensures { IfOk result (λ k. (now : ℕ) → IsNumberAt (frame_of draft.now now) kind number k) }
{
    let mut index = 0;
    while index < draft.constants.len() {
        let value = draft.constants[index];
        if is_kind(value.kind(), kind) && value.number() == number {
            let Some(place) = draft.window.len().checked_add(index) else {
                return Err(Refusal::Other);
            };
            let word = narrow(place)?;
            return Ok(word);
        }
        index += 1;
    }
    Err(Refusal::Other)
}

/// The same for a number without a sign.
pub fn natural_of(draft: &QuickDraft, kind: Kind, number: u64) -> Result<u16, Refusal>
    ensures { IfOk result (λ k. (now : ℕ) → IsNumberAt (frame_of draft.now now) kind (pos number) k) }
{
    let word = constant_of(draft, kind, number as i128)?;
    Ok(word)
}

/// Finds the instruction that assigns a word if it is a number of a type.
pub fn expect_within(
    draft: &QuickDraft,
    kind: Kind,
    from: u16,
    to: u16,
    at: &mut Cursor,
) -> Result<(), Refusal>
    ensures moves { OnOk result
        ((now : ℕ) → IsMovedWithin (frame_of draft.now now) kind from to at.old.place) }
    ensures next { OnOk result (point_of at.new ≡ next (point_of at.old)) }
{
    if is_wide(kind) {
        return Err(Refusal::Other);
    }
    let least = constant_of(draft, kind, kind.least())?;
    let greatest = constant_of(draft, kind, kind.greatest())?;
    expect(
        draft,
        at,
        QuickInstr::MoveWithin {
            from,
            least,
            greatest,
            to,
        },
    )
}

/// Finds the instruction of an operation, which assigns a temporary, and the one that assigns this if it is a number of a
/// type.
pub fn expect_kept(
    draft: &QuickDraft,
    kind: Kind,
    instr: Option<QuickInstr>,
    depth: u16,
    to: u16,
    at: &mut Cursor,
) -> Result<(), Refusal>
    ensures there { OnOk result (depth < draft.now.words) }
    ensures stands { OnOk result ((now : ℕ) → IsInstr (frame_of draft.now now) instr at.old.place) }
    ensures moves { OnOk result
        ((now : ℕ) → IsMovedWithin (frame_of draft.now now) kind depth to (suc at.old.place)) }
    ensures next { OnOk result (point_of at.new ≡ next (next (point_of at.old))) }
{
    if (depth as usize) >= draft.words {
        return Err(Refusal::Other);
    }
    expect_for(draft, at, instr)?;
    expect_within(draft, kind, depth, to, at)
}

/// The constant with which the instruction here assigns to a temporary the result of an operator, as of two LINT, on a word
/// and an expression.
pub fn constant_as_lint(
    draft: &QuickDraft,
    at: &Cursor,
    operator: BinaryOperator,
    left: Reading,
    right: &SlotExpr,
    depth: u16,
) -> Option<i32>
    ensures there { IfSome result (λ w. depth < draft.now.words) }
    ensures number { IfSome result (λ w. IsNumber (slot_expr_view right.now) left.kind w) }
    ensures stands { IfSome result (λ w. (now : ℕ) → IsInstr (frame_of draft.now now)
        (instrs.instr_by operator Lint left.word w depth) at.now.place) }
{
    let word = number_for(right, left.kind)?;
    if (depth as usize) < draft.words
        && is_instr(
            draft,
            at,
            instr_by(operator, Kind::Lint, left.word, word, depth),
        )
    {
        Some(word)
    } else {
        None
    }
}
