//! The code of conditions.

ghost use Rattle.std.specs.Prelude.{◌≡◌, ℕ, IfOk, IfSome, Some, slice_get};
ghost use Rattle.st_types.specs.declared.kind.Kind.TheVariants.{Bool as Boolean};
ghost use Rattle.slot_trees.specs.SlotTrees as tree;
ghost use Rattle.slot_trees.specs.ExpressionViews.{slot_expr_view};
ghost use Rattle.quick_trees.specs.Instructions as instrs;
ghost use Rattle.quick_trees.specs.Pieces.{IsNumber, IsTested, IsInstr};
ghost use Rattle.quick_trees.specs.TreeCode.{IsRead, IsTestedFor};
ghost use Rattle.quick_checks.specs.Checking.{Always, frame_of, point_of};

use crate::constants::{Reading, number_for};
use crate::cursor::{Cursor, Leg, find, is_instr, leg_at};
use crate::draft::QuickDraft;
use crate::expressions::{deeper, temporary};
use crate::instructions::{bool_branch, branch_for, branch_for_by};
use crate::reading::{check_binary, check_read};
use crate::refusal::Refusal;
use crate::scope::{Scope, is_kind};
use slot_trees::{Operands, SlotExpr, SlotLibrary};
use st_types::{BinaryOperator, Kind, UnaryOperator};

/// Finds the code that tests a condition, up to the branch, which is taken when it holds, or unless it does: the ways of
/// the branch.
#[cycle(check)]
pub fn check_test(
    draft: &QuickDraft,
    library: &SlotLibrary,
    scope: &Scope,
    condition: &SlotExpr,
    when: bool,
    depth: u16,
    at: &mut Cursor,
) -> Result<Leg, Refusal>
    ensures { IfOk result (λ l. Always draft.now library.now scope.now (λ f s units. IsTestedFor f s units
        (slot_expr_view condition.now) when depth (point_of at.old) (point_of at.new) l.way l.past)) }
{
    match condition {
        SlotExpr::Unary(UnaryOperator::Not, operand) => {
            check_test(draft, library, scope, operand, !when, depth, at)
        }
        SlotExpr::Binary(operator, operands) => {
            check_compared(draft, library, scope, *operator, operands, when, depth, at)
        }
        SlotExpr::Load(_) => {
            let leg = check_bool(draft, library, scope, condition, when, depth, at)?;
            Ok(leg)
        }
        SlotExpr::Constant(_) => {
            let leg = check_bool(draft, library, scope, condition, when, depth, at)?;
            Ok(leg)
        }
        SlotExpr::Call(_, _) => {
            let leg = check_bool(draft, library, scope, condition, when, depth, at)?;
            Ok(leg)
        }
        _ => Err(Refusal::Other),
    }
}

/// The same for a BOOL that is read.
#[cycle(check)]
fn check_bool(
    draft: &QuickDraft,
    library: &SlotLibrary,
    scope: &Scope,
    condition: &SlotExpr,
    when: bool,
    depth: u16,
    at: &mut Cursor,
) -> Result<Leg, Refusal>
    ensures { IfOk result (λ l. Always draft.now library.now scope.now (λ f s units. IsTested f
        (λ k p q. IsRead f s units (slot_expr_view condition.now) Boolean depth k p q) when
        (point_of at.old) (point_of at.new) l.way l.past)) }
{
    let read = check_read(draft, library, scope, condition, depth, at)?;
    if !is_kind(read.kind, Kind::Bool) {
        return Err(Refusal::Other);
    }
    let leg = bool_tested(draft, at, when, read.word)?;
    Ok(leg)
}

/// The ways of the branch here, if it tests a BOOL.
fn bool_tested(draft: &QuickDraft, at: &Cursor, when: bool, word: u16) -> Result<Leg, Refusal>
    ensures { IfOk result (λ l. slice_get draft.now.code.instrs.items at.now.place
        ≡ Some (instrs.bool_branch when word l.way l.past)) }
{
    let leg = leg_at(draft, at)?;
    find(draft, at, bool_branch(when, word, leg.way, leg.past))?;
    Ok(leg)
}

/// The same for an operator on two expressions.
#[cycle(check)]
fn check_compared(
    draft: &QuickDraft,
    library: &SlotLibrary,
    scope: &Scope,
    operator: BinaryOperator,
    operands: &Operands,
    when: bool,
    depth: u16,
    at: &mut Cursor,
) -> Result<Leg, Refusal>
    ensures { IfOk result (λ l. Always draft.now library.now scope.now (λ f s units. IsTestedFor f s units
        (tree.binary operator (slot_expr_view operands.now.left) (slot_expr_view operands.now.right)) when depth
        (point_of at.old) (point_of at.new) l.way l.past)) }
{
    if !is_comparison(operator) {
        temporary(draft, depth)?;
        let kind = check_binary(draft, library, scope, operator, operands, depth, depth, at)?;
        if !is_kind(kind, Kind::Bool) {
            return Err(Refusal::Other);
        }
        let leg = bool_tested(draft, at, when, depth)?;
        return Ok(leg);
    }
    let left = check_read(draft, library, scope, &operands.left, depth, at)?;
    if let Some(compared) = constant_compared(draft, at, when, operator, left, &operands.right) {
        return Ok(compared.leg);
    }
    let below = deeper(depth)?;
    let right = check_read(draft, library, scope, &operands.right, below, at)?;
    if !is_kind(right.kind, left.kind) {
        return Err(Refusal::Other);
    }
    let leg = words_compared(draft, at, when, operator, left.word, right.word)?;
    Ok(leg)
}

fn is_comparison(operator: BinaryOperator) -> bool {
    match operator {
        BinaryOperator::Equal
        | BinaryOperator::NotEqual
        | BinaryOperator::Less
        | BinaryOperator::LessOrEqual
        | BinaryOperator::Greater
        | BinaryOperator::GreaterOrEqual => true,
        _ => false,
    }
}

/// The ways of the branch here, if it compares two words.
fn words_compared(
    draft: &QuickDraft,
    at: &Cursor,
    when: bool,
    operator: BinaryOperator,
    left: u16,
    right: u16,
) -> Result<Leg, Refusal>
    ensures { IfOk result (λ l. (now : ℕ) → IsInstr (frame_of draft.now now)
        (instrs.branch_for when operator left right l.way l.past) at.now.place) }
{
    let leg = leg_at(draft, at)?;
    if !is_instr(
        draft,
        at,
        branch_for(when, operator, left, right, leg.way, leg.past),
    ) {
        return Err(Refusal::Other);
    }
    Ok(leg)
}

/// A constant with which the branch here compares a word.
#[derive(Clone, Copy)]
struct Compared {
    constant: i32,
    leg: Leg,
}

/// The constant and the ways of the branch here, if it compares a word with the expression.
fn constant_compared(
    draft: &QuickDraft,
    at: &Cursor,
    when: bool,
    operator: BinaryOperator,
    left: Reading,
    right: &SlotExpr,
) -> Option<Compared>
    ensures number { IfSome result (λ k. IsNumber (slot_expr_view right.now) left.kind k.constant) }
    ensures stands { IfSome result (λ k. (now : ℕ) → IsInstr (frame_of draft.now now)
        (instrs.branch_for_by when operator left.word k.constant k.leg.way k.leg.past) at.now.place) }
{
    let constant = number_for(right, left.kind)?;
    let Ok(leg) = leg_at(draft, at) else {
        return None;
    };
    if !is_instr(
        draft,
        at,
        branch_for_by(when, operator, left.word, constant, leg.way, leg.past),
    ) {
        return None;
    }
    Some(Compared { constant, leg })
}
