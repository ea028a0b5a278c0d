//! Subscripts: the word that an instruction takes, and its addend to that.

ghost use Rattle.std.specs.Prelude.{◌≡◌, ◌+ℤ◌, IfOk, IfSome, IsTrue, false};
ghost use Rattle.st_types.specs.Words as words;
ghost use Rattle.slot_trees.specs.ExpressionViews.{slot_expr_view};
ghost use Rattle.quick_trees.specs.Pieces.{HasNumbers, IsNumber, IsSubscript};
ghost use Rattle.quick_trees.specs.TreeCode.{IsReadApart};
ghost use Rattle.quick_checks.specs.Checking.{Always, point_of};
ghost use Rattle.quick_checks.specs.Sums.{IsSum};

use crate::constants::{literal_value, number_for};
use crate::cursor::Cursor;
use crate::draft::QuickDraft;
use crate::reading::check_read;
use crate::refusal::Refusal;
use crate::scope::{Scope, is_kind};
use slot_trees::{SlotExpr, SlotLibrary, Subscript};
use st_types::{BinaryOperator, Kind, is_wide};

/// A constant that an instruction can have.
#[derive(Clone, Copy)]
pub struct Constant {
    pub kind: Kind,
    pub word: i32,
}

/// The constant of an expression, if it is one that an instruction can have.
pub fn constant_of(expression: &SlotExpr) -> Option<Constant>
    ensures { IfSome result (λ c. IsNumber (slot_expr_view expression.now) c.kind c.word) }
{
    let SlotExpr::Constant(literal) = expression else {
        return None;
    };
    let Ok(value) = literal_value(literal) else {
        return None;
    };
    let kind = value.kind();
    let word = number_for(expression, kind)?;
    Some(Constant { kind, word })
}

/// A sum of an expression and a constant, of a type.
#[derive(Clone, Copy)]
pub struct Sum<'a> {
    pub rest: &'a SlotExpr,
    pub kind: Kind,
    pub added: i32,
}

/// The sum of an expression, if it is one; a difference is the sum with the constant negated.
fn sum_of(expression: &SlotExpr) -> Option<Sum<'_>>
    ensures { IfSome result (λ s. IsSum (slot_expr_view expression.now) (slot_expr_view s.rest.now) s.kind s.added) }
{
    let SlotExpr::Binary(operator, operands) = expression else {
        return None;
    };
    match operator {
        BinaryOperator::Add => {
            if let Some(constant) = constant_of(&operands.right) {
                return Some(Sum {
                    rest: &operands.left,
                    kind: constant.kind,
                    added: constant.word,
                });
            }
            let constant = constant_of(&operands.left)?;
            Some(Sum {
                rest: &operands.right,
                kind: constant.kind,
                added: constant.word,
            })
        }
        BinaryOperator::Subtract => {
            let constant = constant_of(&operands.right)?;
            Some(Sum {
                rest: &operands.left,
                kind: constant.kind,
                added: constant.word.checked_neg()?,
            })
        }
        _ => None,
    }
}

/// Whether a type has the number of each element of an array.
#[tactic(auto, using(crate::proofs::Sums::between))]
fn has_numbers(kind: Kind, subscript: &Subscript) -> bool
    ensures { IsTrue result → HasNumbers kind subscript.now.lower subscript.now.count }
{
    let Some(end) = subscript.lower.checked_add(subscript.count as i128) else {
        return false;
    };
    kind.least() <= subscript.lower && end <= kind.greatest()
}

/// The addend to the word of a subscript without this number, so that the first element's is 0.
pub fn shift_for(subscript: &Subscript, added: i32) -> Result<i32, Refusal>
    ensures { IfOk result (λ n. subscript.now.lower +ℤ n ≡ added) }
{
    let Some(shift) = (added as i128).checked_sub(subscript.lower) else {
        return Err(Refusal::Other);
    };
    match i32::try_from(shift) {
        Ok(shift) => Ok(shift),
        Err(_) => Err(Refusal::Other),
    }
}

/// The sum of a subscript, if its type has the number of each element and each instruction has room for the shift: then the
/// constant need not be added.
pub fn summed(subscript: &Subscript) -> Option<Sum<'_>>
    ensures sum { IfSome result (λ s. IsSum (slot_expr_view subscript.now.index) (slot_expr_view s.rest.now) s.kind
        s.added) }
    ensures narrow { IfSome result (λ s. words.is_wide s.kind ≡ false) }
    ensures fits { IfSome result (λ s. HasNumbers s.kind subscript.now.lower subscript.now.count) }
{
    let sum = sum_of(&subscript.index)?;
    if is_wide(sum.kind) || !has_numbers(sum.kind, subscript) {
        return None;
    }
    let Ok(shift) = shift_for(subscript, sum.added) else {
        return None;
    };
    match i16::try_from(shift) {
        Ok(_) => Some(sum),
        Err(_) => None,
    }
}

/// A subscript that was read: the word that an instruction takes, and its addend to that.
#[derive(Clone, Copy)]
pub struct Indexed {
    pub word: u16,
    pub shift: i32,
}

/// Finds the code that reads a subscript.
#[cycle(check)]
pub fn check_subscript(
    draft: &QuickDraft,
    library: &SlotLibrary,
    scope: &Scope,
    subscript: &Subscript,
    depth: u16,
    at: &mut Cursor,
) -> Result<Indexed, Refusal>
    ensures { IfOk result (λ r. Always draft.now library.now scope.now (λ f s units. IsSubscript
        (λ u n. IsReadApart f s units (slot_expr_view subscript.now.index) u n depth) subscript.now.lower r.shift
        subscript.now.count r.word (point_of at.old) (point_of at.new))) }
{
    if let Some(sum) = summed(subscript) {
        let read = check_read(draft, library, scope, sum.rest, depth, at)?;
        if !is_kind(read.kind, sum.kind) {
            return Err(Refusal::Other);
        }
        let shift = shift_for(subscript, sum.added)?;
        return Ok(Indexed {
            word: read.word,
            shift,
        });
    }
    let read = check_read(draft, library, scope, &subscript.index, depth, at)?;
    if is_wide(read.kind) {
        return Err(Refusal::Other);
    }
    let shift = shift_for(subscript, 0)?;
    Ok(Indexed {
        word: read.word,
        shift,
    })
}
