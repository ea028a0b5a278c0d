//! Constants.

ghost use Rattle.std.specs.Prelude.{◌≡◌, ◌≤◌, ℕ, IfOk, IfSome, Ok, length};
ghost use Rattle.st_meaning.specs.Operators.{value_of_literal};
ghost use Rattle.slot_trees.specs.ExpressionViews.{slot_expr_view};
ghost use Rattle.quick_trees.specs.Pieces.{IsConstant, IsLiteral, IsNumber};
ghost use Rattle.quick_checks.specs.Checking.{frame_of};

use crate::draft::QuickDraft;
use crate::refusal::Refusal;
use crate::scope::{is_kind, narrow};
use slot_trees::SlotExpr;
use st_meaning::value_of_number;
use st_types::{Fault, Kind, Literal, Value};

/// The type of an expression's value, and the word that has it.
#[derive(Clone, Copy)]
pub struct Reading {
    pub kind: Kind,
    pub word: u16,
}

/// The value of a literal.
#[tactic(auto, using(crate::proofs::Literals::value_is))]
pub fn literal_value(literal: &Literal) -> Result<Value, Refusal>
    ensures { IfOk result (λ v. value_of_literal literal.now ≡ Ok v) }
{
    let value = match literal {
        Literal::Number(number) => value_of_number(number),
        Literal::Truth(_, truth) => Ok(Value::from_bool(*truth)),
        Literal::Duration(_, milliseconds) => Value::new(Kind::Time, *milliseconds as i128),
        Literal::Enumerated(_) => Err(Fault::Index),
    };
    match value {
        Ok(value) => Ok(value),
        Err(_) => Err(Refusal::Other),
    }
}

/// The word of a constant of a type, if an instruction can have it.
pub fn number_for(expression: &SlotExpr, kind: Kind) -> Option<i32>
    ensures { IfSome result (λ w. IsNumber (slot_expr_view expression.now) kind w) }
{
    let SlotExpr::Constant(literal) = expression else {
        return None;
    };
    let Ok(value) = literal_value(literal) else {
        return None;
    };
    if !is_kind(value.kind(), kind) {
        return None;
    }
    match i32::try_from(value.word()) {
        Ok(word) => Some(word),
        Err(_) => None,
    }
}

/// The word of a constant after the slots.
pub fn read_constant(draft: &QuickDraft, literal: &Literal) -> Result<Reading, Refusal>
    ensures { IfOk result (λ r. (now : ℕ) → IsConstant (frame_of draft.now now) literal.now r.kind r.word) }
{
    let value = literal_value(literal)?;
    let mut index = 0;
    while index < draft.constants.len() {
        if draft.constants[index].is(value) {
            let Some(place) = draft.window.len().checked_add(index) else {
                return Err(Refusal::Other);
            };
            return Ok(Reading {
                kind: value.kind(),
                word: narrow(place)?,
            });
        }
        index += 1;
    }
    Err(Refusal::Other)
}

/// The number of a literal.
pub fn literal_number(literal: &Literal) -> Result<i128, Refusal>
    ensures { IfOk result (λ n. IsLiteral literal.now n) }
{
    Ok(literal_value(literal)?.number())
}
