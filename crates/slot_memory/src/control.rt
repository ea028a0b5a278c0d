//! Control variables of FOR loops.

ghost use Rattle.std.specs.Prelude.{◌≡◌, ◌+ℤ◌, false};
ghost use Rattle.st_types.specs.Values.{in_range};
ghost use Rattle.st_types.specs.Words.{is_wide};
ghost use Rattle.st_meaning.specs.Loops.{stepped_on, unless_fault};

use st_types::{Value, is_wide};
use std_blocks::holds_word;

/// The sum without bounds.
#[inline(always)]
fn sum(a: Value, b: Value) -> i128
    ensures { result ≡ a.number +ℤ b.number }
{
    a.number() + b.number()
}

/// A value one step on by its number, or none if that leaves its type.
fn stepped_by_number(step: Value, value: Value) -> Option<Value>
    ensures { result ≡ stepped_on step.number value }
{
    match Value::new(value.kind(), sum(value, step)) {
        Ok(moved) => Some(moved),
        Err(_) => None,
    }
}

/// The value of a type that a word is, or none if the type does not hold it.
#[inline(always)]
#[tactic(auto, using(crate::proofs::SteppedLemmas::within, crate::proofs::SteppedLemmas::past))]
fn of_word(value: Value, word: i64) -> Option<Value>
    requires { is_wide value.kind ≡ false }
    ensures { result ≡ unless_fault (in_range value.kind word) }
{
    if !holds_word(value.kind(), word) {
        return None;
    }
    Some(value.with_word(word))
}

/// A value one step on, or none if that leaves its type.
#[inline(always)]
pub fn stepped_on(step: Value, value: Value) -> Option<Value>
    ensures { result ≡ stepped_on step.number value }
{
    if is_wide(value.kind()) || is_wide(step.kind()) {
        return stepped_by_number(step, value);
    }
    match value.word().checked_add(step.word()) {
        Some(word) => of_word(value, word),
        None => stepped_by_number(step, value),
    }
}
