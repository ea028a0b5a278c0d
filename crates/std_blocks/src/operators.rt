//! Operators.

ghost use Rattle.std.specs.Prelude.{◌≡◌, ◌≢◌, ℤ, ◌+ℤ◌, ◌-ℤ◌, ◌*ℤ◌, int_div, int_rem, neg_ℤ, pos};
ghost use Rattle.std.specs.Prelude.{bit_and, bit_or, bit_xor};
ghost use Rattle.st_types.specs.Values.{in_range};
ghost use Rattle.st_types.specs.Kinds.{greatest};
ghost use Rattle.st_meaning.specs.Failures.{run_result, failing};
ghost use Rattle.st_meaning.specs.Operators.{apply, applied, apply_unary, condition_of, quotient, remainder, natural};

use crate::numbers::{bits, is_at_most, is_same_number};
use st_types::{BinaryOperator, Fault, Kind, UnaryOperator, Value};

/// The truth of a condition; F4 for a value of another type.
pub fn condition_of(value: Value) -> Result<bool, Fault>
    ensures { result ≡ run_result (condition_of value) }
{
    if !value.kind().is(Kind::Bool) {
        return Err(Fault::Conversion);
    }
    Ok(value.is_true())
}

/// The sum without bounds.
fn sum(a: Value, b: Value) -> i128
    ensures { result ≡ a.number +ℤ b.number }
{
    a.number() + b.number()
}

/// The difference without bounds.
fn difference(a: Value, b: Value) -> i128
    ensures { result ≡ a.number -ℤ b.number }
{
    a.number() - b.number()
}

/// The quotient, truncated toward zero.
fn ratio(a: Value, b: Value) -> i128
    requires { b.number ≢ pos 0 }
    ensures { result ≡ int_div a.number b.number }
{
    a.number() / b.number()
}

/// The quotient; F2 if the divisor is 0.
fn quotient(kind: Kind, a: Value, b: Value) -> Result<Value, Fault>
    ensures { result ≡ quotient kind a.number b.number }
{
    if b.number() == 0 {
        return Err(Fault::DivisionByZero);
    }
    Value::new(kind, ratio(a, b))
}

fn or_bits(a: Value, b: Value) -> u64
    ensures { result ≡ bit_or (natural a.number) (natural b.number) }
{
    bits(a) | bits(b)
}

fn xor_bits(a: Value, b: Value) -> u64
    ensures { result ≡ bit_xor (natural a.number) (natural b.number) }
{
    bits(a) ^ bits(b)
}

fn and_bits(a: Value, b: Value) -> u64
    ensures { result ≡ bit_and (natural a.number) (natural b.number) }
{
    bits(a) & bits(b)
}

fn rest(a: Value, b: Value) -> i128
    requires { b.number ≢ pos 0 }
    ensures { result ≡ int_rem a.number b.number }
{
    a.number() % b.number()
}

/// The remainder of the truncated quotient, and 0 if the divisor is 0.
fn remainder(kind: Kind, a: Value, b: Value) -> Result<Value, Fault>
    ensures { result ≡ in_range kind (remainder a.number b.number) }
{
    if b.number() == 0 {
        return Value::new(kind, 0);
    }
    Value::new(kind, rest(a, b))
}

/// The product; F1 also for one that no type holds, since the bounds of each type are numbers that the code can hold.
#[tactic(auto, using(crate::proofs::NumberLemmas::beyond_each_type))]
fn product(kind: Kind, a: Value, b: Value) -> Result<Value, Fault>
    ensures { result ≡ in_range kind (a.number *ℤ b.number) }
{
    let _bounds = (kind.least(), kind.greatest());
    match a.number().checked_mul(b.number()) {
        Some(product) => Value::new(kind, product),
        None => Err(Fault::Range),
    }
}

/// An operator on two values of one type.
fn applied(op: BinaryOperator, kind: Kind, a: Value, b: Value) -> Result<Value, Fault>
    ensures { result ≡ applied op kind a.number b.number }
{
    match op {
        BinaryOperator::Or => Value::new(kind, or_bits(a, b) as i128),
        BinaryOperator::Xor => Value::new(kind, xor_bits(a, b) as i128),
        BinaryOperator::And => Value::new(kind, and_bits(a, b) as i128),
        BinaryOperator::Equal => Ok(Value::from_bool(is_same_number(a, b))),
        BinaryOperator::NotEqual => Ok(Value::from_bool(!is_same_number(a, b))),
        BinaryOperator::Less => Ok(Value::from_bool(!is_at_most(b, a))),
        BinaryOperator::Greater => Ok(Value::from_bool(!is_at_most(a, b))),
        BinaryOperator::LessOrEqual => Ok(Value::from_bool(is_at_most(a, b))),
        BinaryOperator::GreaterOrEqual => Ok(Value::from_bool(is_at_most(b, a))),
        BinaryOperator::Add => Value::new(kind, sum(a, b)),
        BinaryOperator::Subtract => Value::new(kind, difference(a, b)),
        BinaryOperator::Multiply => product(kind, a, b),
        BinaryOperator::Divide => quotient(kind, a, b),
        BinaryOperator::Modulo => remainder(kind, a, b),
    }
}

/// An operator between two values. Both are evaluated, also those of AND and OR. F1 if its result isn't in its type, F2 if a
/// divisor is 0, F4 if the values are of two types.
///
/// IEC 61131-3:2003, table 55.
pub fn apply(op: BinaryOperator, a: Value, b: Value) -> Result<Value, Fault>
    ensures { result ≡ run_result (apply op a b) }
{
    if !a.kind().is(b.kind()) {
        return Err(Fault::Conversion);
    }
    applied(op, a.kind(), a, b)
}

fn negated(a: Value) -> i128
    ensures { result ≡ neg_ℤ a.number }
{
    -a.number()
}

fn turned(a: Value) -> i128
    ensures { result ≡ greatest a.kind -ℤ a.number }
{
    a.kind().greatest() - a.number()
}

/// An operator before a value; F1 if its result isn't in its type.
pub fn apply_unary(op: UnaryOperator, a: Value) -> Result<Value, Fault>
    ensures { result ≡ run_result (failing (apply_unary op a)) }
{
    match op {
        UnaryOperator::Negate => Value::new(a.kind(), negated(a)),
        UnaryOperator::Not => Value::new(a.kind(), turned(a)),
    }
}
