//! The code of constants and labels.

ghost use Rattle.std.specs.Prelude.{◌≡◌, ◌≢◌, ◌≤◌, ◌<◌, ◌+◌, IfOk, IfErr, OnOk, length};
ghost use Rattle.machine_code.specs.declared.instr.Instr.TheVariants as instrs;
ghost use Rattle.machine_code.specs.declared.limits.TheConstants.{MAX_INSTRUCTIONS};
ghost use Rattle.st_meaning.specs.Failures.{run_result};
ghost use Rattle.st_meaning.specs.Operators.{value_of_literal, number_of};
ghost use Rattle.machine_code.specs.Codes.{number_value, literal_code, label_code, labels_code};
ghost use Rattle.machine_code.specs.Fitting.{IsValue};
ghost use Rattle.machine_code.specs.Growing.{◌◂◌};
ghost use Rattle.st_compile.specs.Lengths.{literal_length, label_length, labels_length};
ghost use Rattle.st_compile.specs.Linked.{IsNumber, IsLabel, AreLabels};

use crate::compile_error::CompileError;
use crate::draft::Draft;
use machine_code::Instr;
use st_meaning::{number_of, value_of_number};
use st_types::{Fault, Kind, Label, Literal, Value};

/// The value of a literal.
fn literal_value(literal: &Literal) -> Result<Value, Fault>
    ensures { result ≡ run_result (value_of_literal literal.now) }
{
    match literal {
        Literal::Number(number) => value_of_number(number),
        Literal::Truth(_, truth) => Ok(Value::from_bool(*truth)),
        Literal::Duration(_, milliseconds) => Value::new(Kind::Time, *milliseconds as i128),
        Literal::Enumerated(_) => Err(Fault::Index),
    }
}

/// The value of a literal is pushed on the stack.
pub fn put_literal(code: &mut Draft, literal: &Literal) -> Result<(), CompileError>
    ensures code { OnOk result (code.new ≡ literal_code (value_of_literal literal.now) code.old) }
    ensures fits { OnOk result (IsValue (value_of_literal literal.now)) }
    ensures long { OnOk result (length code.new ≡ literal_length (value_of_literal literal.now) + length code.old) }
    ensures wrong { IfErr result (λ e. e ≡ CompileError.NotLinked → ¬ (IsValue (value_of_literal literal.now))) }
    ensures full { IfErr result (λ e. e ≡ CompileError.TooManyInstructions
        → MAX_INSTRUCTIONS < literal_length (value_of_literal literal.now) + length code.old) }
    ensures room { IfErr result (λ e. e ≢ CompileError.TooManyPlaces) }
{
    match literal_value(literal) {
        Ok(value) => code.put(Instr::Push(value)),
        Err(_) => Err(CompileError::NotLinked),
    }
}

/// A number as a value of LINT, or of ULINT if LINT does not hold it.
pub fn number_value(number: i128) -> Result<Value, CompileError>
    ensures value { IfOk result (λ v. v ≡ number_value number) }
    ensures wrong { IfErr result (λ e. e ≡ CompileError.NotLinked → ¬ (IsNumber number)) }
    ensures only { IfErr result (λ e. e ≡ CompileError.NotLinked) }
{
    if let Ok(value) = Value::new(Kind::Lint, number) {
        return Ok(value);
    }
    match Value::new(Kind::Ulint, number) {
        Ok(value) => Ok(value),
        Err(_) => Err(CompileError::NotLinked),
    }
}

/// A number of a label is pushed on the stack.
pub fn put_number(code: &mut Draft, number: i128) -> Result<(), CompileError>
    ensures code { OnOk result (code.new ≡ code.old ◂ instrs.Push (number_value number)) }
    ensures long { OnOk result (length code.new ≡ 1 + length code.old) }
    ensures wrong { IfErr result (λ e. e ≡ CompileError.NotLinked → ¬ (IsNumber number)) }
    ensures full { IfErr result (λ e. e ≡ CompileError.TooManyInstructions
        → MAX_INSTRUCTIONS < 1 + length code.old) }
    ensures room { IfErr result (λ e. e ≢ CompileError.TooManyPlaces) }
{
    let value = number_value(number)?;
    code.put(Instr::Push(value))
}

/// If a label holds the selector, which is on the stack, the run goes on at a place.
fn put_label(code: &mut Draft, label: &Label, to: u16) -> Result<(), CompileError>
    ensures code { OnOk result (code.new ≡ label_code label.now to code.old) }
    ensures long { OnOk result (length code.new ≡ label_length label.now + length code.old) }
    ensures wrong { IfErr result (λ e. e ≡ CompileError.NotLinked → ¬ (IsLabel label.now)) }
    ensures full { IfErr result (λ e. e ≡ CompileError.TooManyInstructions
        → MAX_INSTRUCTIONS < label_length label.now + length code.old) }
    ensures room { IfErr result (λ e. e ≢ CompileError.TooManyPlaces) }
{
    match label {
        Label::Single(number) => {
            code.put(Instr::JumpIfEqual(to))?;
            put_number(code, number_of(number))
        }
        Label::Range(least, greatest) => {
            code.put(Instr::JumpIfWithin(to))?;
            put_number(code, number_of(greatest))?;
            put_number(code, number_of(least))
        }
        Label::Enumerated(_) => Ok(()),
    }
}

/// The same for labels, of which any may hold it.
#[tactic(auto, using(crate::proofs::Elements::label_at, crate::proofs::Behind::labels_behind))]
pub fn put_labels(code: &mut Draft, labels: &[Label], to: u16) -> Result<(), CompileError>
    ensures code { OnOk result (code.new ≡ labels_code labels.now to code.old) }
    ensures long { OnOk result (length code.new ≡ labels_length labels.now + length code.old) }
    ensures wrong { IfErr result (λ e. e ≡ CompileError.NotLinked → ¬ (AreLabels labels.now)) }
    ensures full { IfErr result (λ e. e ≡ CompileError.TooManyInstructions
        → MAX_INSTRUCTIONS < labels_length labels.now + length code.old) }
    ensures room { IfErr result (λ e. e ≢ CompileError.TooManyPlaces) }
{
    let mut left = labels.len();
    while left > 0 {
        left -= 1;
        put_label(code, &labels[left], to)?;
    }
    Ok(())
}
