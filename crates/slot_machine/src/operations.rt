//! Instructions that compute with the values on the stack.

ghost use Rattle.std.specs.Prelude.{◌≡◌, ℕ, List, Some};
ghost use Rattle.st_types.specs.Values.{Datum};
ghost use Rattle.machine_code.specs.Tracking.{Tracked};
ghost use Rattle.machine_code.specs.declared.instr.Instr.TheVariants as instrs;
ghost use Rattle.slot_machine.specs.Steps.{Steps, operated};
ghost use Rattle.symbols.specs.Standard.{standard_view};
ghost use Rattle.st_meaning.specs.Failures.{run_result};

use crate::stack::Stack;
use crate::stop::Stop;
use st_types::{BinaryOperator, Fault, UnaryOperator, Value};
use std_blocks::{apply, apply_unary, standard_value};
use symbols::Standard;

#[inline(always)]
pub fn push_constant(value: Value, stack: &mut Stack) -> Result<(), Stop>
    ensures { (now size p b : ℕ) (m : Tracked)
        → Steps result now size (Some (instrs.Push value)) p stack.old m b p stack.new m b }
{
    stack.push(value)
}

#[inline(always)]
#[tactic(auto, using(crate::proofs::Results::result_ok, crate::proofs::Results::result_err))]
pub fn unary(op: UnaryOperator, stack: &mut Stack) -> Result<(), Stop>
    ensures { (now size p b : ℕ) (m : Tracked)
        → Steps result now size (Some (instrs.Unary op)) p stack.old m b p stack.new m b }
{
    let x = stack.pop()?;
    match apply_unary(op, x) {
        Ok(value) => stack.push(value),
        Err(fault) => Err(Stop::Fault(fault)),
    }
}

#[inline(always)]
#[tactic(auto, using(crate::proofs::Results::result_ok, crate::proofs::Results::result_err))]
pub fn binary(op: BinaryOperator, stack: &mut Stack) -> Result<(), Stop>
    ensures { (now size p b : ℕ) (m : Tracked)
        → Steps result now size (Some (instrs.Binary op)) p stack.old m b p stack.new m b }
{
    let y = stack.pop()?;
    let x = stack.pop()?;
    match apply(op, x, y) {
        Ok(value) => stack.push(value),
        Err(fault) => Err(Stop::Fault(fault)),
    }
}

#[inline(always)]
pub fn pop_many(n: u16, stack: &mut Stack) -> Result<(), Stop>
    ensures { (now size p b : ℕ) (m : Tracked)
        → Steps result now size (Some (instrs.Pop n)) p stack.old m b p stack.new m b }
{
    stack.pop_many(n);
    Ok(())
}

/// The result of a standard function on the `n` topmost values; F4 if there are fewer.
fn operated(function: Standard, n: u16, stack: &Stack) -> Result<Value, Fault>
    ensures { result ≡ run_result (operated (standard_view function) n stack.now) }
{
    match stack.tops(n) {
        Some(arguments) => standard_value(function, arguments),
        None => Err(Fault::Conversion),
    }
}

/// A standard function on the `n` topmost values.
pub fn compute(function: Standard, n: u16, stack: &mut Stack) -> Result<(), Stop>
    ensures { (now size p b : ℕ) (m : Tracked)
        → Steps result now size (Some (instrs.Compute function n)) p stack.old m b p stack.new m b }
{
    match operated(function, n, stack) {
        Ok(value) => {
            stack.pop_many(n);
            stack.push(value)
        }
        Err(fault) => Err(Stop::Fault(fault)),
    }
}

/// Reverses the `n` topmost values.
pub fn reverse_top(n: u16, stack: &mut Stack) -> Result<(), Stop>
    ensures { (now size p b : ℕ) (m : Tracked)
        → Steps result now size (Some (instrs.Reverse n)) p stack.old m b p stack.new m b }
{
    match stack.reverse_top(n) {
        Some(()) => Ok(()),
        None => Err(Stop::Fault(Fault::Conversion)),
    }
}
