//! The instruction that moves a slot's number on to an element.

ghost use Rattle.std.specs.Prelude.{◌≡◌, ◌+◌, ◌*◌, ◌-ℤ◌, ◌+ℤ◌, ℕ, pos, Some, true};
ghost use Rattle.st_meaning.specs.Failures.{run_result};
ghost use Rattle.st_meaning.specs.Operators.{natural};
ghost use Rattle.layout.specs.Shapes.{in_bounds, distance};
ghost use Rattle.machine_code.specs.Machine.{element, slot_number};
ghost use Rattle.machine_code.specs.Tracking.{Tracked};
ghost use Rattle.machine_code.specs.declared.instr.Instr.TheVariants as instrs;
ghost use Rattle.slot_machine.specs.Steps.{Steps};

use crate::slots::slot_of;
use crate::stack::Stack;
use crate::stop::Stop;
use st_types::{Fault, Kind, Value};

/// The number after the last subscript.
fn upper(lower: Value, count: u16) -> i128
    ensures { result ≡ lower.number +ℤ pos count }
{
    lower.number() + count as i128
}

fn is_bounded(lower: Value, count: u16, subscript: Value) -> bool
    ensures { result ≡ in_bounds lower.number count subscript.number }
{
    lower.number() <= subscript.number() && subscript.number() < upper(lower, count)
}

fn offset_from_lower(lower: Value, subscript: Value) -> i128
    ensures { result ≡ subscript.number -ℤ lower.number }
{
    subscript.number() - lower.number()
}

/// How many elements come before the one at a subscript.
fn distance(lower: Value, count: u16, subscript: Value) -> u16
    requires { in_bounds lower.number count subscript.number ≡ true }
    ensures { result ≡ distance lower.number subscript.number }
{
    offset_from_lower(lower, subscript) as u16
}

fn moved(first: u16, distance: u16, stride: u16) -> u64
    ensures { result ≡ first + distance * stride }
{
    first as u64 + distance as u64 * stride as u64
}

/// The slot of an element.
fn element(
    lower: Value,
    count: u16,
    stride: u16,
    subscript: Value,
    first: Value,
) -> Result<u16, Fault>
    ensures { result ≡ run_result (element lower.number count stride subscript.number (natural first.number)) }
{
    if !is_bounded(lower, count, subscript) {
        return Err(Fault::Index);
    }
    let first = slot_of(first);
    if first >= 65536 {
        return Err(Fault::Conversion);
    }
    let slot = moved(first as u16, distance(lower, count, subscript), stride);
    if slot >= 65536 {
        return Err(Fault::Conversion);
    }
    Ok(slot as u16)
}

/// A slot's number as it is on the stack.
fn slot_value(slot: u16) -> Value
    ensures { result ≡ slot_number slot }
{
    match Value::new(Kind::Lint, slot as i128) {
        Ok(value) => value,
        Err(_) => unreachable!(),
    }
}

#[tactic(auto, using(crate::proofs::Results::result_ok, crate::proofs::Results::result_err))]
pub fn subscript(lower: Value, count: u16, stride: u16, stack: &mut Stack) -> Result<(), Stop>
    ensures { (now size p b : ℕ) (m : Tracked)
        → Steps result now size (Some (instrs.Subscript count stride lower)) p stack.old m b p stack.new m b }
{
    let number = stack.pop()?;
    let first = stack.pop()?;
    match element(lower, count, stride, number, first) {
        Ok(slot) => stack.push(slot_value(slot)),
        Err(fault) => Err(Stop::Fault(fault)),
    }
}
