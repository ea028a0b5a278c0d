//! Instructions that read and write slots.

ghost use Rattle.std.specs.Prelude.{◌≡◌, ℕ, Some};
ghost use Rattle.st_meaning.specs.Operators.{natural};
ghost use Rattle.machine_code.specs.Tracking.{tracked};
ghost use Rattle.machine_code.specs.declared.instr.Instr.TheVariants as instrs;
ghost use Rattle.slot_machine.specs.Steps.{Steps};

use crate::stack::Stack;
use crate::stop::Stop;
use machine_code::Mark;
use slot_memory::{look, put, reset};
use st_types::{Fault, Value};
use std_blocks::bits;

#[inline(always)]
pub fn load(k: u16, stack: &mut Stack, values: &[Value], marks: &mut [Mark]) -> Result<(), Stop>
    ensures { (now size p b : ℕ) → Steps result now size (Some (instrs.Load k)) p stack.old
        (tracked values.now marks.old) b p stack.new (tracked values.now marks.new) b }
{
    match look(values, marks, k as usize) {
        Some(value) => stack.push(value),
        None => Err(Stop::Fault(Fault::Index)),
    }
}

#[inline(always)]
pub fn load_raw(k: u16, stack: &mut Stack, values: &[Value], marks: &mut [Mark]) -> Result<(), Stop>
    ensures { (now size p b : ℕ) → Steps result now size (Some (instrs.LoadRaw k)) p stack.old
        (tracked values.now marks.old) b p stack.new (tracked values.now marks.new) b }
{
    match look(values, marks, k as usize) {
        Some(value) => stack.push(value),
        None => Err(Stop::Fault(Fault::Conversion)),
    }
}

#[inline(always)]
pub fn store(
    k: u16,
    stack: &mut Stack,
    values: &mut [Value],
    marks: &mut [Mark],
) -> Result<(), Stop>
    ensures { (now size p b : ℕ) → Steps result now size (Some (instrs.Store k)) p stack.old
        (tracked values.old marks.old) b p stack.new (tracked values.new marks.new) b }
{
    let value = stack.pop()?;
    match put(values, marks, k as usize, value) {
        Some(()) => Ok(()),
        None => Err(Stop::Fault(Fault::Conversion)),
    }
}

#[inline(always)]
pub fn store_raw(
    k: u16,
    stack: &mut Stack,
    values: &mut [Value],
    marks: &mut [Mark],
) -> Result<(), Stop>
    ensures { (now size p b : ℕ) → Steps result now size (Some (instrs.StoreRaw k)) p stack.old
        (tracked values.old marks.old) b p stack.new (tracked values.new marks.new) b }
{
    let value = stack.pop()?;
    match reset(values, marks, k as usize, value) {
        Some(()) => Ok(()),
        None => Err(Stop::Fault(Fault::Conversion)),
    }
}

/// A slot's number as it is on the stack.
#[inline(always)]
pub fn slot_of(value: Value) -> usize
    ensures { result ≡ natural value.number }
{
    bits(value) as usize
}

#[inline(always)]
pub fn load_at(stack: &mut Stack, values: &[Value], marks: &mut [Mark]) -> Result<(), Stop>
    ensures { (now size p b : ℕ) → Steps result now size (Some instrs.LoadAt) p stack.old
        (tracked values.now marks.old) b p stack.new (tracked values.now marks.new) b }
{
    let slot = stack.pop()?;
    match look(values, marks, slot_of(slot)) {
        Some(value) => stack.push(value),
        None => Err(Stop::Fault(Fault::Index)),
    }
}

#[inline(always)]
pub fn store_at(stack: &mut Stack, values: &mut [Value], marks: &mut [Mark]) -> Result<(), Stop>
    ensures { (now size p b : ℕ) → Steps result now size (Some instrs.StoreAt) p stack.old
        (tracked values.old marks.old) b p stack.new (tracked values.new marks.new) b }
{
    let slot = stack.pop()?;
    let value = stack.pop()?;
    match put(values, marks, slot_of(slot), value) {
        Some(()) => Ok(()),
        None => Err(Stop::Fault(Fault::Conversion)),
    }
}
