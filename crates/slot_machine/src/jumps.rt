//! Instructions that jump, and ticks.

ghost use Rattle.std.specs.Prelude.{◌≡◌, ◌≤◌, ◌∷◌, ℕ, List, Some};
ghost use Rattle.st_types.specs.Values.{Datum};
ghost use Rattle.machine_code.specs.Machine.{is_within};
ghost use Rattle.machine_code.specs.Tracking.{Tracked};
ghost use Rattle.machine_code.specs.declared.instr.Instr.TheVariants as instrs;
ghost use Rattle.slot_machine.specs.Steps.{Steps, IsDown, IsTick};

use crate::stack::Stack;
use crate::stop::Stop;
use st_types::{Fault, Value};
use std_blocks::{condition_of, is_at_most, is_same_number};

/// A jump to a place that is at most the one after the instruction.
#[inline(always)]
pub fn go_down(place: &mut usize, to: u16) -> Result<(), Stop>
    ensures down { IsDown result to place.old place.new }
    ensures within { place.new ≤ place.old }
{
    if to as usize > *place {
        return Err(Stop::Fault(Fault::Conversion));
    }
    *place = to as usize;
    Ok(())
}

/// A tick of the budget.
#[inline(always)]
fn take_tick(ticks: &mut u32) -> Result<(), Stop>
    ensures { IsTick result ticks.old ticks.new }
{
    if *ticks == 0 {
        return Err(Stop::Fault(Fault::Budget));
    }
    *ticks -= 1;
    Ok(())
}

#[inline(always)]
pub fn tick(ticks: &mut u32) -> Result<(), Stop>
    ensures { (now size p : ℕ) (st : List Datum) (m : Tracked)
        → Steps result now size (Some instrs.Tick) p st m ticks.old p st m ticks.new }
{
    take_tick(ticks)
}

#[inline(always)]
pub fn jump(to: u16, place: &mut usize) -> Result<(), Stop>
    ensures steps { (now size b : ℕ) (st : List Datum) (m : Tracked)
        → Steps result now size (Some (instrs.Jump to)) place.old st m b place.new st m b }
    ensures within { place.new ≤ place.old }
{
    go_down(place, to)
}

#[inline(always)]
pub fn loop_back(size: usize, to: u16, place: &mut usize, ticks: &mut u32) -> Result<(), Stop>
    requires { place.old ≤ size }
    ensures steps { (now : ℕ) (st : List Datum) (m : Tracked)
        → Steps result now size (Some (instrs.LoopBack to)) place.old st m ticks.old place.new st m ticks.new }
    ensures within { place.new ≤ size }
{
    take_tick(ticks)?;
    if to as usize > size {
        return Err(Stop::Fault(Fault::Conversion));
    }
    *place = to as usize;
    Ok(())
}

/// A condition: if it is FALSE, the jump is made.
#[inline(always)]
#[tactic(auto, using(crate::proofs::Results::result_ok, crate::proofs::Results::result_err))]
pub fn jump_if_false(to: u16, place: &mut usize, stack: &mut Stack) -> Result<(), Stop>
    ensures steps { (now size b : ℕ) (m : Tracked)
        → Steps result now size (Some (instrs.JumpIfFalse to)) place.old stack.old m b place.new stack.new m b }
    ensures within { place.new ≤ place.old }
{
    let x = stack.pop()?;
    match condition_of(x) {
        Ok(true) => Ok(()),
        Ok(false) => go_down(place, to),
        Err(fault) => Err(Stop::Fault(fault)),
    }
}

/// A condition: if it is TRUE, the jump is made.
#[inline(always)]
#[tactic(auto, using(crate::proofs::Results::result_ok, crate::proofs::Results::result_err))]
pub fn jump_if_true(to: u16, place: &mut usize, stack: &mut Stack) -> Result<(), Stop>
    ensures steps { (now size b : ℕ) (m : Tracked)
        → Steps result now size (Some (instrs.JumpIfTrue to)) place.old stack.old m b place.new stack.new m b }
    ensures within { place.new ≤ place.old }
{
    let x = stack.pop()?;
    match condition_of(x) {
        Ok(true) => go_down(place, to),
        Ok(false) => Ok(()),
        Err(fault) => Err(Stop::Fault(fault)),
    }
}

/// Jumps down if a value is the number that is wanted.
#[inline(always)]
fn down_if_same(wanted: Value, value: Value, to: u16, place: &mut usize) -> Result<(), Stop>
    ensures steps { (now size b : ℕ) (rest : List Datum) (m : Tracked) → Steps result now size (Some (instrs.JumpIfEqual to))
        place.old (wanted ∷ value ∷ rest) m b place.new (value ∷ rest) m b }
    ensures within { place.new ≤ place.old }
{
    if is_same_number(value, wanted) {
        return go_down(place, to);
    }
    Ok(())
}

#[inline(always)]
pub fn jump_if_equal(to: u16, place: &mut usize, stack: &mut Stack) -> Result<(), Stop>
    ensures steps { (now size b : ℕ) (m : Tracked)
        → Steps result now size (Some (instrs.JumpIfEqual to)) place.old stack.old m b place.new stack.new m b }
    ensures within { place.new ≤ place.old }
{
    let wanted = stack.pop()?;
    let value = stack.top()?;
    down_if_same(wanted, value, to, place)
}

#[inline(always)]
fn is_within(least: Value, greatest: Value, value: Value) -> bool
    ensures { result ≡ is_within least.number greatest.number value.number }
{
    is_at_most(least, value) && is_at_most(value, greatest)
}

/// Jumps down if a value is within bounds.
#[inline(always)]
fn down_if_within(
    greatest: Value,
    least: Value,
    value: Value,
    to: u16,
    place: &mut usize,
) -> Result<(), Stop>
    ensures steps { (now size b : ℕ) (rest : List Datum) (m : Tracked) → Steps result now size (Some (instrs.JumpIfWithin to))
        place.old (greatest ∷ least ∷ value ∷ rest) m b place.new (value ∷ rest) m b }
    ensures within { place.new ≤ place.old }
{
    if is_within(least, greatest, value) {
        return go_down(place, to);
    }
    Ok(())
}

#[inline(always)]
pub fn jump_if_within(to: u16, place: &mut usize, stack: &mut Stack) -> Result<(), Stop>
    ensures steps { (now size b : ℕ) (m : Tracked)
        → Steps result now size (Some (instrs.JumpIfWithin to)) place.old stack.old m b place.new stack.new m b }
    ensures within { place.new ≤ place.old }
{
    let greatest = stack.pop()?;
    let least = stack.pop()?;
    let value = stack.top()?;
    down_if_within(greatest, least, value, to, place)
}
