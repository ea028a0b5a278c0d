//! Instructions of FOR loops.

ghost use Rattle.std.specs.Prelude.{◌≡◌, ◌≤◌, ◌∷◌, ℕ, List, Some};
ghost use Rattle.st_types.specs.Values.{Datum};
ghost use Rattle.machine_code.specs.Machine.{runs_within};
ghost use Rattle.machine_code.specs.Tracking.{tracked};
ghost use Rattle.machine_code.specs.declared.instr.Instr.TheVariants as instrs;
ghost use Rattle.slot_machine.specs.Steps.{Steps};

use crate::jumps::go_down;
use crate::stack::Stack;
use crate::stop::Stop;
use machine_code::Mark;
use slot_memory::{look, mark_seen, peek, put, put_seen, stepped_on};
use st_types::{Fault, Value};
use std_blocks::{is_at_most, is_negative};

/// Whether the control variable has not passed the limit.
#[inline(always)]
fn runs_within(limit: Value, step: Value, control: Value) -> bool
    ensures { result ≡ runs_within limit.number step.number control.number }
{
    if is_negative(step) {
        is_at_most(limit, control)
    } else {
        is_at_most(control, limit)
    }
}

#[inline(always)]
pub fn for_begin(
    k: u16,
    stack: &mut Stack,
    values: &mut [Value],
    marks: &mut [Mark],
) -> Result<(), Stop>
    ensures { (now size p b : ℕ) → Steps result now size (Some (instrs.ForBegin k)) p stack.old
        (tracked values.old marks.old) b p stack.new (tracked values.new marks.new) b }
{
    let step = stack.pop()?;
    let limit = stack.pop()?;
    let start = stack.pop()?;
    if step.number() == 0 {
        return Err(Stop::Fault(Fault::ZeroStep));
    }
    let Some(()) = put(values, marks, k as usize, start) else {
        return Err(Stop::Fault(Fault::Conversion));
    };
    stack.push(limit)?;
    stack.push(step)
}

/// Jumps down if the control variable has passed a limit.
#[inline(always)]
fn test(
    step: Value,
    limit: Value,
    k: u16,
    to: u16,
    place: &mut usize,
    values: &[Value],
    marks: &mut [Mark],
) -> Result<(), Stop>
    ensures steps { (now size b : ℕ) (rest : List Datum) → Steps result now size (Some (instrs.ForTest k to)) place.old
        (step ∷ limit ∷ rest) (tracked values.now marks.old) b place.new (step ∷ limit ∷ rest)
        (tracked values.now marks.new) b }
    ensures within { place.new ≤ place.old }
{
    let Some(control) = look(values, marks, k as usize) else {
        return Err(Stop::Fault(Fault::Conversion));
    };
    if runs_within(limit, step, control) {
        return Ok(());
    }
    go_down(place, to)
}

/// Jumps down if the control variable has passed the limit.
#[inline(always)]
pub fn for_test(
    k: u16,
    to: u16,
    place: &mut usize,
    stack: &Stack,
    values: &[Value],
    marks: &mut [Mark],
) -> Result<(), Stop>
    ensures steps { (now size b : ℕ) → Steps result now size (Some (instrs.ForTest k to)) place.old stack.now
        (tracked values.now marks.old) b place.new stack.now (tracked values.now marks.new) b }
    ensures within { place.new ≤ place.old }
{
    match stack.two_tops() {
        Ok((step, limit)) => test(step, limit, k, to, place, values, marks),
        Err(stop) => Err(stop),
    }
}

/// The control variable one step on.
#[inline(always)]
fn step_by(
    step: Value,
    k: u16,
    to: u16,
    place: &mut usize,
    values: &mut [Value],
    marks: &mut [Mark],
) -> Result<(), Stop>
    ensures steps { (now size b : ℕ) (rest : List Datum) → Steps result now size (Some (instrs.ForStep k to)) place.old
        (step ∷ rest) (tracked values.old marks.old) b place.new (step ∷ rest) (tracked values.new marks.new) b }
    ensures within { place.new ≤ place.old }
{
    let Some(control) = peek(values, k as usize) else {
        return Err(Stop::Fault(Fault::Conversion));
    };
    let Some(value) = stepped_on(step, control) else {
        mark_seen(marks, k as usize);
        return go_down(place, to);
    };
    match put_seen(values, marks, k as usize, value) {
        Some(()) => Ok(()),
        None => Err(Stop::Fault(Fault::Conversion)),
    }
}

#[inline(always)]
pub fn for_step(
    k: u16,
    to: u16,
    place: &mut usize,
    stack: &Stack,
    values: &mut [Value],
    marks: &mut [Mark],
) -> Result<(), Stop>
    ensures steps { (now size b : ℕ) → Steps result now size (Some (instrs.ForStep k to)) place.old stack.now
        (tracked values.old marks.old) b place.new stack.now (tracked values.new marks.new) b }
    ensures within { place.new ≤ place.old }
{
    match stack.top() {
        Ok(step) => step_by(step, k, to, place, values, marks),
        Err(stop) => Err(stop),
    }
}
