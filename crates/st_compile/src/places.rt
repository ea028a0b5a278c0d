//! Slots of the code.

ghost use Rattle.std.specs.Prelude.{◌≡◌, ◌≢◌, ◌≤◌, ◌<◌, ◌+◌, ◌-◌, ◌*◌, ◌^◌, IfOk, IfErr, OnOk, length, map, min};
ghost use Rattle.slot_trees.specs.SlotEvaluation.{slot_at};
ghost use Rattle.slot_trees.specs.Chains.{subscripts_of};
ghost use Rattle.slot_trees.specs.ExpressionViews.{anchor_view, subscript_view};
ghost use Rattle.machine_code.specs.Machine.{slot_number};
ghost use Rattle.machine_code.specs.declared.instr.Instr.TheVariants as instrs;
ghost use Rattle.machine_code.specs.declared.limits.TheConstants.{MAX_INSTRUCTIONS, MAX_MEMORY};
ghost use Rattle.machine_code.specs.Codes.{number_value};
ghost use Rattle.machine_code.specs.Fitting.{reach};
ghost use Rattle.machine_code.specs.Growing.{◌◂◌};
ghost use Rattle.machine_code.specs.UnitFrames.{slot_in};
ghost use Rattle.st_compile.specs.Emitting.{frame_of};
ghost use Rattle.st_compile.specs.Linked.{IsSubscript};

use crate::compile_error::CompileError;
use crate::draft::Draft;
use crate::labels::number_value;
use crate::scope::Scope;
use machine_code::Instr;
use slot_trees::{Anchor, Subscript};
use st_types::{Kind, Value};

/// The number of the slot at an offset from a first one.
pub fn slot_after(first: usize, offset: usize) -> u16
    requires { first + offset < MAX_MEMORY }
    ensures { result ≡ first + offset }
{
    (first + offset) as u16
}

/// A slot's number as it is on the stack.
pub fn slot_value(slot: u16) -> Value
    ensures { result ≡ slot_number slot }
{
    match Value::new(Kind::Lint, slot as i128) {
        Ok(value) => value,
        Err(_) => unreachable!(),
    }
}

/// The value of a unit that an anchor means if its own variables begin at the base, or the greatest number.
pub fn value_at(base: usize, anchor: Anchor) -> usize
    ensures { result ≡ min (slot_at base (anchor_view anchor)) (2 ^ 64 - 1) }
{
    match anchor {
        Anchor::Own(offset) => base.saturating_add(offset),
        Anchor::Absolute(slot) => slot,
    }
}

/// How far subscripts may lead at most, or the greatest number.
fn farthest(subscripts: &[Subscript]) -> usize
    ensures { result ≡ min (reach (subscripts_of (map subscript_view subscripts.now))) (2 ^ 64 - 1) }
{
    let mut total: usize = 0;
    let mut left = subscripts.len();
    while left > 0 {
        left -= 1;
        let subscript = &subscripts[left];
        let step = subscript
            .count
            .saturating_sub(1)
            .saturating_mul(subscript.stride);
        total = step.saturating_add(total);
    }
    total
}

/// The slot at which a variable begins that lies among the values of its unit, with all of its array.
pub fn first_slot(
    scope: Scope,
    anchor: Anchor,
    subscripts: &[Subscript],
) -> Result<u16, CompileError>
    requires room { scope.start + scope.size ≤ scope.memory }
    requires numbered { scope.memory ≤ MAX_MEMORY }
    ensures slot { IfOk result (λ k. k ≡ slot_in (frame_of scope) (anchor_view anchor)) }
    ensures within { IfOk result (λ k. slot_at scope.base (anchor_view anchor)
        + reach (subscripts_of (map subscript_view subscripts.now)) < scope.size) }
    ensures wrong { IfErr result (λ e. e ≡ CompileError.NotLinked
        → ¬ (slot_at scope.base (anchor_view anchor)
        + reach (subscripts_of (map subscript_view subscripts.now)) < scope.size)) }
    ensures only { IfErr result (λ e. e ≡ CompileError.NotLinked) }
{
    let first = value_at(scope.base, anchor);
    if first.saturating_add(farthest(subscripts)) >= scope.size {
        return Err(CompileError::NotLinked);
    }
    Ok(slot_after(scope.start, first))
}

/// The slot of the control variable of a FOR.
pub fn control_slot(scope: Scope, control: Anchor) -> Result<u16, CompileError>
    requires room { scope.start + scope.size ≤ scope.memory }
    requires numbered { scope.memory ≤ MAX_MEMORY }
    ensures slot { IfOk result (λ k. k ≡ slot_in (frame_of scope) (anchor_view control)) }
    ensures within { IfOk result (λ k. slot_at scope.base (anchor_view control) < scope.size) }
    ensures wrong { IfErr result (λ e. e ≡ CompileError.NotLinked
        → ¬ (slot_at scope.base (anchor_view control) < scope.size)) }
    ensures only { IfErr result (λ e. e ≡ CompileError.NotLinked) }
{
    let slot = value_at(scope.base, control);
    if slot >= scope.size {
        return Err(CompileError::NotLinked);
    }
    Ok(slot_after(scope.start, slot))
}

/// The instruction of a subscript.
pub fn put_subscript(code: &mut Draft, subscript: &Subscript) -> Result<(), CompileError>
    ensures code { OnOk result (code.new
        ≡ code.old ◂ instrs.Subscript subscript.now.count subscript.now.stride (number_value subscript.now.lower)) }
    ensures long { OnOk result (length code.new ≡ 1 + length code.old) }
    ensures wrong { IfErr result (λ e. e ≡ CompileError.NotLinked
        → ¬ (IsSubscript subscript.now.lower subscript.now.count subscript.now.stride)) }
    ensures full { IfErr result (λ e. e ≡ CompileError.TooManyInstructions
        → MAX_INSTRUCTIONS < 1 + length code.old) }
    ensures room { IfErr result (λ e. e ≢ CompileError.TooManyPlaces) }
{
    let lower = number_value(subscript.lower)?;
    let Ok(count) = u16::try_from(subscript.count) else {
        return Err(CompileError::NotLinked);
    };
    let Ok(stride) = u16::try_from(subscript.stride) else {
        return Err(CompileError::NotLinked);
    };
    code.put(Instr::Subscript {
        count,
        stride,
        lower,
    })
}
