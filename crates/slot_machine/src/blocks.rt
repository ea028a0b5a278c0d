//! The instruction that steps a standard block.

ghost use Rattle.std.specs.Prelude.{◌≡◌, ◌-◌, ℕ, List, Some, length, min};
ghost use Rattle.st_types.specs.Values.{Datum};
ghost use Rattle.machine_code.specs.Tracking.{tracked, seen, assigned};
ghost use Rattle.machine_code.specs.declared.instr.Instr.TheVariants as instrs;
ghost use Rattle.slot_machine.specs.Steps.{StepsOn, marks_from};

use crate::stop::Stop;
use machine_code::Mark;
use slot_memory::{mark_assigned, mark_seen};
use st_types::Value;
use std_blocks::step;
use symbols::{StandardBlock, member_count};

/// How many of `count` slots from one on are below `length`.
fn there_from(length: usize, first: u16, count: u16) -> u16
    ensures { result ≡ min count (length - first) }
{
    let behind = length.saturating_sub(first as usize);
    if behind < count as usize {
        behind as u16
    } else {
        count
    }
}

/// Marks that `count` slots were looked up.
fn mark_all_seen(marks: &mut [Mark], first: u16, count: u16)
    ensures { marks.new ≡ marks_from seen marks.old first count }
{
    for i in 0..count {
        mark_seen(marks, first as usize + i as usize);
    }
}

/// Marks that `count` slots were assigned.
fn mark_all_assigned(marks: &mut [Mark], first: u16, count: u16)
    ensures { marks.new ≡ marks_from assigned marks.old first count }
{
    for i in 0..count {
        mark_assigned(marks, first as usize + i as usize);
    }
}

/// A step of a standard block whose members begin at a slot.
pub fn step_block(
    block: StandardBlock,
    first: u16,
    now: u64,
    values: &mut [Value],
    marks: &mut [Mark],
) -> Result<(), Stop>
    ensures { (size p b : ℕ) (st : List Datum) → StepsOn result now size (Some (instrs.Step block first)) p st
        (tracked values.old marks.old) b p st (tracked values.new marks.new) b }
{
    let count = member_count(block) as u16;
    mark_all_seen(marks, first, there_from(values.len(), first, count));
    match step(block, values, first as usize, now) {
        Ok(()) => {
            mark_all_assigned(marks, first, count);
            Ok(())
        }
        Err(fault) => Err(Stop::Fault(fault)),
    }
}
