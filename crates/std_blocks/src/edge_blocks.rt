//! Edge detection.

ghost use Rattle.std.specs.Prelude.{ℕ};
ghost use Rattle.st_meaning.specs.StandardBlocks.{R_TRIG, F_TRIG};
ghost use Rattle.std_blocks.specs.Members.{block_stepped, Leaves};

use crate::members::{put_all, three_members};
use st_types::{Fault, Value};
use std_counts::{edge, falls};

/// R_TRIG: a rising edge.
#[tactic(auto, using(crate::proofs::BlockLemmas::no_members, crate::proofs::BlockLemmas::rising_steps))]
pub fn step_rising(slots: &mut [Value], at: usize) -> Result<(), Fault>
    ensures { (now : ℕ) → Leaves result (block_stepped R_TRIG now at slots.old) slots.new }
{
    let (clock, _, memory) = three_members(slots, at)?;
    let input = clock.is_true();
    let q = Value::from_bool(edge(input, memory.is_true()));
    put_all(slots, at, &[clock, q, Value::from_bool(input)])
}

/// F_TRIG: a falling edge. Its memory starts FALSE, so that a first call with CLK FALSE gives Q TRUE (our profile).
#[tactic(auto, using(crate::proofs::BlockLemmas::no_members, crate::proofs::BlockLemmas::falling_steps))]
pub fn step_falling(slots: &mut [Value], at: usize) -> Result<(), Fault>
    ensures { (now : ℕ) → Leaves result (block_stepped F_TRIG now at slots.old) slots.new }
{
    let (clock, _, memory) = three_members(slots, at)?;
    let input = clock.is_true();
    let q = Value::from_bool(falls(input, memory.is_true()));
    put_all(slots, at, &[clock, q, Value::from_bool(!input)])
}
