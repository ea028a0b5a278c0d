//! Counters.

ghost use Rattle.std.specs.Prelude.{◌+◌, ◌∷◌, [], ◌≤◌, ℕ, int_le, pos, length};
ghost use Rattle.st_meaning.specs.StandardBlocks.{CTU, CTD, CTUD, int};
ghost use Rattle.st_types.specs.Values.{bool_datum, is_true};
ghost use Rattle.std_blocks.specs.Members.{all_stored, block_stepped, Leaves};

use crate::members::{held_value, put_all, six_members, ten_members};
use st_types::{Fault, Kind, Value};
use std_counts::{down_count, edge, up_count, up_down_count};

/// Assigns the six members of an up counter or a down counter; F4 if one is of another type, or INT does not hold the count.
#[tactic(auto, using(crate::proofs::BlockLemmas::unheld_count))]
fn put_counter(
    slots: &mut [Value],
    at: usize,
    inputs: (Value, Value, Value),
    q: bool,
    count: i128,
    memory: bool,
) -> Result<(), Fault>
    requires { at + 6 ≤ length slots.old }
    ensures { Leaves result (all_stored slots.old at (inputs.0 ∷ inputs.1 ∷ inputs.2 ∷ bool_datum q ∷ int count
        ∷ bool_datum memory ∷ [])) slots.new }
{
    let count = held_value(Kind::Int, count)?;
    let (edge, other, preset) = inputs;
    let values = [
        edge,
        other,
        preset,
        Value::from_bool(q),
        count,
        Value::from_bool(memory),
    ];
    put_all(slots, at, &values)
}

/// CTU: counts up.
#[tactic(auto, using(crate::proofs::BlockLemmas::no_members))]
pub fn step_up(slots: &mut [Value], at: usize) -> Result<(), Fault>
    ensures { (now : ℕ) → Leaves result (block_stepped CTU now at slots.old) slots.new }
{
    let (up, reset, preset, _, count, memory) = six_members(slots, at)?;
    let edge = edge(up.is_true(), memory.is_true());
    let count = up_count(reset.is_true(), edge, count.number());
    put_counter(
        slots,
        at,
        (up, reset, preset),
        preset.number() <= count,
        count,
        up.is_true(),
    )
}

/// CTD: counts down.
#[tactic(auto, using(crate::proofs::BlockLemmas::no_members))]
pub fn step_down(slots: &mut [Value], at: usize) -> Result<(), Fault>
    ensures { (now : ℕ) → Leaves result (block_stepped CTD now at slots.old) slots.new }
{
    let (down, load, preset, _, count, memory) = six_members(slots, at)?;
    let edge = edge(down.is_true(), memory.is_true());
    let count = down_count(load.is_true(), preset.number(), edge, count.number());
    put_counter(
        slots,
        at,
        (down, load, preset),
        count <= 0,
        count,
        down.is_true(),
    )
}

/// The inputs of an up and down counter.
#[derive(Clone, Copy)]
struct UpDown {
    up: Value,
    down: Value,
    reset: Value,
    load: Value,
    preset: Value,
}

/// Assigns the ten members of an up and down counter; F4 if one is of another type, or INT does not hold the count.
#[tactic(auto, using(crate::proofs::BlockLemmas::unheld_up_down))]
fn put_up_down(slots: &mut [Value], at: usize, inputs: UpDown, count: i128) -> Result<(), Fault>
    requires { at + 10 ≤ length slots.old }
    ensures { Leaves result (all_stored slots.old at (inputs.up ∷ inputs.down ∷ inputs.reset ∷ inputs.load
        ∷ inputs.preset ∷ bool_datum (int_le inputs.preset.number count) ∷ bool_datum (int_le count (pos 0))
        ∷ int count ∷ bool_datum (is_true inputs.up) ∷ bool_datum (is_true inputs.down) ∷ [])) slots.new }
{
    let up_q = Value::from_bool(inputs.preset.number() <= count);
    let down_q = Value::from_bool(count <= 0);
    let count = match held_value(Kind::Int, count) {
        Ok(count) => count,
        Err(fault) => return Err(fault),
    };
    let values = [
        inputs.up,
        inputs.down,
        inputs.reset,
        inputs.load,
        inputs.preset,
        up_q,
        down_q,
        count,
        Value::from_bool(inputs.up.is_true()),
        Value::from_bool(inputs.down.is_true()),
    ];
    put_all(slots, at, &values)
}

/// CTUD: counts up and down. Two edges at once count nothing.
#[tactic(auto, using(crate::proofs::BlockLemmas::no_members))]
pub fn step_up_down(slots: &mut [Value], at: usize) -> Result<(), Fault>
    ensures { (now : ℕ) → Leaves result (block_stepped CTUD now at slots.old) slots.new }
{
    let (up, down, reset, load, preset, _, _, count, up_memory, down_memory) = ten_members(
        slots, at,
    )?;
    let inputs = UpDown {
        up,
        down,
        reset,
        load,
        preset,
    };
    let up_edge = edge(up.is_true(), up_memory.is_true());
    let down_edge = edge(down.is_true(), down_memory.is_true());
    let (reset, load) = (reset.is_true(), load.is_true());
    let count = up_down_count(
        reset,
        load,
        preset.number(),
        up_edge,
        down_edge,
        count.number(),
    );
    put_up_down(slots, at, inputs, count)
}
