//! Bistables.

ghost use Rattle.std.specs.Prelude.{◌≡◌, ℕ};
ghost use Rattle.st_meaning.specs.StandardBlocks.{SR, RS, set_first, reset_first};
ghost use Rattle.std_blocks.specs.Members.{block_stepped, Leaves};

use crate::members::{put_all, three_members};
use st_types::{Fault, Value};

fn set_first(set: bool, reset: bool, q: bool) -> bool
    ensures { result ≡ set_first set reset q }
{
    set || (!reset && q)
}

fn reset_first(set: bool, reset: bool, q: bool) -> bool
    ensures { result ≡ reset_first set reset q }
{
    !reset && (set || q)
}

/// SR: set first.
#[tactic(auto, using(crate::proofs::BlockLemmas::no_members, crate::proofs::BlockLemmas::set_first_steps))]
pub fn step_set_first(slots: &mut [Value], at: usize) -> Result<(), Fault>
    ensures { (now : ℕ) → Leaves result (block_stepped SR now at slots.old) slots.new }
{
    let (set, reset, q) = three_members(slots, at)?;
    let q = Value::from_bool(set_first(set.is_true(), reset.is_true(), q.is_true()));
    put_all(slots, at, &[set, reset, q])
}

/// RS: reset first.
#[tactic(auto, using(crate::proofs::BlockLemmas::no_members, crate::proofs::BlockLemmas::reset_first_steps))]
pub fn step_reset_first(slots: &mut [Value], at: usize) -> Result<(), Fault>
    ensures { (now : ℕ) → Leaves result (block_stepped RS now at slots.old) slots.new }
{
    let (set, reset, q) = three_members(slots, at)?;
    let q = Value::from_bool(reset_first(set.is_true(), reset.is_true(), q.is_true()));
    put_all(slots, at, &[set, reset, q])
}
