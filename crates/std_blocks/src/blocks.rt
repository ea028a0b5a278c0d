//! Standard function blocks.

ghost use Rattle.std_blocks.specs.Members.{block_stepped, Leaves};
ghost use Rattle.symbols.specs.Standard.{block_view};

use crate::bistables::{step_reset_first, step_set_first};
use crate::counters::{step_down, step_up, step_up_down};
use crate::edge_blocks::{step_falling, step_rising};
use crate::timers::{step_off_delay, step_on_delay, step_pulse};
use st_types::{Fault, Value};
use symbols::StandardBlock;

/// A call of a standard block at a moment, in milliseconds: the members of its instance, whose slots are those from one on,
/// take the values that the definition of the block gives them, inputs first, then outputs and hidden members. It takes no
/// memory.
///
/// F4 if a member's slot does not exist or is of another type, which no well-typed text has; the values of the slots are
/// unspecified then.
///
/// IEC 61131-3:2003, tables 34 to 37, with the step functions of our profile for timers.
pub fn step(block: StandardBlock, slots: &mut [Value], at: usize, now: u64) -> Result<(), Fault>
    ensures { Leaves result (block_stepped (block_view block) now at slots.old) slots.new }
{
    match block {
        StandardBlock::Sr => step_set_first(slots, at),
        StandardBlock::Rs => step_reset_first(slots, at),
        StandardBlock::RTrig => step_rising(slots, at),
        StandardBlock::FTrig => step_falling(slots, at),
        StandardBlock::Ctu => step_up(slots, at),
        StandardBlock::Ctd => step_down(slots, at),
        StandardBlock::Ctud => step_up_down(slots, at),
        StandardBlock::Ton => step_on_delay(slots, at, now),
        StandardBlock::Tof => step_off_delay(slots, at, now),
        StandardBlock::Tp => step_pulse(slots, at, now),
    }
}
