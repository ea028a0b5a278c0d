//! Subscripts: the word that an instruction takes, and its addend to that.

use crate::draft::Draft;
use crate::reading::put_read;
use crate::spot::Spot;
use crate::stop::Stop;
use crate::unit::Unit;
use quick_checks::{shift_for, summed};
use slot_trees::Subscript;
use st_types::is_wide;

/// A subscript as an instruction takes it: a word, and the addend to that, so that the first element's is 0.
#[derive(Clone, Copy)]
pub struct Indexed {
    pub word: u16,
    pub shift: i32,
}

/// Writes the code that reads a subscript. A constant that its elements need not have added is left to the instruction.
#[cycle(draft)]
pub fn put_subscript(
    unit: Unit,
    draft: &mut Draft,
    subscript: &Subscript,
    spot: Spot,
) -> Result<Indexed, Stop> {
    let (read, added) = match summed(subscript) {
        Some(sum) => (put_read(unit, draft, sum.rest, spot.inside()?)?, sum.added),
        None => (put_read(unit, draft, &subscript.index, spot.inside()?)?, 0),
    };
    if is_wide(read.kind) {
        return Err(Stop::NotCovered);
    }
    let shift = shift_for(subscript, added)?;
    Ok(Indexed {
        word: read.word,
        shift,
    })
}
