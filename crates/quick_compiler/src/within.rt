//! The code of arrays in arrays.

use crate::draft::Draft;
use crate::spot::Spot;
use crate::stop::Stop;
use crate::subscripts::{Indexed, put_subscript};
use crate::unit::{Unit, narrow};
use quick_code::QuickInstr;
use slot_trees::{Place, Subscript};
use st_types::Kind;

/// The use of a value of an array in an array: it is loaded to a word, or assigned from one.
#[derive(Clone, Copy)]
pub enum Access {
    Load(u16),
    Store(u16),
}

/// Writes the code that goes along subscripts to a value, and its use there: its type.
#[cycle(draft)]
pub fn put_within(
    unit: Unit,
    draft: &mut Draft,
    place: &Place,
    spot: Spot,
    access: Access,
) -> Result<Kind, Stop> {
    let slot = unit.slot_of(place.anchor)?;
    let array = Array {
        offset: draft.temporary(spot.depth),
        first: unit.own_word_of(slot)?,
        access,
    };
    let subscripts = place.subscripts.as_slice();
    for (number, subscript) in subscripts.iter().enumerate() {
        let index = if number == 0 {
            put_subscript(unit, draft, subscript, spot.inside()?)?
        } else {
            put_subscript(unit, draft, subscript, spot.after_temporaries(1)?)?
        };
        let step = if number == 0 {
            Step::First
        } else if subscripts.len() - number == 1 {
            Step::Last
        } else {
            Step::Further
        };
        draft.sheet.put(array.instr(step, index, subscript)?)?;
    }
    unit.kind_at(slot)
}

/// Which of the subscripts of a place one is.
#[derive(Clone, Copy)]
enum Step {
    First,
    Further,
    Last,
}

/// An array: the temporary for the offset of an element, its first word, and the use of the value.
#[derive(Clone, Copy)]
struct Array {
    offset: u16,
    first: u16,
    access: Access,
}

impl Array {
    /// The instruction that a subscript has.
    fn instr(self, step: Step, index: Indexed, subscript: &Subscript) -> Result<QuickInstr, Stop> {
        let count = narrow(subscript.count)?;
        let stride = narrow(subscript.stride)?;
        let Indexed { word, shift } = index;
        let Array {
            offset,
            first,
            access,
        } = self;
        if let Step::First = step {
            return Ok(QuickInstr::Locate {
                subscript: word,
                shift,
                to: offset,
                count,
                stride,
            });
        }
        let Ok(shift) = i16::try_from(shift) else {
            return Err(Stop::NotCovered);
        };
        Ok(match (step, access) {
            (Step::Last, Access::Load(to)) => QuickInstr::LoadNested {
                offset,
                subscript: word,
                shift,
                to,
                first,
                count,
                stride,
            },
            (Step::Last, Access::Store(from)) => QuickInstr::StoreNested {
                offset,
                subscript: word,
                shift,
                from,
                first,
                count,
                stride,
            },
            _ => QuickInstr::LocateNested {
                offset,
                subscript: word,
                shift,
                to: offset,
                count,
                stride,
            },
        })
    }
}
