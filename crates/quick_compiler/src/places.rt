//! Variables and elements of arrays.

use crate::draft::Draft;
use crate::reading::Reading;
use crate::stop::Stop;
use crate::subscripts::Indexed;
use crate::unit::{Unit, narrow};
use quick_code::QuickInstr;
use slot_trees::{Anchor, Place, Subscript};

/// The number of elements up to which quick code goes into an array.
const MAX_ELEMENTS: usize = 8192;

/// Where an expression is assigned to, or looked up.
#[derive(Clone, Copy)]
pub enum Variable<'a> {
    Whole(Anchor),
    Element(Anchor, &'a Subscript),
    /// A value of an array in an array.
    Within,
}

/// The kind of a place.
pub fn variable_of(place: &Place) -> Variable<'_> {
    match place.subscripts.as_slice() {
        [] => Variable::Whole(place.anchor),
        [subscript] => Variable::Element(place.anchor, subscript),
        _ => Variable::Within,
    }
}

/// Looks up a variable.
pub fn read_variable(unit: Unit, draft: &mut Draft, anchor: Anchor) -> Result<Reading, Stop> {
    let slot = unit.slot_of(anchor)?;
    let kind = unit.kind_at(slot)?;
    let word = unit.function_word_at(slot)?.word;
    draft.look(unit, slot)?;
    Ok(Reading { kind, word })
}

/// The elements of an array, as instructions name them.
#[derive(Clone, Copy)]
struct Elements {
    first: u16,
    count: u16,
    stride: u16,
}

fn elements_of(unit: Unit, anchor: Anchor, subscript: &Subscript) -> Result<Elements, Stop> {
    if subscript.count > MAX_ELEMENTS {
        return Err(Stop::NotCovered);
    }
    Ok(Elements {
        first: unit.own_word_of(unit.slot_of(anchor)?)?,
        count: narrow(subscript.count)?,
        stride: narrow(subscript.stride)?,
    })
}

/// Loads an element.
pub fn put_load(
    unit: Unit,
    draft: &mut Draft,
    anchor: Anchor,
    subscript: &Subscript,
    index: Indexed,
    to: u16,
) -> Result<(), Stop> {
    let Elements {
        first,
        count,
        stride,
    } = elements_of(unit, anchor, subscript)?;
    let Indexed { word, shift } = index;
    draft.sheet.put(if stride == 1 {
        QuickInstr::LoadElement {
            subscript: word,
            shift,
            to,
            first,
            count,
        }
    } else {
        QuickInstr::LoadMember {
            subscript: word,
            shift,
            to,
            first,
            count,
            stride,
        }
    })
}

/// Assigns to an element.
pub fn put_store(
    unit: Unit,
    draft: &mut Draft,
    anchor: Anchor,
    subscript: &Subscript,
    index: Indexed,
    from: u16,
) -> Result<(), Stop> {
    let Elements {
        first,
        count,
        stride,
    } = elements_of(unit, anchor, subscript)?;
    let Indexed { word, shift } = index;
    draft.sheet.put(if stride == 1 {
        QuickInstr::StoreElement {
            subscript: word,
            shift,
            from,
            first,
            count,
        }
    } else {
        QuickInstr::StoreMember {
            subscript: word,
            shift,
            from,
            first,
            count,
            stride,
        }
    })
}
