//! Units of a program, and where their values are.

use crate::stop::Stop;
use crate::windows::Window;
use slot_trees::{Anchor, SlotFunction, SlotLibrary, SlotStmt};
use st_types::Kind;

/// The word of a function's value, which the function may assign or not.
#[derive(Clone, Copy)]
pub struct FunctionWord {
    pub word: u16,
    pub is_own: bool,
}

/// The values of a unit.
pub enum Values {
    /// Those of all slots, among which the unit's own variables begin at a base.
    Whole(usize),
    /// Those of a function, with their types.
    Called(Vec<Kind>, Vec<FunctionWord>),
}

impl Drop for Values {
    fn drop(self) {
        match self {
            Self::Whole(_) | Self::Called(_, _) => {}
        }
    }
}

/// A unit, with the parts that its whole program shares.
#[derive(Clone, Copy)]
pub struct Unit<'a> {
    pub library: &'a SlotLibrary,
    /// The types of all slots.
    pub kinds: &'a [Kind],
    /// The slots that have words.
    pub window: &'a Window,
    pub values: &'a Values,
    /// How deep its calls may be.
    pub calls: usize,
}

impl<'a> Unit<'a> {
    /// Whether the values have notes.
    pub fn is_noted(self) -> bool {
        match self.values {
            Values::Whole(_) => true,
            Values::Called(_, _) => false,
        }
    }

    /// The value that an anchor means.
    pub fn slot_of(self, anchor: Anchor) -> Result<usize, Stop> {
        let base = match self.values {
            Values::Whole(base) => *base,
            Values::Called(_, _) => 0,
        };
        match anchor {
            Anchor::Own(offset) => base.checked_add(offset).ok_or(Stop::NotCovered),
            Anchor::Absolute(slot) => Ok(slot),
        }
    }

    /// The type of a value.
    pub fn kind_at(self, slot: usize) -> Result<Kind, Stop> {
        let kind = match self.values {
            Values::Whole(_) => self.kinds.get(slot),
            Values::Called(kinds, _) => kinds.get(slot),
        };
        match kind {
            Some(kind) => Ok(*kind),
            None => Err(Stop::NotCovered),
        }
    }

    /// The seat of a value.
    pub fn function_word_at(self, slot: usize) -> Result<FunctionWord, Stop> {
        match self.values {
            Values::Whole(_) => Ok(FunctionWord {
                word: self.window.word_of(slot)?,
                is_own: true,
            }),
            Values::Called(_, seats) => match seats.get(slot) {
                Some(seat) => Ok(*seat),
                None => Err(Stop::NotCovered),
            },
        }
    }

    /// The word of a value that may be assigned.
    pub fn own_word_of(self, slot: usize) -> Result<u16, Stop> {
        let seat = self.function_word_at(slot)?;
        if seat.is_own {
            Ok(seat.word)
        } else {
            Err(Stop::NotCovered)
        }
    }

    /// The word of the value that an anchor means.
    pub fn word_of(self, anchor: Anchor) -> Result<u16, Stop> {
        let slot = self.slot_of(anchor)?;
        Ok(self.function_word_at(slot)?.word)
    }

    /// Whether a statement of the unit may assign a word.
    pub fn may_assign(self, word: u16) -> bool {
        match self.values {
            Values::Whole(_) => (word as usize) < self.window.count(),
            Values::Called(_, seats) => {
                for seat in seats {
                    if seat.is_own && seat.word == word {
                        return true;
                    }
                }
                false
            }
        }
    }

    /// The function of a number.
    pub fn function_at(self, number: usize) -> Result<&'a SlotFunction, Stop> {
        match self.library.functions.get(number) {
            Some(Some(function)) => Ok(function),
            Some(None) | None => Err(Stop::NotCovered),
        }
    }

    /// The body of the block of a number.
    pub fn block_at(self, number: usize) -> Result<&'a [SlotStmt], Stop> {
        match self.library.blocks.get(number) {
            Some(Some(body)) => Ok(body),
            Some(None) | None => Err(Stop::NotCovered),
        }
    }
}

/// A number that instructions can name.
pub fn narrow(number: usize) -> Result<u16, Stop> {
    match u16::try_from(number) {
        Ok(word) => Ok(word),
        Err(_) => Err(Stop::NotCovered),
    }
}
