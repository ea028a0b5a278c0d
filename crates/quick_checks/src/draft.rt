//! Code that is to be checked.

ghost use Rattle.std.specs.Prelude.{◌≡◌};

use quick_code::QuickCode;
use quick_trees::Noting;
use st_types::{Kind, Value};

/// Quick code of a program, with the types of its slots, the slots that have words, in the order of these, the constants
/// that follow them, and how many words there are.
pub struct QuickDraft {
    pub code: QuickCode,
    pub kinds: Vec<Kind>,
    pub window: Vec<usize>,
    /// The word of each slot that has one.
    pub words_by_slot: Vec<u16>,
    pub constants: Vec<Value>,
    pub words: usize,
}

impl Drop for QuickDraft {
    fn drop(self) {
        let Self {
            code: _,
            kinds: _,
            window: _,
            words_by_slot: _,
            constants: _,
            words: _,
        } = self;
    }
}

impl QuickDraft {
    /// The code, the slots that have words, the constants, and how many words there are.
    pub fn into_parts(self) -> (QuickCode, Vec<usize>, Vec<Value>, usize)
        ensures code { result.0 ≡ self.code }
        ensures window { result.1 ≡ self.window }
        ensures constants { result.2 ≡ self.constants }
        ensures words { result.3 ≡ self.words }
    {
        let Self {
            code,
            kinds: _,
            window,
            words_by_slot: _,
            constants,
            words,
        } = self;
        (code, window, constants, words)
    }
}

/// A place of the code where runs come together, how many ticks of the code that follows they have taken already, and the
/// facts known of the notes of the slots' words.
#[derive(Drop)]
pub struct Landing {
    pub place: usize,
    pub ahead: usize,
    pub noted: Vec<Noting>,
}

/// Where EXIT and RETURN lead.
#[derive(Drop)]
pub struct Exits {
    pub out: Landing,
    pub back: Landing,
}
