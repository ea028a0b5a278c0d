//! The parts that a run of quick code needs.

ghost use Rattle.std.specs.Prelude.{◌≡◌};

use quick_code::QuickCode;
use st_types::Value;

/// Quick code, the constants that come after the words of slots, and how many words and notes a run has. Instances of a
/// program may share it.
pub struct QuickParts {
    pub code: QuickCode,
    pub constants: Vec<Value>,
    pub words: usize,
}

impl Drop for QuickParts {
    fn drop(self) {
        let Self {
            code: _,
            constants: _,
            words: _,
        } = self;
    }
}

/// Quick code over a window: the slots, in increasing order, whose words are the first ones. It leaves all other slots
/// alone.
pub struct PlacedParts {
    pub parts: QuickParts,
    pub window: Vec<usize>,
}

impl Drop for PlacedParts {
    fn drop(self) {
        let Self {
            parts: _,
            window: _,
        } = self;
    }
}

impl PlacedParts {
    /// The code, and the slots of its window.
    pub(crate) fn into_both(self) -> (QuickParts, Vec<usize>)
        ensures parts { result.0 ≡ self.parts }
        ensures window { result.1 ≡ self.window }
    {
        let Self { parts, window } = self;
        (parts, window)
    }
}
