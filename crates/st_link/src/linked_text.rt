//! Linked texts.

use slot_trees::{SlotLibrary, SlotStmt};

/// A linked text.
pub struct LinkedText {
    /// The functions and blocks, which programs call by their numbers.
    pub library: SlotLibrary,
    /// The programs of the configuration's instances, in its order.
    pub programs: Vec<Vec<SlotStmt>>,
}

impl Drop for LinkedText {
    fn drop(self) {
        let Self {
            library: _,
            programs: _,
        } = self;
    }
}
