//! The functions and the blocks of a text.

use crate::statement::SlotStmt;
use st_types::Value;

/// A function.
pub struct SlotFunction {
    /// The values of its variables at the beginning of a call.
    pub fresh: Vec<Value>,
    /// The slots of its inputs, in order.
    pub inputs: Vec<usize>,
    /// The slot of its result.
    pub result: usize,
    pub body: Vec<SlotStmt>,
}

impl Drop for SlotFunction {
    fn drop(self) {
        let Self {
            fresh: _,
            inputs: _,
            result: _,
            body: _,
        } = self;
    }
}

/// The functions, and the bodies of the blocks, by their numbers. None stands for one whose own variables take more
/// slots than any layout has room for: no program can have it.
pub struct SlotLibrary {
    pub functions: Vec<Option<SlotFunction>>,
    pub blocks: Vec<Option<Vec<SlotStmt>>>,
}

impl Drop for SlotLibrary {
    fn drop(self) {
        let Self {
            functions: _,
            blocks: _,
        } = self;
    }
}
