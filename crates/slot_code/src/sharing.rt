//! Programs whose quick code is the same share it.

ghost use Rattle.std.specs.Prelude.{◌≡◌, ◌<◌, IfOk, IsTrue, Some, length, slice_get};
ghost use Rattle.slot_code.specs.Sharing.{AreSameCode};

use crate::parts::QuickParts;
use crate::program::QuickProgram;
use quick_code::{QuickInstr, Way, is_same, is_way};
use st_types::Value;
use std::alloc::AllocError;
use std::sync::Arc;

/// The instruction at a place.
fn instr_at(instrs: &[QuickInstr], place: usize) -> QuickInstr
    requires { place < length instrs.now }
    ensures { slice_get instrs.now place ≡ Some result }
{
    instrs[place]
}

/// Whether two lists have the same instructions in the same order.
fn same_instrs(these: &[QuickInstr], those: &[QuickInstr]) -> bool
    ensures { IsTrue result → (these.now ≡ those.now) }
{
    if these.len() != those.len() {
        return false;
    }
    for i in 0..these.len() {
        let this = instr_at(these, i);
        let that = instr_at(those, i);
        if !is_same(this, that) {
            return false;
        }
    }
    true
}

/// Whether two lists have the same ways in the same order.
fn same_ways(these: &[Way], those: &[Way]) -> bool
    ensures { IsTrue result → (these.now ≡ those.now) }
{
    if these.len() != those.len() {
        return false;
    }
    for i in 0..these.len() {
        if !is_way(these[i], those[i]) {
            return false;
        }
    }
    true
}

/// Whether two lists have the same values in the same order.
fn same_values(these: &[Value], those: &[Value]) -> bool
    ensures { IsTrue result → (these.now ≡ those.now) }
{
    if these.len() != those.len() {
        return false;
    }
    for i in 0..these.len() {
        if !these[i].is(those[i]) {
            return false;
        }
    }
    true
}

/// Whether two are the same code, with the same constants and as many words.
fn are_same_code(this: &QuickParts, that: &QuickParts) -> bool
    ensures { IsTrue result → AreSameCode this.now that.now }
{
    this.words == that.words
        && same_instrs(&this.code.instrs, &that.code.instrs)
        && same_ways(&this.code.ways, &that.code.ways)
        && same_values(&this.constants, &that.constants)
}

impl QuickProgram {
    /// The same program, with the code of another one if theirs is the same.
    ///
    /// The only error is out of memory.
    pub fn sharing(self, other: &QuickProgram) -> Result<QuickProgram, AllocError>
        ensures instrs { IfOk result (λ q. q.instrs ≡ self.instrs) }
        ensures kinds { IfOk result (λ q. q.kinds ≡ self.kinds) }
        ensures extra { IfOk result (λ q. q.extra ≡ self.extra) }
        ensures window { IfOk result (λ q. q.window ≡ self.window) }
    {
        if !are_same_code(&self.parts, &other.parts) {
            return Ok(self);
        }
        let parts = Arc::clone(&other.parts)?;
        Ok(self.with_parts(parts))
    }
}
