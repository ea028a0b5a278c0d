//! Comparison of codes.

ghost use Rattle.std.specs.Prelude.{◌≡◌, ◌↔◌, IsTrue};
ghost use Rattle.slot_code.specs.Codes.{code_view};

use crate::code::Code;
use machine_code::Instr;
use st_types::Kind;

/// Whether the two types are the same.
fn same_kind(this: Kind, that: Kind) -> bool
    ensures { IsTrue result ↔ (this ≡ that) }
{
    this.is(that)
}

/// Whether two lists have the same types in the same order.
fn same_kinds(these: &[Kind], those: &[Kind]) -> bool
    ensures { IsTrue result ↔ (these.now ≡ those.now) }
{
    if these.len() != those.len() {
        return false;
    }
    for i in 0..these.len() {
        if !same_kind(these[i], those[i]) {
            return false;
        }
    }
    true
}

/// Whether two lists have the same instructions in the same order.
fn same_instrs(these: &[Instr], those: &[Instr]) -> bool
    ensures { IsTrue result ↔ (these.now ≡ those.now) }
{
    if these.len() != those.len() {
        return false;
    }
    for i in 0..these.len() {
        if !these[i].is(those[i]) {
            return false;
        }
    }
    true
}

impl Code {
    /// Whether the two codes are the same.
    pub fn is(&self, other: &Code) -> bool
        ensures { IsTrue result ↔ (code_view self.now ≡ code_view other.now) }
    {
        self.extra == other.extra
            && same_kinds(&self.kinds, &other.kinds)
            && same_instrs(&self.instrs, &other.instrs)
    }
}
