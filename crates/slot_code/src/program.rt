//! Quick code of a program.

ghost use Rattle.std.specs.Prelude.{◌≡◌, IfOk, length};
ghost use Rattle.quick_trees.specs.Windows.{IsWindow};
ghost use Rattle.slot_code.specs.Quick.{IsAnswering};
ghost use Rattle.slot_code.specs.Sharing.{AreSameCode};

use crate::parts::{PlacedParts, QuickParts};
use machine_code::Instr;
use quick_machine::fuse;
use st_types::Kind;
use std::alloc::{AllocError, Global};
use std::marker::Model;
use std::sync::Arc;

/// Quick code of a program, which may be run, next to the program's instructions: a run of it that ends well ends as theirs.
/// Contracts see the instructions, the types of the slots, how many values the instructions have after those of the slots,
/// the parts of the quick code, and its window.
pub struct QuickProgram {
    instrs: Arc<Vec<Instr>>,
    kinds: Arc<Vec<Kind>>,
    extra: usize,
    pub(crate) parts: Arc<QuickParts>,
    pub(crate) window: Vec<usize>,
}

impl Drop for QuickProgram {
    fn drop(self) {
        let Self {
            instrs: _,
            kinds: _,
            extra: _,
            parts: _,
            window: _,
        } = self;
    }
}

impl Model for QuickProgram {
    ghost use Rattle.slot_code.specs.Quick.{IsAnswering, QuickView};

    ghost Value = { QuickView };

    ghost view = { λ p. record {
      instrs = p.instrs.value.items;
      kinds = p.kinds.value.items;
      extra = p.extra;
      parts = p.parts.value;
      window = p.window.items;
    } };

    ghost use Rattle.quick_code.specs.Soundness.{IsSound};
    ghost use Rattle.slot_code.specs.Quick.{AnswersFor};

    ghost invariant = { λ p. IsAnswering p.instrs.value.items p.kinds.value.items p.extra p.parts.value
        p.window.items };
}

impl QuickProgram {
    /// The program of these parts next to these instructions. If the machine has an instruction that does the work of two,
    /// it replaces them.
    ///
    /// The only error is out of memory.
    pub fn new(
        alloc: Global,
        instrs: Arc<Vec<Instr>>,
        kinds: Arc<Vec<Kind>>,
        extra: usize,
        placed: PlacedParts,
    ) -> Result<QuickProgram, AllocError>
        requires { IsAnswering instrs.value.items kinds.value.items extra placed.parts placed.window.items }
        ensures instrs { IfOk result (λ q. q.instrs ≡ instrs.value.items) }
        ensures kinds { IfOk result (λ q. q.kinds ≡ kinds.value.items) }
        ensures extra { IfOk result (λ q. q.extra ≡ extra) }
    {
        let (mut parts, window) = placed.into_both();
        fuse(&mut parts.code);
        Ok(QuickProgram {
            instrs,
            kinds,
            extra,
            parts: Arc::new(alloc, parts)?,
            window,
        })
    }

    /// The same program, with equal parts.
    pub(crate) fn with_parts(self, parts: Arc<QuickParts>) -> QuickProgram
        requires { AreSameCode self.parts parts.value }
        ensures instrs { result.instrs ≡ self.instrs }
        ensures kinds { result.kinds ≡ self.kinds }
        ensures extra { result.extra ≡ self.extra }
        ensures window { result.window ≡ self.window }
    {
        let Self {
            instrs,
            kinds,
            extra,
            parts: _,
            window,
        } = self;
        QuickProgram {
            instrs,
            kinds,
            extra,
            parts,
            window,
        }
    }

    /// The slots of its window.
    pub fn window(&self) -> &[usize]
        ensures window { result.now ≡ self.now.window }
        ensures slots { IsWindow (length self.now.kinds) self.now.window }
    {
        &self.window
    }
}
