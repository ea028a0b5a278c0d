//! Code is made with quick code of the same program, if there is some.

ghost use Rattle.std.specs.Option.{ForSome};
ghost use Rattle.std.specs.Prelude.{◌≡◌, ◌≤◌, ◌+◌, IfOk, IfSome, length};
ghost use Rattle.machine_code.specs.declared.limits.TheConstants.{MAX_INSTRUCTIONS, MAX_MEMORY};
ghost use Rattle.slot_code.specs.Quick.{IsAnswering};
ghost use Rattle.slot_code.specs.Codes.{code_view};

use crate::code::Code;
use crate::parts::PlacedParts;
use crate::program::QuickProgram;
use machine_code::Instr;
use st_types::Kind;
use std::alloc::{AllocError, Global};
use std::sync::Arc;

/// Quick code next to these instructions. If it is the same as that of the code before, they share it.
fn quick_beside(
    alloc: Global,
    instrs: &Arc<Vec<Instr>>,
    kinds: &Arc<Vec<Kind>>,
    extra: usize,
    placed: PlacedParts,
    before: Option<&Code>,
) -> Result<QuickProgram, AllocError>
    requires { IsAnswering instrs.now.value.items kinds.now.value.items extra placed.parts placed.window.items }
    ensures { IfOk result (λ q. (q.instrs ≡ instrs.now.value.items) × (q.kinds ≡ kinds.now.value.items)
        × (q.extra ≡ extra)) }
{
    let program = QuickProgram::new(
        alloc,
        Arc::clone(instrs)?,
        Arc::clone(kinds)?,
        extra,
        placed,
    )?;
    match before {
        Some(code) => match &code.quick {
            Some(other) => program.sharing(other),
            None => Ok(program),
        },
        None => Ok(program),
    }
}

impl Code {
    /// The code of these instructions over slots of these types, with `extra` values after them, and with quick code of the
    /// same program, if there is some. Instances of one program come one after another, and share quick code that is the
    /// same: `before` is the code before, if there is one.
    ///
    /// The only error is out of memory.
    pub fn new(
        alloc: Global,
        instrs: Vec<Instr>,
        kinds: Arc<Vec<Kind>>,
        extra: usize,
        quick: Option<PlacedParts>,
        before: Option<&Code>,
    ) -> Result<Code, AllocError>
        requires short { length instrs.items ≤ MAX_INSTRUCTIONS }
        requires numbered { length kinds.value.items + extra ≤ MAX_MEMORY }
        requires quick { IfSome quick (λ q. IsAnswering instrs.items kinds.value.items extra q.parts q.window.items) }
        ensures code { IfOk result (λ code. code_view code ≡ record {
          instrs = instrs.items;
          kinds = kinds.value.items;
          extra = extra;
        }) }
    {
        let instrs = Arc::new(alloc, instrs)?;
        let quick = match quick {
            Some(placed) => Some(quick_beside(alloc, &instrs, &kinds, extra, placed, before)?),
            None => None,
        };
        Ok(Code {
            instrs,
            kinds,
            extra,
            quick,
        })
    }
}
