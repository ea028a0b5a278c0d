//! Quick code of a program.

ghost use Rattle.std.specs.Prelude.{◌≤◌, ◌+◌, ℕ, IfOk, IfSome, length};
ghost use Rattle.slot_trees.specs.SlotTrees as tree;
ghost use Rattle.slot_trees.specs.LibraryViews.{IsKeptOf, slot_library_view};
ghost use Rattle.slot_trees.specs.StatementViews.{slot_stmts_view};
ghost use Rattle.quick_code.specs.Soundness.{IsSound};
ghost use Rattle.quick_trees.specs.Programs.{IsProgram};
ghost use Rattle.quick_trees.specs.Windows.{IsWindow};
ghost use Rattle.slot_code.specs.Quick.{frame_of};

use crate::programs::{Landing as Drafted, Program, draft_program};
use quick_checks::{DraftedProgram, Landing, checked};
use slot_code::{PlacedParts, QuickParts};
use slot_trees::{SlotLibrary, SlotStmt};
use st_types::Kind;
use std::alloc::{AllocError, Global};

/// The landings of a draft, as the check takes them.
fn landings_of(alloc: Global, drafted: Vec<Drafted>) -> Result<Vec<Landing>, AllocError> {
    let mut landings = Vec::new(alloc);
    for landing in drafted {
        let Drafted {
            place,
            ahead,
            noted,
        } = landing;
        landings.push(Landing {
            place,
            ahead,
            noted,
        })?;
    }
    Ok(landings)
}

/// Quick code of a program with its own variables from a slot on, over slots of these types, with calls at most `calls`
/// deep: over a window of the slots that it names. None if some part has none.
///
/// The code is drafted, and then it is checked against the program: a draft that the check rejects is dropped.
///
/// The only error is out of memory.
pub fn compile(
    alloc: Global,
    library: &SlotLibrary,
    kinds: &[Kind],
    base: usize,
    calls: u16,
    body: &[SlotStmt],
) -> Result<Option<PlacedParts>, AllocError>
    ensures stands { IfOk result (λ o. IfSome o (λ p. (whole : tree.SlotLibrary)
        → IsKeptOf (slot_library_view library.now) whole
        → (now : ℕ) → IsProgram (frame_of p.parts p.window.items kinds.now now) whole base calls
        (slot_stmts_view body.now))) }
    ensures sound { IfOk result (λ o. IfSome o (λ p. IsSound p.parts.code p.parts.words p.parts.words)) }
    ensures window { IfOk result (λ o. IfSome o (λ p. IsWindow (length kinds.now) p.window.items)) }
    ensures room { IfOk result (λ o. IfSome o (λ p. length p.window.items + length p.parts.constants.items
        ≤ p.parts.words)) }
{
    let calls = usize::from(calls);
    let program = Program {
        body,
        library,
        kinds,
        base,
        calls,
    };
    let Some(draft) = draft_program(alloc, program)? else {
        return Ok(None);
    };
    let (code, window, constants, words, landings) = draft.into_parts();
    if constants.len() > words || window.len() > words - constants.len() {
        return Ok(None);
    }
    let landings = landings_of(alloc, landings)?;
    let drafted = DraftedProgram {
        code,
        window,
        constants,
        words,
    };
    match checked(alloc, drafted, kinds, library, base, calls, body, landings)? {
        Some(program) => {
            let (code, window, constants, words) = program.into_parts();
            let parts = QuickParts {
                code,
                constants,
                words,
            };
            Ok(Some(PlacedParts { parts, window }))
        }
        None => Ok(None),
    }
}
