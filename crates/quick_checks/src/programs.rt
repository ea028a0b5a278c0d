//! Whether code stands for a program.

ghost use Rattle.std.specs.Prelude.{◌≡◌, ℕ, IfOk, IfSome, OnOk, Some, length, replicate, slice_get};
ghost use Rattle.slot_trees.specs.LibraryViews.{IsKeptOf, slot_library_view};
ghost use Rattle.slot_trees.specs.StatementViews.{slot_stmts_view};
ghost use Rattle.slot_trees.specs.SlotTrees as tree;
ghost use Rattle.quick_code.specs.Soundness.{IsSound};
ghost use Rattle.quick_trees.specs.declared.noting.Noting.TheVariants.{Exact};
ghost use Rattle.quick_trees.specs.Points.{along};
ghost use Rattle.quick_trees.specs.Programs.{IsProgram, beginning};
ghost use Rattle.quick_trees.specs.QuickMemory as memory;
ghost use Rattle.quick_trees.specs.Windows.{IsWindow};
ghost use Rattle.quick_code.specs.declared.quick_instr.QuickInstr.TheVariants as instrs;
ghost use Rattle.quick_checks.specs.Checking.{frame_of, point_of, program_frame};

use crate::cursor::{Cursor, exits_in_body, instr_at, joins};
use crate::draft::{Landing, QuickDraft};
use crate::refusal::Refusal;
use crate::scope::{Scope, Values, narrow};
use crate::statements::check_stmts;
use crate::windows::{is_window, words_by_slot};
use quick_code::{QuickCode, QuickInstr, Way, is_sound};
use quick_trees::Noting;
use slot_trees::{SlotLibrary, SlotStmt};
use st_types::{Kind, Value};
use std::alloc::{AllocError, Global};

/// Quick code of a program, with the slots that have words, in the order of these, and the constants that follow them.
pub struct DraftedProgram {
    pub code: QuickCode,
    pub window: Vec<usize>,
    pub constants: Vec<Value>,
    /// How many words a run has, and notes: those of these slots, the constants, then temporaries.
    pub words: usize,
}

impl Drop for DraftedProgram {
    fn drop(self) {
        let Self {
            code: _,
            window: _,
            constants: _,
            words: _,
        } = self;
    }
}

impl DraftedProgram {
    /// The code, the slots that have words, the constants, and how many words there are.
    pub fn into_parts(self) -> (QuickCode, Vec<usize>, Vec<Value>, usize)
        ensures code { result.0 ≡ self.code }
        ensures window { result.1 ≡ self.window }
        ensures constants { result.2 ≡ self.constants }
        ensures words { result.3 ≡ self.words }
    {
        let Self {
            code,
            window,
            constants,
            words,
        } = self;
        (code, window, constants, words)
    }

    /// The program, as it is checked.
    fn into_draft(self, kinds: Vec<Kind>, words_by_slot: Vec<u16>) -> QuickDraft
        ensures code { result.code ≡ self.code }
        ensures window { result.window ≡ self.window }
        ensures constants { result.constants ≡ self.constants }
        ensures words { result.words ≡ self.words }
        ensures kinds { result.kinds ≡ kinds }
    {
        let Self {
            code,
            window,
            constants,
            words,
        } = self;
        QuickDraft {
            code,
            kinds,
            window,
            words_by_slot,
            constants,
            words,
        }
    }

    /// The program that was checked.
    fn of_draft(draft: QuickDraft) -> DraftedProgram
        ensures code { result.code ≡ draft.code }
        ensures window { result.window ≡ draft.window }
        ensures constants { result.constants ≡ draft.constants }
        ensures words { result.words ≡ draft.words }
    {
        let parts = draft.into_parts();
        DraftedProgram {
            code: parts.0,
            window: parts.1,
            constants: parts.2,
            words: parts.3,
        }
    }
}

/// Nothing is known of the notes of `count` words, but that they are exact.
fn exact_notes(alloc: Global, count: usize) -> Result<Vec<Noting>, AllocError>
    ensures { IfOk result (λ v. v.items ≡ replicate count Exact) }
{
    let mut notes = Vec::new(alloc);
    let mut index = 0;
    while index < count {
        notes.push(Noting::Exact)?;
        index += 1;
    }
    Ok(notes)
}

/// The point at which a run begins by a way.
fn begun(
    alloc: Global,
    draft: &QuickDraft,
    way: Way,
    landings: Vec<Landing>,
) -> Result<Cursor, Refusal>
    ensures { IfOk result (λ at. (now : ℕ) → point_of at ≡ along (beginning (frame_of draft.now now)) way) }
{
    Ok(Cursor {
        place: usize::from(way.place),
        ahead: usize::from(way.ticks),
        noted: exact_notes(alloc, draft.window.as_slice().len())?,
        landings,
        alloc,
    })
}

/// The end of a program: its last instruction.
fn end_of(alloc: Global, draft: &QuickDraft) -> Result<Landing, Refusal>
    ensures exact { IfOk result (λ l. l.noted.items ≡ replicate (length draft.now.window.items) Exact) }
    ensures ahead { IfOk result (λ l. l.ahead ≡ 0) }
    ensures ends { IfOk result (λ l. slice_get draft.now.code.instrs.items l.place ≡ Some instrs.End) }
{
    let Some(place) = draft.code.instrs.len().checked_sub(1) else {
        return Err(Refusal::Other);
    };
    match instr_at(draft, place)? {
        QuickInstr::End => {}
        _ => return Err(Refusal::Other),
    }
    Ok(Landing {
        place,
        ahead: 0,
        noted: exact_notes(alloc, draft.window.as_slice().len())?,
    })
}

/// The first temporary.
fn first_temporary(draft: &QuickDraft) -> Result<u16, Refusal>
    ensures { IfOk result (λ d. (now : ℕ) → d ≡ memory.first_temporary (frame_of draft.now now)) }
{
    let slots = draft.window.as_slice().len();
    let Some(first) = slots.checked_add(draft.constants.as_slice().len()) else {
        return Err(Refusal::Other);
    };
    narrow(first)
}

/// Finds the code of a program with its own variables from a slot on, and with a bound on the depth of its calls.
fn check_program(
    alloc: Global,
    draft: &QuickDraft,
    library: &SlotLibrary,
    base: usize,
    calls: usize,
    body: &[SlotStmt],
    landings: Vec<Landing>,
) -> Result<(), Refusal>
    ensures { OnOk result ((now : ℕ) (whole : tree.SlotLibrary) → IsKeptOf (slot_library_view library.now) whole
        → IsProgram (frame_of draft.now now) whole base calls (slot_stmts_view body.now)) }
{
    let first = instr_at(draft, 0)?;
    let QuickInstr::Jump { way } = first else {
        return Err(Refusal::Other);
    };
    let last = end_of(alloc, draft)?;
    let exits = exits_in_body(&last)?;
    let scope = Scope {
        values: Values::Whole(base),
        calls,
    };
    let depth = first_temporary(draft)?;
    let mut at = begun(alloc, draft, way, landings)?;
    check_stmts(draft, library, &scope, body, depth, &exits, &mut at)?;
    if !joins(draft, &at, &last) {
        return Err(Refusal::Other);
    }
    Ok(())
}

/// The program, if its code stands for a body over slots of these types, with its own variables from the base on, whose
/// calls are at most that deep; none if the check doesn't find it. The landings are in the order in which the check comes to
/// them.
pub fn checked(
    alloc: Global,
    program: DraftedProgram,
    kinds: &[Kind],
    library: &SlotLibrary,
    base: usize,
    calls: usize,
    body: &[SlotStmt],
    landings: Vec<Landing>,
) -> Result<Option<DraftedProgram>, AllocError>
    ensures stands { IfOk result (λ o. IfSome o (λ p. (now : ℕ) (whole : tree.SlotLibrary)
        → IsKeptOf (slot_library_view library.now) whole
        → IsProgram (program_frame p kinds.now now) whole base calls (slot_stmts_view body.now))) }
    ensures sound { IfOk result (λ o. IfSome o (λ p. IsSound p.code p.words p.words)) }
    ensures window { IfOk result (λ o. IfSome o (λ p. IsWindow (length kinds.now) p.window.items)) }
    ensures same { IfOk result (λ o. IfSome o (λ p. p ≡ program)) }
{
    if !is_window(&program.window, kinds.len()) {
        return Ok(None);
    }
    let words_by_slot = words_by_slot(alloc, &program.window, kinds.len())?;
    let kinds = Vec::from_slice(alloc, kinds)?;
    let draft = program.into_draft(kinds, words_by_slot);
    let mut landings = landings;
    landings.reverse();
    match check_program(alloc, &draft, library, base, calls, body, landings) {
        Ok(()) => {}
        Err(Refusal::OutOfMemory) => return Err(AllocError),
        Err(Refusal::Other) => return Ok(None),
    }
    if !is_sound(&draft.code, draft.words, draft.words) {
        return Ok(None);
    }
    Ok(Some(DraftedProgram::of_draft(draft)))
}
