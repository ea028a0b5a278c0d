//! Places of the code that is checked.

ghost use Rattle.std.specs.Prelude.{◌≡◌, ◌+◌, ℕ, IfOk, IsTrue, OnOk, Some, slice_get, suc};
ghost use Rattle.quick_trees.specs.Notes as notes;
ghost use Rattle.quick_trees.specs.Notes.{NoteChanges, Implies};
ghost use Rattle.quick_trees.specs.Pieces.{IsInstr};
ghost use Rattle.quick_trees.specs.Points.{AreNoted, LoopsBack, IsNoted, Joins, Refines, Note, along, next, past_branch};
ghost use Rattle.quick_trees.specs.UnitValues.{Touches};
ghost use Rattle.quick_trees.specs.TreeCode.{IsAssignedAt};
ghost use Rattle.quick_checks.specs.Checking.{exits_of, frame_of, landing_of, point_of, site_of};

use crate::draft::{Exits, Landing, QuickDraft};
use crate::refusal::Refusal;
use crate::scope::Values;
use quick_code::{QuickInstr, Way, is_same};
use quick_trees::Noting;
use std::alloc::Global;

/// How far a check has come: a place of the code, how many ticks of the code that follows are taken there already, and the
/// facts known of the notes. The landings that are to come are stored with the next one last.
pub struct Cursor {
    pub place: usize,
    pub ahead: usize,
    pub noted: Vec<Noting>,
    pub landings: Vec<Landing>,
    pub alloc: Global,
}

impl Drop for Cursor {
    fn drop(self) {
        let Self {
            place: _,
            ahead: _,
            noted: _,
            landings: _,
            alloc: _,
        } = self;
    }
}

/// The instruction at a place.
pub fn instr_at(draft: &QuickDraft, place: usize) -> Result<QuickInstr, Refusal>
    ensures { IfOk result (λ i. slice_get draft.now.code.instrs.items place ≡ Some i) }
{
    match draft.code.instrs.get(place) {
        Some(instr) => Ok(*instr),
        None => Err(Refusal::Other),
    }
}

/// Finds an instruction here.
pub fn find(draft: &QuickDraft, at: &Cursor, instr: QuickInstr) -> Result<(), Refusal>
    ensures { OnOk result (slice_get draft.now.code.instrs.items at.now.place ≡ Some instr) }
{
    if !is_same(instr_at(draft, at.place)?, instr) {
        return Err(Refusal::Other);
    }
    Ok(())
}

/// Finds an instruction, and goes on after it.
pub fn expect(draft: &QuickDraft, at: &mut Cursor, instr: QuickInstr) -> Result<(), Refusal>
    ensures stands { OnOk result (slice_get draft.now.code.instrs.items at.old.place ≡ Some instr) }
    ensures next { OnOk result (point_of at.new ≡ next (point_of at.old)) }
{
    find(draft, at, instr)?;
    at.place += 1;
    Ok(())
}

/// Finds the instruction for an operation, if there is one.
pub fn expect_for(
    draft: &QuickDraft,
    at: &mut Cursor,
    instr: Option<QuickInstr>,
) -> Result<(), Refusal>
    ensures stands { OnOk result ((now : ℕ) → IsInstr (frame_of draft.now now) instr at.old.place) }
    ensures next { OnOk result (point_of at.new ≡ next (point_of at.old)) }
{
    match instr {
        Some(instr) => expect(draft, at, instr),
        None => Err(Refusal::Other),
    }
}

/// Goes on after a branch that is not taken.
pub fn pass(at: &mut Cursor, past: u16) -> Result<(), Refusal>
    ensures { OnOk result (point_of at.new ≡ past_branch (point_of at.old) past) }
{
    let (Some(place), Some(ahead)) = (
        at.place.checked_add(1),
        at.ahead.checked_add(usize::from(past)),
    ) else {
        return Err(Refusal::Other);
    };
    at.place = place;
    at.ahead = ahead;
    Ok(())
}

/// Takes the tick of a statement.
pub fn tick(at: &mut Cursor) -> Result<(), Refusal>
    ensures ticks { OnOk result (at.old.ahead ≡ suc at.new.ahead) }
    ensures rest { OnOk result (point_of at.new ≡ record (point_of at.old) { ahead = at.new.ahead }) }
{
    if at.ahead == 0 {
        return Err(Refusal::Other);
    }
    at.ahead -= 1;
    Ok(())
}

/// Goes on after the instruction here.
pub fn step(at: &mut Cursor) -> Result<(), Refusal>
    ensures { OnOk result (point_of at.new ≡ next (point_of at.old)) }
{
    let Some(place) = at.place.checked_add(1) else {
        return Err(Refusal::Other);
    };
    at.place = place;
    Ok(())
}

/// Whether the instruction here is the one for an operation, if there is one.
pub fn is_instr(draft: &QuickDraft, at: &Cursor, instr: Option<QuickInstr>) -> bool
    ensures { IsTrue result → (now : ℕ) → IsInstr (frame_of draft.now now) instr at.now.place }
{
    let Some(instr) = instr else {
        return false;
    };
    match instr_at(draft, at.place) {
        Ok(there) => is_same(there, instr),
        Err(_) => false,
    }
}

/// Whether as much is known of each slot as a landing asks.
pub fn notes_imply(these: &[Noting], those: &[Noting]) -> bool
    ensures { IsTrue result → Implies these.now those.now }
{
    let mut index = 0;
    while index < those.len() {
        match these.get(index) {
            Some(noting) => {
                if !noting.implies(those[index]) {
                    return false;
                }
            }
            None => return false,
        }
        index += 1;
    }
    true
}

/// Whether a run that is here is at a landing.
pub fn is_at(at: &Cursor, to: &Landing) -> bool
    ensures { IsTrue result → Refines (point_of at.now) (landing_of to.now) }
{
    at.place == to.place && at.ahead == to.ahead && notes_imply(&at.noted, &to.noted)
}

/// Whether a way from here leads to a landing.
pub fn leads(at: &Cursor, way: Way, to: &Landing) -> bool
    ensures { IsTrue result → Refines (along (point_of at.now) way) (landing_of to.now) }
{
    let ticks = usize::from(way.ticks);
    usize::from(way.place) == to.place
        && ticks <= to.ahead
        && to.ahead - ticks == at.ahead
        && notes_imply(&at.noted, &to.noted)
}

/// Whether the branch here leads to a landing when it is not taken.
pub fn passes(at: &Cursor, past: u16, to: &Landing) -> bool
    ensures { IsTrue result → Refines (past_branch (point_of at.now) past) (landing_of to.now) }
{
    let ticks = usize::from(past);
    at.place < to.place
        && to.place - 1 == at.place
        && ticks <= to.ahead
        && to.ahead - ticks == at.ahead
        && notes_imply(&at.noted, &to.noted)
}

/// Whether a way from here leads to a landing, for a tick.
pub fn loops_back(at: &Cursor, way: Way, to: &Landing) -> bool
    ensures { IsTrue result → LoopsBack (along (point_of at.now) way) (landing_of to.now) }
{
    let ticks = usize::from(way.ticks);
    usize::from(way.place) == to.place
        && 0 < ticks
        && ticks - 1 <= to.ahead
        && to.ahead - (ticks - 1) == at.ahead
        && notes_imply(&at.noted, &to.noted)
}

/// Whether the branch here leads to a landing, for a tick, when it is not taken.
pub fn passes_back(at: &Cursor, past: u16, to: &Landing) -> bool
    ensures { IsTrue result → LoopsBack (past_branch (point_of at.now) past) (landing_of to.now) }
{
    let ticks = usize::from(past);
    at.place < to.place
        && to.place - 1 == at.place
        && 0 < ticks
        && ticks - 1 <= to.ahead
        && to.ahead - (ticks - 1) == at.ahead
        && notes_imply(&at.noted, &to.noted)
}

/// Whether a run that is here comes to a landing, at once or by a jump.
pub fn joins(draft: &QuickDraft, at: &Cursor, to: &Landing) -> bool
    ensures { IsTrue result
        → (now : ℕ) → Joins (frame_of draft.now now) (point_of at.now) (landing_of to.now) }
{
    if is_at(at, to) {
        return true;
    }
    match instr_at(draft, at.place) {
        Ok(QuickInstr::Jump { way }) => leads(at, way, to),
        _ => false,
    }
}

/// This point, as a landing.
pub fn mark(at: &Cursor) -> Result<Landing, Refusal>
    ensures { IfOk result (λ l. landing_of l ≡ point_of at.now) }
{
    Ok(Landing {
        place: at.place,
        ahead: at.ahead,
        noted: at.noted.clone()?,
    })
}

/// The point to which a way leads from here.
pub fn mark_along(at: &Cursor, way: Way) -> Result<Landing, Refusal>
    ensures { IfOk result (λ l. landing_of l ≡ along (point_of at.now) way) }
{
    let Some(ahead) = at.ahead.checked_add(usize::from(way.ticks)) else {
        return Err(Refusal::Other);
    };
    Ok(Landing {
        place: usize::from(way.place),
        ahead,
        noted: at.noted.clone()?,
    })
}

/// The point to which a way leads from a landing.
pub fn way_from(from: &Landing, way: Way) -> Result<Landing, Refusal>
    ensures { IfOk result (λ l. landing_of l ≡ along (landing_of from.now) way) }
{
    let Some(ahead) = from.ahead.checked_add(usize::from(way.ticks)) else {
        return Err(Refusal::Other);
    };
    Ok(Landing {
        place: usize::from(way.place),
        ahead,
        noted: from.noted.clone()?,
    })
}

/// Goes on at a landing.
pub fn go(at: &mut Cursor, to: Landing)
    ensures { point_of at.new ≡ landing_of to }
{
    at.place = to.place;
    at.ahead = to.ahead;
    at.noted = to.noted;
}

/// The next landing that is to come.
pub fn landing(at: &mut Cursor) -> Result<Landing, Refusal>
    ensures { point_of at.new ≡ point_of at.old }
{
    match at.landings.pop() {
        Some(landing) => Ok(landing),
        None => Err(Refusal::Other),
    }
}

/// Finds that a run which is here comes to a landing, and goes on at the next one that is to come.
pub fn leave(draft: &QuickDraft, at: &mut Cursor, to: &Landing) -> Result<(), Refusal>
    ensures { OnOk result
        ((now : ℕ) → Joins (frame_of draft.now now) (point_of at.old) (landing_of to.now)) }
{
    if !joins(draft, at, to) {
        return Err(Refusal::Other);
    }
    let behind = landing(at)?;
    go(at, behind);
    Ok(())
}

/// The value of a word is looked up here.
pub fn look(values: &Values, at: &mut Cursor, word: u16) -> Result<(), Refusal>
    ensures same { OnOk result (point_of at.new ≡ record (point_of at.old) { noted = at.new.noted.items }) }
    ensures touches { OnOk result
        (Touches notes.at_look (site_of values.now) word at.old.noted.items at.new.noted.items) }
{
    match values {
        Values::Whole(_) => {
            let slot = word as usize;
            if slot >= at.noted.len() {
                return Err(Refusal::Other);
            }
            let Some(noting) = at.noted[slot].at_look() else {
                return Err(Refusal::Other);
            };
            at.noted[slot] = noting;
            Ok(())
        }
        Values::Called(_, _) => Ok(()),
    }
}

/// The value of a word is assigned here.
pub fn assign(values: &Values, at: &mut Cursor, word: u16) -> Result<(), Refusal>
    ensures same { OnOk result (point_of at.new ≡ record (point_of at.old) { noted = at.new.noted.items }) }
    ensures touches { OnOk result
        (Touches notes.at_assignment (site_of values.now) word at.old.noted.items at.new.noted.items) }
{
    match values {
        Values::Whole(_) => {
            let slot = word as usize;
            if slot >= at.noted.len() {
                return Err(Refusal::Other);
            }
            let Some(noting) = at.noted[slot].at_assignment() else {
                return Err(Refusal::Other);
            };
            at.noted[slot] = noting;
            Ok(())
        }
        Values::Called(_, _) => Ok(()),
    }
}

/// A look that comes is noted, if the instruction here does that.
fn note_look(at: &mut Cursor, word: u16) -> Result<(), Refusal>
    ensures next { OnOk result (point_of at.new ≡ record (next (point_of at.old)) { noted = at.new.noted.items }) }
    ensures changes { OnOk result (NoteChanges notes.with_look_ahead word at.old.noted.items at.new.noted.items) }
{
    let slot = word as usize;
    if slot >= at.noted.len() {
        return Err(Refusal::Other);
    }
    let Some(noting) = at.noted[slot].with_look_ahead() else {
        return Err(Refusal::Other);
    };
    at.noted[slot] = noting;
    step(at)
}

/// The same for an assignment.
fn note_assignment(at: &mut Cursor, word: u16) -> Result<(), Refusal>
    ensures next { OnOk result (point_of at.new ≡ record (next (point_of at.old)) { noted = at.new.noted.items }) }
    ensures changes { OnOk result
        (NoteChanges notes.with_assignment_ahead word at.old.noted.items at.new.noted.items) }
{
    let slot = word as usize;
    if slot >= at.noted.len() {
        return Err(Refusal::Other);
    }
    let Some(noting) = at.noted[slot].with_assignment_ahead() else {
        return Err(Refusal::Other);
    };
    at.noted[slot] = noting;
    step(at)
}

/// All that is noted here.
pub fn read_notes(draft: &QuickDraft, at: &mut Cursor) -> Result<(), Refusal>
    ensures { OnOk result
        ((now : ℕ) → AreNoted (frame_of draft.now now) (point_of at.old) (point_of at.new)) }
{
    while at.place < draft.code.instrs.len() {
        let instr = instr_at(draft, at.place)?;
        match instr {
            QuickInstr::NoteRead { word } => note_look(at, word)?,
            QuickInstr::NoteWritten { word } => note_assignment(at, word)?,
            _ => break,
        }
    }
    Ok(())
}

/// The ways of a branch: where it leads, and the ticks when it is not taken.
#[derive(Clone, Copy)]
pub struct Leg {
    pub way: Way,
    pub past: u16,
}

/// The ways of the branch here.
pub fn leg_at(draft: &QuickDraft, at: &Cursor) -> Result<Leg, Refusal> {
    match instr_at(draft, at.place)? {
        QuickInstr::JumpIfEqual { way, past, .. }
        | QuickInstr::JumpIfNotEqual { way, past, .. }
        | QuickInstr::JumpIfLess { way, past, .. }
        | QuickInstr::JumpIfAtMost { way, past, .. }
        | QuickInstr::JumpIfEqualConst { way, past, .. }
        | QuickInstr::JumpIfNotEqualConst { way, past, .. }
        | QuickInstr::JumpIfLessConst { way, past, .. }
        | QuickInstr::JumpIfAtMostConst { way, past, .. }
        | QuickInstr::JumpIfGreaterConst { way, past, .. }
        | QuickInstr::JumpIfAtLeastConst { way, past, .. }
        | QuickInstr::CountUpInt { way, past, .. }
        | QuickInstr::CountUpDint { way, past, .. }
        | QuickInstr::CountDownInt { way, past, .. }
        | QuickInstr::CountDownDint { way, past, .. } => Ok(Leg { way, past }),
        _ => Err(Refusal::Other),
    }
}

/// A landing again.
fn copied(landing: &Landing) -> Result<Landing, Refusal>
    ensures { IfOk result (λ l. landing_of l ≡ landing_of landing.now) }
{
    Ok(Landing {
        place: landing.place,
        ahead: landing.ahead,
        noted: landing.noted.clone()?,
    })
}

/// Where EXIT and RETURN lead in a loop that is followed by a landing.
pub fn exits_in_loop(exits: &Exits, behind: &Landing) -> Result<Exits, Refusal>
    ensures { IfOk result (λ e. exits_of e ≡ record (exits_of exits.now) { out = landing_of behind.now }) }
{
    Ok(Exits {
        out: copied(behind)?,
        back: copied(&exits.back)?,
    })
}

/// Where they lead in a body that ends at a landing.
pub fn exits_in_body(last: &Landing) -> Result<Exits, Refusal>
    ensures { IfOk result (λ e. exits_of e ≡ record { out = landing_of last.now; back = landing_of last.now }) }
{
    Ok(Exits {
        out: copied(last)?,
        back: copied(last)?,
    })
}

/// Whether the value of a word is known here to have been assigned.
pub fn is_assigned(values: &Values, word: u16, at: &Cursor) -> bool
    ensures { IsTrue result → IsAssignedAt (site_of values.now) word at.now.noted.items }
{
    match values {
        Values::Whole(_) => match at.noted.get(word as usize) {
            Some(Noting::Assigned) => true,
            _ => false,
        },
        Values::Called(_, _) => true,
    }
}
