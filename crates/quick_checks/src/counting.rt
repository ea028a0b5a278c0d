//! The code of FOR.

ghost use Rattle.std.specs.Prelude.{◌≡◌, ◌<◌, ◌⊎◌, ℕ, ℤ, IfOk, IsTrue, OnOk, Some, length, map, option_map, pos};
ghost use Rattle.std.specs.Prelude.{slice_get, suc, true};
ghost use Rattle.st_types.specs.Values.{IsHeld};
ghost use Rattle.st_types.specs.Words.{datum_at};
ghost use Rattle.quick_code.specs.declared.quick_instr.QuickInstr.TheVariants as instrs;
ghost use Rattle.slot_trees.specs.ExpressionViews.{anchor_view, slot_expr_view};
ghost use Rattle.slot_trees.specs.StatementViews.{slot_stmts_view};
ghost use Rattle.quick_trees.specs.Counting.{AddsStep, AreOrdered, LoopBegins, BeginsToCount, Counts, CountsAtOnce};
ghost use Rattle.quick_trees.specs.Counting.{CountsBy, CountsByWord, IsRepeatTest, IsLiteralStep, Is64Bit, IsStep};
ghost use Rattle.quick_trees.specs.Counting as counting;
ghost use Rattle.quick_trees.specs.Functions.{IsMovedWithin};
ghost use Rattle.quick_trees.specs.Points.{next};
ghost use Rattle.quick_trees.specs.UnitValues.{HasOwnWord, kinds_of};
ghost use Rattle.quick_trees.specs.TreeCode.{IsFor, IsKept, IsKeptStep, IsPaced, AreStmtsCode};
ghost use Rattle.quick_checks.specs.Checking.{Always, exits_of, frame_of, point_of, seat_of, site_of};

use crate::constants::{Reading, literal_number};
use crate::cursor::{
    Cursor, Leg, assign, expect, expect_for, find, go, instr_at, is_assigned, landing, leads,
    leg_at, loops_back, mark, pass, passes_back, read_notes,
};
use crate::draft::{Exits, QuickDraft};
use crate::expressions::{deeper, temporary};
use crate::instructions::instr_for;
use crate::ranges::expect_within;
use crate::reading::check_read;
use crate::refusal::Refusal;
use crate::scope::{FunctionWord, Scope, Values, function_word_at, is_kind, target_of};
use crate::statements::check_loop_body;
use quick_code::{QuickInstr, is_same};
use quick_trees::Pace;
use slot_trees::{Anchor, SlotExpr, SlotLibrary, SlotStmt};
use st_types::{BinaryOperator, Kind, is_wide};

/// How a FOR counts by a literal: the type and the word of its control variable, and the step, which is not 0.
#[derive(Clone, Copy)]
struct Turns {
    kind: Kind,
    control: u16,
    by: i32,
}

/// How a FOR counts: its control variable, the word of its limit, its step, and from which depth on temporaries are free
/// within.
#[derive(Clone, Copy)]
struct Count {
    control: Reading,
    limit: u16,
    pace: Pace,
    depth: u16,
}

/// The step of a FOR over a type: 1 if none is written, or a literal.
fn written_step(kind: Kind, step: &Option<SlotExpr>) -> Result<i32, Refusal>
    ensures step { IfOk result (λ n. IsStep (option_map slot_expr_view step.now) n) }
    ensures moves { IfOk result (λ n. n ≡ pos 0 → ⊥) }
    ensures small { IfOk result (λ n. IsHeld (datum_at kind n)) }
{
    let number = match step {
        None => 1,
        Some(SlotExpr::Constant(literal)) => literal_number(literal)?,
        Some(_) => return Err(Refusal::Other),
    };
    let Ok(by) = i32::try_from(number) else {
        return Err(Refusal::Other);
    };
    match kind {
        Kind::Int | Kind::Dint | Kind::Lint | Kind::Sint => {}
        Kind::Usint | Kind::Uint | Kind::Udint | Kind::Ulint => {}
        _ => return Err(Refusal::Other),
    }
    if by == 0 || number < kind.least() || kind.greatest() < number {
        return Err(Refusal::Other);
    }
    Ok(by)
}

/// The literal by which a FOR over a type counts.
fn literal_step(kind: Kind, step: &Option<SlotExpr>) -> Result<i32, Refusal>
    ensures { IfOk result (λ n. IsLiteralStep (option_map slot_expr_view step.now) kind n) }
{
    let by = written_step(kind, step)?;
    Ok(by)
}

/// Whether no value of the unit that may be assigned has a word.
fn stays(draft: &QuickDraft, values: &Values, word: u16) -> bool
    ensures { IsTrue result → (now j : ℕ) → j < length (kinds_of (frame_of draft.now now) (site_of values.now))
        → HasOwnWord draft.now.window.items (site_of values.now) j word → ⊥ }
{
    match values {
        Values::Whole(_) => draft.window.len() <= word as usize,
        Values::Called(_, seats) => none_own(seats, word),
    }
}

/// Whether a seat is not both a function's own and of a word.
fn is_other(seats: &[FunctionWord], index: usize, word: u16) -> bool
    ensures { IsTrue result → slice_get (map seat_of seats.now) index
        ≡ Some (record { word = word; is_own = true }) → ⊥ }
{
    match function_word_at(seats, index) {
        Ok(seat) => !seat.is_own || seat.word != word,
        Err(_) => false,
    }
}

/// Whether no seat is a function's own and has a word.
fn none_own(seats: &[FunctionWord], word: u16) -> bool
    ensures { IsTrue result → (j : ℕ) → slice_get (map seat_of seats.now) j
        ≡ Some (record { word = word; is_own = true }) → ⊥ }
{
    let mut index = 0;
    while index < seats.len() {
        if !is_other(seats, index, word) {
            return false;
        }
        index += 1;
    }
    true
}

/// The ways of the branch here, if it tests for the first time whether the limit is passed.
fn begins_to_count(
    draft: &QuickDraft,
    at: &Cursor,
    turns: &Turns,
    limit: u16,
) -> Result<Leg, Refusal>
    ensures { IfOk result (λ l. (now : ℕ) → BeginsToCount (frame_of draft.now now) turns.now.by turns.now.control limit
        l.way l.past at.now.place) }
{
    if turns.by < 0 {
        less_at(draft, at, turns.control, limit)
    } else {
        less_at(draft, at, limit, turns.control)
    }
}

/// The ways of the branch here, if it adds the step and tests the limit.
fn counts_at_once(
    draft: &QuickDraft,
    at: &Cursor,
    turns: &Turns,
    limit: u16,
) -> Result<Leg, Refusal>
    ensures { IfOk result (λ l. (now : ℕ) → CountsAtOnce (frame_of draft.now now) turns.now.kind turns.now.control
        turns.now.by limit l.way l.past at.now.place) }
{
    let control = turns.control;
    let step = turns.by;
    let leg = leg_at(draft, at)?;
    let (way, past) = (leg.way, leg.past);
    let instr = match turns.kind {
        Kind::Int => {
            if step < 0 {
                QuickInstr::CountDownInt {
                    control,
                    step,
                    limit,
                    way,
                    past,
                }
            } else {
                QuickInstr::CountUpInt {
                    control,
                    step,
                    limit,
                    way,
                    past,
                }
            }
        }
        Kind::Dint => {
            if step < 0 {
                QuickInstr::CountDownDint {
                    control,
                    step,
                    limit,
                    way,
                    past,
                }
            } else {
                QuickInstr::CountUpDint {
                    control,
                    step,
                    limit,
                    way,
                    past,
                }
            }
        }
        _ => return Err(Refusal::Other),
    };
    find(draft, at, instr)?;
    Ok(leg)
}

/// The ways of the branch here, if it tests the limit for a further turn.
fn repeat_test(draft: &QuickDraft, at: &Cursor, turns: &Turns, limit: u16) -> Result<Leg, Refusal>
    ensures { IfOk result (λ l. (now : ℕ) → IsRepeatTest (frame_of draft.now now) turns.now.by turns.now.control
        limit l.way l.past at.now.place) }
{
    if turns.by < 0 {
        at_most_at(draft, at, limit, turns.control)
    } else {
        at_most_at(draft, at, turns.control, limit)
    }
}

/// Finds the instructions that add the step to the control variable, which is then a number of its type.
fn expect_added(draft: &QuickDraft, turns: &Turns, at: &mut Cursor) -> Result<(), Refusal>
    ensures added { OnOk result (slice_get draft.now.code.instrs.items at.old.place
        ≡ Some (instrs.AddLintBy turns.now.control turns.now.by turns.now.control)) }
    ensures within { OnOk result ((now : ℕ) → (Is64Bit turns.now.kind × (at.new.place ≡ suc at.old.place))
        ⊎ (IsMovedWithin (frame_of draft.now now) turns.now.kind turns.now.control turns.now.control
        (suc at.old.place) × (at.new.place ≡ suc (suc at.old.place)))) }
    ensures same { OnOk result (point_of at.new ≡ record (point_of at.old) { place = at.new.place }) }
{
    let control = turns.control;
    expect(
        draft,
        at,
        QuickInstr::AddLintBy {
            left: control,
            constant: turns.by,
            to: control,
        },
    )?;
    if is_kind(turns.kind, Kind::Lint) || is_kind(turns.kind, Kind::Ulint) {
        return Ok(());
    }
    expect_within(draft, turns.kind, control, control, at)
}

/// Finds the code that adds the step and tests the limit, up to the test: its ways.
fn expect_counted(
    draft: &QuickDraft,
    turns: &Turns,
    limit: u16,
    at: &mut Cursor,
) -> Result<Leg, Refusal>
    ensures counts { IfOk result (λ l. (now : ℕ) → Counts (frame_of draft.now now) turns.now.kind turns.now.control
        turns.now.by limit l.way l.past at.old.place at.new.place) }
    ensures same { OnOk result (point_of at.new ≡ record (point_of at.old) { place = at.new.place }) }
{
    if is_kind(turns.kind, Kind::Int) || is_kind(turns.kind, Kind::Dint) {
        let leg = counts_at_once(draft, at, turns, limit)?;
        return Ok(leg);
    }
    expect_added(draft, turns, at)?;
    let leg = repeat_test(draft, at, turns, limit)?;
    Ok(leg)
}

/// Finds the code that puts the control variable and the limit into temporaries, in the order in which they are
/// compared: the second temporary.
fn expect_ordered(
    draft: &QuickDraft,
    count: &Count,
    below: u16,
    at: &mut Cursor,
) -> Result<u16, Refusal>
    ensures ordered { OnOk result ((now : ℕ) → AreOrdered (frame_of draft.now now) below count.now.control.word
        count.now.limit count.now.depth at.old.place) }
    ensures upper { IfOk result (λ u. u ≡ suc count.now.depth) }
    ensures next { OnOk result (point_of at.new ≡ next (next (point_of at.old))) }
{
    let (control, limit) = (count.control.word, count.limit);
    let upper = deeper(count.depth)?;
    temporary(draft, upper)?;
    expect(
        draft,
        at,
        QuickInstr::Select {
            condition: below,
            yes: limit,
            no: control,
            to: count.depth,
        },
    )?;
    expect(
        draft,
        at,
        QuickInstr::Select {
            condition: below,
            yes: control,
            no: limit,
            to: upper,
        },
    )?;
    Ok(upper)
}

/// The ways of the branch here, if it is taken when a word is below another one.
fn less_at(draft: &QuickDraft, at: &Cursor, left: u16, right: u16) -> Result<Leg, Refusal>
    ensures { IfOk result (λ l. slice_get draft.now.code.instrs.items at.now.place
        ≡ Some (instrs.JumpIfLess left right l.way l.past)) }
{
    let leg = leg_at(draft, at)?;
    let (way, past) = (leg.way, leg.past);
    let instr = QuickInstr::JumpIfLess {
        left,
        right,
        way,
        past,
    };
    find(draft, at, instr)?;
    Ok(leg)
}

/// The ways of the branch here, if it is taken when a word is not above another one.
fn at_most_at(draft: &QuickDraft, at: &Cursor, left: u16, right: u16) -> Result<Leg, Refusal>
    ensures { IfOk result (λ l. slice_get draft.now.code.instrs.items at.now.place
        ≡ Some (instrs.JumpIfAtMost left right l.way l.past)) }
{
    let leg = leg_at(draft, at)?;
    let (way, past) = (leg.way, leg.past);
    let instr = QuickInstr::JumpIfAtMost {
        left,
        right,
        way,
        past,
    };
    find(draft, at, instr)?;
    Ok(leg)
}

/// Finds the first test of the limit, up to its branch: the ways of this.
fn expect_begun(draft: &QuickDraft, count: &Count, at: &mut Cursor) -> Result<Leg, Refusal>
    ensures begins { IfOk result (λ l. (now : ℕ) → LoopBegins (frame_of draft.now now) count.now.pace
        count.now.control.word count.now.limit count.now.depth l.way l.past at.old.place at.new.place) }
    ensures same { OnOk result (point_of at.new ≡ record (point_of at.old) { place = at.new.place }) }
{
    match count.pace {
        Pace::Literal(by) => {
            let turns = Turns {
                kind: count.control.kind,
                control: count.control.word,
                by,
            };
            let leg = begins_to_count(draft, at, &turns, count.limit)?;
            Ok(leg)
        }
        Pace::Words { below, .. } => {
            let upper = expect_ordered(draft, count, below, at)?;
            let leg = less_at(draft, at, upper, count.depth)?;
            Ok(leg)
        }
    }
}

/// Finds the code that adds the word of a step to the control variable.
fn expect_step_added(
    draft: &QuickDraft,
    control: Reading,
    step: u16,
    at: &mut Cursor,
) -> Result<(), Refusal>
    ensures adds { OnOk result ((now : ℕ) → AddsStep (frame_of draft.now now) control.kind control.word step
        at.old.place at.new.place) }
    ensures same { OnOk result (point_of at.new ≡ record (point_of at.old) { place = at.new.place }) }
{
    let word = control.word;
    if is_kind(control.kind, Kind::Int)
        || is_kind(control.kind, Kind::Dint)
        || is_kind(control.kind, Kind::Lint)
    {
        let instr = instr_for(BinaryOperator::Add, control.kind, word, step, word);
        expect_for(draft, at, instr)?;
        return Ok(());
    }
    expect(
        draft,
        at,
        QuickInstr::AddLint {
            left: word,
            right: step,
            to: word,
        },
    )?;
    expect_within(draft, control.kind, word, word, at)?;
    Ok(())
}

/// Finds the end of a turn whose step is in a word, up to its branch: the ways of this.
fn expect_counted_by_word(
    draft: &QuickDraft,
    count: &Count,
    step: u16,
    below: u16,
    at: &mut Cursor,
) -> Result<Leg, Refusal>
    ensures counts { IfOk result (λ l. (now : ℕ) → CountsByWord (frame_of draft.now now) count.now.control.kind step
        below count.now.control.word count.now.limit count.now.depth l.way l.past at.old.place at.new.place) }
    ensures same { OnOk result (point_of at.new ≡ record (point_of at.old) { place = at.new.place }) }
{
    expect_step_added(draft, count.control, step, at)?;
    let upper = expect_ordered(draft, count, below, at)?;
    let leg = at_most_at(draft, at, count.depth, upper)?;
    Ok(leg)
}

/// Finds the end of a turn, up to its branch: the ways of this.
fn expect_turned(draft: &QuickDraft, count: &Count, at: &mut Cursor) -> Result<Leg, Refusal>
    ensures counts { IfOk result (λ l. (now : ℕ) → CountsBy (frame_of draft.now now) count.now.control.kind
        count.now.pace count.now.control.word count.now.limit count.now.depth l.way l.past at.old.place
        at.new.place) }
    ensures same { OnOk result (point_of at.new ≡ record (point_of at.old) { place = at.new.place }) }
{
    match count.pace {
        Pace::Literal(by) => {
            let turns = Turns {
                kind: count.control.kind,
                control: count.control.word,
                by,
            };
            let leg = expect_counted(draft, &turns, count.limit, at)?;
            Ok(leg)
        }
        Pace::Words { step, below } => {
            let leg = expect_counted_by_word(draft, count, step, below, at)?;
            Ok(leg)
        }
    }
}

/// From which depth on temporaries are free within a FOR.
fn inside(pace: Pace, depth: u16) -> Result<u16, Refusal>
    ensures { IfOk result (λ d. d ≡ counting.inside pace depth) }
{
    let limit = deeper(depth)?;
    let step = deeper(limit)?;
    match pace {
        Pace::Literal(_) => Ok(step),
        Pace::Words { .. } => {
            let below = deeper(step)?;
            let free = deeper(below)?;
            Ok(free)
        }
    }
}

/// Finds the code that keeps the limit of a FOR, or its step, in a word that no statement of the unit assigns.
#[cycle(check)]
fn check_kept(
    draft: &QuickDraft,
    library: &SlotLibrary,
    scope: &Scope,
    limit: &SlotExpr,
    depth: u16,
    at: &mut Cursor,
) -> Result<Reading, Refusal>
    ensures { IfOk result (λ r. Always draft.now library.now scope.now (λ f s units. IsKept f s units
        (slot_expr_view limit.now) r.kind depth r.word (point_of at.old) (point_of at.new))) }
{
    let read = check_read(draft, library, scope, limit, depth, at)?;
    if is_same(
        instr_at(draft, at.place)?,
        QuickInstr::Move {
            from: read.word,
            to: depth,
        },
    ) {
        temporary(draft, depth)?;
        if !stays(draft, &scope.values, depth) {
            return Err(Refusal::Other);
        }
        expect(
            draft,
            at,
            QuickInstr::Move {
                from: read.word,
                to: depth,
            },
        )?;
        return Ok(Reading {
            kind: read.kind,
            word: depth,
        });
    }
    if !stays(draft, &scope.values, read.word) {
        return Err(Refusal::Other);
    }
    Ok(read)
}

/// Finds the code that keeps the step of a FOR in a word, and tests it: this word, and the one that has its sign.
#[cycle(check)]
fn check_step(
    draft: &QuickDraft,
    library: &SlotLibrary,
    scope: &Scope,
    kind: Kind,
    step: &SlotExpr,
    depth: u16,
    at: &mut Cursor,
) -> Result<(u16, u16), Refusal>
    ensures { IfOk result (λ w. Always draft.now library.now scope.now (λ f s units. IsKeptStep f s units
        (slot_expr_view step.now) kind depth w.0 w.1 (point_of at.old) (point_of at.new))) }
{
    if is_wide(kind) {
        return Err(Refusal::Other);
    }
    let kept = check_kept(draft, library, scope, step, depth, at)?;
    if !is_kind(kept.kind, kind) {
        return Err(Refusal::Other);
    }
    let below = deeper(depth)?;
    temporary(draft, below)?;
    expect(
        draft,
        at,
        QuickInstr::DivideLint {
            left: kept.word,
            right: kept.word,
            to: below,
        },
    )?;
    expect(
        draft,
        at,
        QuickInstr::Set {
            constant: 0,
            to: below,
        },
    )?;
    expect(
        draft,
        at,
        QuickInstr::Less {
            left: kept.word,
            right: below,
            to: below,
        },
    )?;
    Ok((kept.word, below))
}

/// The step of a FOR over a type: a literal, or one that its code keeps.
#[cycle(check)]
fn check_pace(
    draft: &QuickDraft,
    library: &SlotLibrary,
    scope: &Scope,
    kind: Kind,
    step: &Option<SlotExpr>,
    depth: u16,
    at: &mut Cursor,
) -> Result<Pace, Refusal>
    ensures { IfOk result (λ p. Always draft.now library.now scope.now (λ f s units. IsPaced f s units
        (option_map slot_expr_view step.now) kind p depth (point_of at.old) (point_of at.new))) }
{
    match step {
        None | Some(SlotExpr::Constant(_)) => {
            let by = literal_step(kind, step)?;
            Ok(Pace::Literal(by))
        }
        Some(step) => {
            let (step, below) = check_step(draft, library, scope, kind, step, depth, at)?;
            Ok(Pace::Words { step, below })
        }
    }
}

/// Finds the code of a FOR, but for its tick.
#[cycle(check)]
pub fn check_for(
    draft: &QuickDraft,
    library: &SlotLibrary,
    scope: &Scope,
    control: Anchor,
    start: &SlotExpr,
    limit: &SlotExpr,
    step: &Option<SlotExpr>,
    body: &[SlotStmt],
    depth: u16,
    exits: &Exits,
    at: &mut Cursor,
) -> Result<(), Refusal>
    ensures { OnOk result (Always draft.now library.now scope.now (λ f s units. IsFor f s units
        (λ c p q. AreStmtsCode f s units (slot_stmts_view body.now) c
        (record (exits_of exits.now) { out = point_of at.new }) p q) (anchor_view control) (slot_expr_view start.now)
        (slot_expr_view limit.now) (option_map slot_expr_view step.now) depth (point_of at.old) (point_of at.new))) }
{
    let behind = landing(at)?;
    let target = target_of(draft, &scope.values, control)?;
    let from = check_read(draft, library, scope, start, depth, at)?;
    let below = deeper(depth)?;
    let kept = check_kept(draft, library, scope, limit, below, at)?;
    if !is_kind(from.kind, target.kind) || !is_kind(kept.kind, target.kind) {
        return Err(Refusal::Other);
    }
    let free = deeper(below)?;
    let pace = check_pace(draft, library, scope, target.kind, step, free, at)?;
    let (from, to) = (from.word, target.word);
    expect(draft, at, QuickInstr::Move { from, to })?;
    assign(&scope.values, at, to)?;
    let within = inside(pace, depth)?;
    let count = Count {
        control: target,
        limit: kept.word,
        pace,
        depth: within,
    };
    let first = expect_begun(draft, &count, at)?;
    if !leads(at, first.way, &behind) {
        return Err(Refusal::Other);
    }
    pass(at, first.past)?;
    read_notes(draft, at)?;
    let head = mark(at)?;
    check_loop_body(draft, library, scope, body, within, exits, &behind, at)?;
    if !is_assigned(&scope.values, target.word, at) {
        return Err(Refusal::Other);
    }
    let again = expect_turned(draft, &count, at)?;
    if !loops_back(at, again.way, &head) || !passes_back(at, again.past, &behind) {
        return Err(Refusal::Other);
    }
    go(at, behind);
    Ok(())
}
