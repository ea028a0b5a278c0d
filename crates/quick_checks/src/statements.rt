//! The code of statements.

ghost use Rattle.std.specs.Prelude.{◌≡◌, ℕ, OnOk, map};
ghost use Rattle.slot_trees.specs.SlotTrees as tree;
ghost use Rattle.slot_trees.specs.Chains.{arms_of, stmts_of};
ghost use Rattle.slot_trees.specs.ExpressionViews.{anchor_view, slot_expr_view};
ghost use Rattle.slot_trees.specs.StatementViews.{slot_arm_view, slot_stmt_view, slot_stmts_view};
ghost use Rattle.quick_trees.specs.Pieces.{IsLoop, IsUntil};
ghost use Rattle.quick_trees.specs.TreeCode.{AreArmsCode, IsAssignment, IsStored, IsTestedFor, IsStmtCode, AreStmtsCode};
ghost use Rattle.quick_checks.specs.Checking.{Always, exits_of, frame_of, landing_of, point_of};
ghost use Rattle.quick_trees.specs.Points.{AreNoted};

use crate::blocks::check_invoked;
use crate::cases::check_case;
use crate::choosing::{check_choice, choice_of, is_choice_next};
use crate::conditions::check_test;
use crate::counting::check_for;
use crate::cursor::{
    Cursor, assign, exits_in_loop, go, is_at, joins, landing, leads, leave, loops_back, mark,
    mark_along, pass, passes, read_notes, tick,
};
use crate::draft::{Exits, Landing, QuickDraft};
use crate::expressions::{deeper, element_of, expect_store, read_elements, variable_of};
use crate::reading::{check_made, check_read};
use crate::refusal::Refusal;
use crate::scope::{Scope, is_kind, target_of};
use crate::subscripts::check_subscript;
use crate::within::check_stored_within;
use slot_trees::{Anchor, SlotArm, SlotExpr, SlotLibrary, SlotStmt, Subscript};

/// Finds the code of statements one after another, and the notes before each.
#[cycle(check)]
pub fn check_stmts(
    draft: &QuickDraft,
    library: &SlotLibrary,
    scope: &Scope,
    statements: &[SlotStmt],
    depth: u16,
    exits: &Exits,
    at: &mut Cursor,
) -> Result<(), Refusal>
    ensures { OnOk result (Always draft.now library.now scope.now (λ f s units. AreStmtsCode f s units
        (slot_stmts_view statements.now) depth (exits_of exits.now) (point_of at.old) (point_of at.new))) }
{
    let mut index = 0;
    while index < statements.len() {
        let statement = &statements[index];
        read_notes_before(draft, statement, at)?;
        check_stmt(draft, library, scope, statement, depth, exits, at)?;
        index += 1;
    }
    Ok(())
}

/// The notes before a statement. None is read before an empty statement: the notes there may belong to code that follows a
/// statement that this one ends.
#[tactic(auto, using(crate::proofs::Noted::noted_none))]
fn read_notes_before(
    draft: &QuickDraft,
    statement: &SlotStmt,
    at: &mut Cursor,
) -> Result<(), Refusal>
    ensures { OnOk result
        ((now : ℕ) → AreNoted (frame_of draft.now now) (point_of at.old) (point_of at.new)) }
{
    match statement {
        SlotStmt::Empty => Ok(()),
        _ => read_notes(draft, at),
    }
}

/// The same for a statement.
#[cycle(check)]
fn check_stmt(
    draft: &QuickDraft,
    library: &SlotLibrary,
    scope: &Scope,
    statement: &SlotStmt,
    depth: u16,
    exits: &Exits,
    at: &mut Cursor,
) -> Result<(), Refusal>
    ensures { OnOk result (Always draft.now library.now scope.now (λ f s units. IsStmtCode f s units
        (slot_stmt_view statement.now) depth (exits_of exits.now) (point_of at.old) (point_of at.new))) }
{
    tick(at)?;
    match statement {
        SlotStmt::Empty => Ok(()),
        SlotStmt::Assign(place, value) => {
            if let Some(anchor) = variable_of(place) {
                return check_assigned(draft, library, scope, anchor, value, depth, at);
            }
            let Some((anchor, subscript)) = element_of(place) else {
                return check_stored_within(draft, library, scope, place, value, depth, at);
            };
            check_stored(draft, library, scope, anchor, subscript, value, depth, at)
        }
        SlotStmt::If(arms, otherwise) => {
            if let Some(choice) = choice_of(arms, otherwise) {
                if is_choice_next(draft, at) {
                    return check_choice(draft, library, scope, &choice, depth, at);
                }
            }
            check_if(draft, library, scope, arms, otherwise, depth, exits, at)
        }
        SlotStmt::For {
            control,
            start,
            limit,
            step,
            body,
        } => check_for(
            draft, library, scope, *control, start, limit, step, body, depth, exits, at,
        ),
        SlotStmt::While(condition, body) => {
            check_while(draft, library, scope, condition, body, depth, exits, at)
        }
        SlotStmt::Repeat(body, condition) => {
            check_repeat(draft, library, scope, body, condition, depth, exits, at)
        }
        SlotStmt::Exit => leave(draft, at, &exits.out),
        SlotStmt::Return => leave(draft, at, &exits.back),
        SlotStmt::Case(selector, arms, otherwise) => check_case(
            draft, library, scope, selector, arms, otherwise, depth, exits, at,
        ),
        SlotStmt::Invoke(instance, block, arguments) => check_invoked(
            draft, library, scope, *instance, *block, arguments, depth, at,
        ),
    }
}

/// The same for an assignment to a variable without subscripts, but for its tick.
#[cycle(check)]
fn check_assigned(
    draft: &QuickDraft,
    library: &SlotLibrary,
    scope: &Scope,
    anchor: Anchor,
    value: &SlotExpr,
    depth: u16,
    at: &mut Cursor,
) -> Result<(), Refusal>
    ensures { OnOk result (Always draft.now library.now scope.now (λ f s units. IsAssignment f s units
        (anchor_view anchor) (slot_expr_view value.now) depth (point_of at.old) (point_of at.new))) }
{
    let target = target_of(draft, &scope.values, anchor)?;
    let kind = check_made(draft, library, scope, value, depth, target.word, at)?;
    if !is_kind(kind, target.kind) {
        return Err(Refusal::Other);
    }
    assign(&scope.values, at, target.word)?;
    Ok(())
}

/// The same for an assignment to an element.
#[cycle(check)]
fn check_stored(
    draft: &QuickDraft,
    library: &SlotLibrary,
    scope: &Scope,
    anchor: Anchor,
    subscript: &Subscript,
    value: &SlotExpr,
    depth: u16,
    at: &mut Cursor,
) -> Result<(), Refusal>
    ensures { OnOk result (Always draft.now library.now scope.now (λ f s units. IsStored f s units
        (anchor_view anchor) (slot_expr_view subscript.now.index) subscript.now.lower subscript.now.count
        subscript.now.stride (slot_expr_view value.now) depth (point_of at.old) (point_of at.new))) }
{
    let from = check_read(draft, library, scope, value, depth, at)?;
    let below = deeper(depth)?;
    let index = check_subscript(draft, library, scope, subscript, below, at)?;
    let elements = read_elements(draft, &scope.values, at, anchor, subscript)?;
    if !is_kind(elements.kind, from.kind) {
        return Err(Refusal::Other);
    }
    expect_store(draft, at, index, from.word, elements.word, subscript)?;
    Ok(())
}

/// The same for the arms of an IF, and of the statements that run if no condition holds.
#[cycle(check)]
fn check_if(
    draft: &QuickDraft,
    library: &SlotLibrary,
    scope: &Scope,
    arms: &[SlotArm],
    otherwise: &[SlotStmt],
    depth: u16,
    exits: &Exits,
    at: &mut Cursor,
) -> Result<(), Refusal>
    ensures { OnOk result (Always draft.now library.now scope.now (λ f s units. AreArmsCode f s units
        (arms_of (map slot_arm_view arms.now))
        (AreStmtsCode f s units (slot_stmts_view otherwise.now) depth (exits_of exits.now)) depth (exits_of exits.now)
        (point_of at.old) (point_of at.new))) }
{
    let behind = landing(at)?;
    let mut index = 0;
    while index < arms.len() {
        let arm = &arms[index];
        read_notes(draft, at)?;
        let leg = check_test(draft, library, scope, &arm.condition, false, depth, at)?;
        let rest = mark_along(at, leg.way)?;
        pass(at, leg.past)?;
        check_stmts(draft, library, scope, &arm.body, depth, exits, at)?;
        if !joins(draft, at, &behind) {
            return Err(Refusal::Other);
        }
        go(at, rest);
        index += 1;
    }
    check_stmts(draft, library, scope, otherwise, depth, exits, at)?;
    if !is_at(at, &behind) {
        return Err(Refusal::Other);
    }
    go(at, behind);
    Ok(())
}

/// The same for the body of a loop that is followed by a landing.
#[cycle(check)]
pub fn check_loop_body(
    draft: &QuickDraft,
    library: &SlotLibrary,
    scope: &Scope,
    body: &[SlotStmt],
    depth: u16,
    exits: &Exits,
    behind: &Landing,
    at: &mut Cursor,
) -> Result<(), Refusal>
    ensures { OnOk result (Always draft.now library.now scope.now (λ f s units. AreStmtsCode f s units
        (slot_stmts_view body.now) depth (record (exits_of exits.now) { out = landing_of behind.now })
        (point_of at.old) (point_of at.new))) }
{
    let inner = exits_in_loop(exits, behind)?;
    check_stmts(draft, library, scope, body, depth, &inner, at)
}

/// The same for a WHILE.
#[cycle(check)]
fn check_while(
    draft: &QuickDraft,
    library: &SlotLibrary,
    scope: &Scope,
    condition: &SlotExpr,
    body: &[SlotStmt],
    depth: u16,
    exits: &Exits,
    at: &mut Cursor,
) -> Result<(), Refusal>
    ensures { OnOk result (Always draft.now library.now scope.now (λ f s units. IsLoop f
        (λ when p q w past. IsTestedFor f s units (slot_expr_view condition.now) when depth p q w past)
        (λ p q. AreStmtsCode f s units (slot_stmts_view body.now) depth
        (record (exits_of exits.now) { out = point_of at.new }) p q) (point_of at.old) (point_of at.new))) }
{
    let behind = landing(at)?;
    let first = check_test(draft, library, scope, condition, false, depth, at)?;
    if !leads(at, first.way, &behind) {
        return Err(Refusal::Other);
    }
    pass(at, first.past)?;
    read_notes(draft, at)?;
    let head = mark(at)?;
    check_loop_body(draft, library, scope, body, depth, exits, &behind, at)?;
    tick(at)?;
    let again = check_test(draft, library, scope, condition, true, depth, at)?;
    if !leads(at, again.way, &head) || !passes(at, again.past, &behind) {
        return Err(Refusal::Other);
    }
    go(at, behind);
    Ok(())
}

/// The same for a REPEAT.
#[cycle(check)]
fn check_repeat(
    draft: &QuickDraft,
    library: &SlotLibrary,
    scope: &Scope,
    body: &[SlotStmt],
    condition: &SlotExpr,
    depth: u16,
    exits: &Exits,
    at: &mut Cursor,
) -> Result<(), Refusal>
    ensures { OnOk result (Always draft.now library.now scope.now (λ f s units. IsUntil f
        (λ when p q w past. IsTestedFor f s units (slot_expr_view condition.now) when depth p q w past)
        (λ p q. AreStmtsCode f s units (slot_stmts_view body.now) depth
        (record (exits_of exits.now) { out = point_of at.new }) p q) (point_of at.old) (point_of at.new))) }
{
    let behind = landing(at)?;
    read_notes(draft, at)?;
    let head = mark(at)?;
    check_loop_body(draft, library, scope, body, depth, exits, &behind, at)?;
    let again = check_test(draft, library, scope, condition, false, depth, at)?;
    if !loops_back(at, again.way, &head) || !passes(at, again.past, &behind) {
        return Err(Refusal::Other);
    }
    go(at, behind);
    Ok(())
}
