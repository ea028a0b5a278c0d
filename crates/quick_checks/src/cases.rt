//! The code of CASE.

ghost use Rattle.std.specs.Prelude.{◌≡◌, ◌+◌, ◌<◌, ℕ, ℤ, IfOk, OnOk, Some, length, map, slice_get};
ghost use Rattle.quick_code.specs.declared.quick_code.Way.{Way};
ghost use Rattle.quick_code.specs.declared.quick_instr.QuickInstr.TheVariants as instrs;
ghost use Rattle.slot_trees.specs.Chains.{case_arms_of};
ghost use Rattle.slot_trees.specs.ExpressionViews.{slot_expr_view};
ghost use Rattle.slot_trees.specs.StatementViews.{slot_case_arm_view, slot_stmts_view};
ghost use Rattle.quick_trees.specs.Pieces.{InSequence};
ghost use Rattle.quick_trees.specs.Points.{Joins, along};
ghost use Rattle.quick_trees.specs.TreeCode.{IsChosenCode, IsCase, IsRead, AreStmtsCode};
ghost use Rattle.quick_checks.specs.Choices.{body_at};
ghost use Rattle.quick_checks.specs.Checking.{Always, exits_of, landing_of, point_of};

use crate::choices::{Table, all_lead, arms_inside, choices_of, way_at, way_of_arm};
use crate::cursor::{Cursor, go, instr_at, joins, landing, mark, way_from};
use crate::draft::{Exits, Landing, QuickDraft};
use crate::reading::check_read;
use crate::refusal::Refusal;
use crate::scope::Scope;
use crate::statements::check_stmts;
use quick_code::QuickInstr;
use slot_trees::{SlotCaseArm, SlotExpr, SlotLibrary, SlotStmt};
use st_types::is_wide;

/// The table of the switch here over a word.
fn switch_at(draft: &QuickDraft, at: &Cursor, word: u16) -> Result<Table, Refusal>
    ensures { IfOk result (λ t. slice_get draft.now.code.instrs.items at.now.place
        ≡ Some (instrs.Switch word t.shift t.first t.count)) }
{
    match instr_at(draft, at.place)? {
        QuickInstr::Switch {
            selector,
            shift,
            first,
            count,
        } if selector == word => Ok(Table {
            shift,
            first,
            count,
        }),
        _ => Err(Refusal::Other),
    }
}

/// Finds the code of an arm, to which the ways of a table lead from a start.
#[cycle(check)]
fn check_arm(
    draft: &QuickDraft,
    library: &SlotLibrary,
    scope: &Scope,
    table: &Table,
    choices: &[usize],
    index: usize,
    body: &[SlotStmt],
    depth: u16,
    exits: &Exits,
    start: &Landing,
    behind: &Landing,
    at: &mut Cursor,
) -> Result<(), Refusal>
    ensures { OnOk result (Always draft.now library.now scope.now (λ f s units. (j : ℕ) (w : Way)
        → slice_get choices.now j ≡ Some index → slice_get f.ways (table.now.first + j) ≡ Some w
        → InSequence (AreStmtsCode f s units (slot_stmts_view body.now) depth (exits_of exits.now)) (Joins f)
        (along (landing_of start.now) w) (landing_of behind.now))) }
{
    let Some(way) = way_of_arm(draft, table, choices, index)? else {
        return Ok(());
    };
    let entry = way_from(start, way)?;
    go(at, entry);
    check_stmts(draft, library, scope, body, depth, exits, at)?;
    if !joins(draft, at, behind) {
        return Err(Refusal::Other);
    }
    Ok(())
}

/// Finds the code of a CASE, but for its tick.
#[cycle(check)]
pub fn check_case(
    draft: &QuickDraft,
    library: &SlotLibrary,
    scope: &Scope,
    selector: &SlotExpr,
    arms: &[SlotCaseArm],
    otherwise: &[SlotStmt],
    depth: u16,
    exits: &Exits,
    at: &mut Cursor,
) -> Result<(), Refusal>
    ensures { OnOk result (Always draft.now library.now scope.now (λ f s units. IsCase f
        (λ t k p q. IsRead f s units (slot_expr_view selector.now) t depth k p q)
        (λ n p q. IsChosenCode f s units n (case_arms_of (map slot_case_arm_view arms.now))
        (AreStmtsCode f s units (slot_stmts_view otherwise.now) depth (exits_of exits.now)) depth (exits_of exits.now)
        p q) (point_of at.old) (point_of at.new))) }
{
    let behind = landing(at)?;
    let read = check_read(draft, library, scope, selector, depth, at)?;
    if is_wide(read.kind) {
        return Err(Refusal::Other);
    }
    let table = switch_at(draft, at, read.word)?;
    if !arms_inside(&table, arms) {
        return Err(Refusal::Other);
    }
    let choices = choices_of(at.alloc, &table, arms)?;
    let start = mark(at)?;
    check_case_arms(
        draft, library, scope, &table, &choices, arms, depth, exits, &start, &behind, at,
    )?;
    let Some(last) = (table.first as usize).checked_add(table.count as usize) else {
        return Err(Refusal::Other);
    };
    let way = way_at(draft, last)?;
    if !all_lead(draft, &table, &choices, arms.len(), way) {
        return Err(Refusal::Other);
    }
    let entry = way_from(&start, way)?;
    go(at, entry);
    check_stmts(draft, library, scope, otherwise, depth, exits, at)?;
    if !joins(draft, at, &behind) {
        return Err(Refusal::Other);
    }
    go(at, behind);
    Ok(())
}

/// The same for all arms.
#[cycle(check)]
fn check_case_arms(
    draft: &QuickDraft,
    library: &SlotLibrary,
    scope: &Scope,
    table: &Table,
    choices: &[usize],
    arms: &[SlotCaseArm],
    depth: u16,
    exits: &Exits,
    start: &Landing,
    behind: &Landing,
    at: &mut Cursor,
) -> Result<(), Refusal>
    ensures { OnOk result (Always draft.now library.now scope.now (λ f s units. (k : ℕ) → k < length arms.now
        → (j : ℕ) (w : Way) → slice_get choices.now j ≡ Some k → slice_get f.ways (table.now.first + j) ≡ Some w
        → InSequence (AreStmtsCode f s units (body_at k (map slot_case_arm_view arms.now)) depth (exits_of exits.now))
        (Joins f) (along (landing_of start.now) w) (landing_of behind.now))) }
{
    let mut index = 0;
    while index < arms.len() {
        let arm = &arms[index];
        check_arm(
            draft, library, scope, table, choices, index, &arm.body, depth, exits, start, behind,
            at,
        )?;
        index += 1;
    }
    Ok(())
}
