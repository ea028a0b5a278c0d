//! The code of an IF that assigns one of two values.

ghost use Rattle.std.specs.Prelude.{◌≡◌, ℕ, IfOk, IfSome, IsTrue, OnOk, map};
ghost use Rattle.st_types.specs.declared.operator.BinaryOperator.TheVariants.{NotEqual};
ghost use Rattle.slot_trees.specs.SlotTrees as tree;
ghost use Rattle.slot_trees.specs.Chains.{arms_of};
ghost use Rattle.slot_trees.specs.ExpressionViews.{anchor_view, slot_expr_view};
ghost use Rattle.slot_trees.specs.StatementViews.{slot_arm_view, slot_stmts_view};
ghost use Rattle.quick_trees.specs.TreeCode.{IsAsked, IsChosen};
ghost use Rattle.quick_trees.specs.Straight.{AssignsAt, IsStraight};
ghost use Rattle.quick_checks.specs.Checking.{Always, frame_of, point_of};
ghost use Rattle.quick_checks.specs.Targets as spec;

use crate::constants::number_for;
use crate::cursor::{Cursor, assign, expect, go, instr_at, landing, mark, notes_imply, tick};
use crate::draft::QuickDraft;
use crate::expressions::{deeper, variable_of};
use crate::reading::check_read;
use crate::refusal::Refusal;
use crate::scope::{Scope, is_kind, target_of};
use crate::subscripts::constant_of;
use quick_code::QuickInstr;
use slot_trees::{Anchor, Operands, SlotArm, SlotExpr, SlotLibrary, SlotStmt};
use st_types::{BinaryOperator, Kind};

/// An assignment to a variable without subscripts.
#[derive(Clone, Copy)]
struct Assignment<'a> {
    variable: Anchor,
    value: &'a SlotExpr,
}

/// An IF that assigns one of two expressions to a variable.
#[derive(Clone, Copy)]
pub struct Choice<'a> {
    pub condition: &'a SlotExpr,
    pub variable: Anchor,
    pub yes: &'a SlotExpr,
    pub no: &'a SlotExpr,
}

/// The assignment, if the statements are a single one.
fn only_assignment(statements: &[SlotStmt]) -> Option<Assignment<'_>>
    ensures { IfSome result (λ a. slot_stmts_view statements.now ≡ tree.stmt_then
        (tree.assign (tree.place (anchor_view a.variable) tree.no_subscripts) (slot_expr_view a.value.now))
        tree.no_stmts) }
{
    if statements.len() != 1 {
        return None;
    }
    let SlotStmt::Assign(place, value) = &statements[0] else {
        return None;
    };
    let variable = variable_of(place)?;
    Some(Assignment { variable, value })
}

/// The choice of an IF, if it has one condition, and assigns to the same variable whether that holds or not.
pub fn choice_of<'a>(arms: &'a [SlotArm], otherwise: &'a [SlotStmt]) -> Option<Choice<'a>>
    ensures if_it_holds { IfSome result (λ c. arms_of (map slot_arm_view arms.now) ≡ tree.arm_then
        (slot_expr_view c.condition.now) (tree.stmt_then
        (tree.assign (tree.place (anchor_view c.variable) tree.no_subscripts) (slot_expr_view c.yes.now))
        tree.no_stmts) tree.no_arms) }
    ensures otherwise_so { IfSome result (λ c. slot_stmts_view otherwise.now ≡ tree.stmt_then
        (tree.assign (tree.place (anchor_view c.variable) tree.no_subscripts) (slot_expr_view c.no.now))
        tree.no_stmts) }
{
    if arms.len() != 1 {
        return None;
    }
    let arm = &arms[0];
    let yes = only_assignment(&arm.body)?;
    let no = only_assignment(otherwise)?;
    if yes.variable != no.variable {
        return None;
    }
    Some(Choice {
        condition: &arm.condition,
        variable: yes.variable,
        yes: yes.value,
        no: no.value,
    })
}

/// The word that an instruction assigns, if it is one of those that do nothing else.
fn target(instr: QuickInstr) -> Option<u16>
    ensures { result ≡ spec.target instr }
{
    match instr {
        QuickInstr::Move { to, .. }
        | QuickInstr::Set { to, .. }
        | QuickInstr::MoveWithin { to, .. }
        | QuickInstr::Select { to, .. }
        | QuickInstr::Clock { to }
        | QuickInstr::AddInt { to, .. }
        | QuickInstr::AddDint { to, .. }
        | QuickInstr::AddLint { to, .. }
        | QuickInstr::AddIntBy { to, .. }
        | QuickInstr::AddDintBy { to, .. }
        | QuickInstr::AddLintBy { to, .. }
        | QuickInstr::SubtractInt { to, .. }
        | QuickInstr::SubtractDint { to, .. }
        | QuickInstr::SubtractLint { to, .. }
        | QuickInstr::MultiplyInt { to, .. }
        | QuickInstr::MultiplyDint { to, .. }
        | QuickInstr::MultiplyLint { to, .. }
        | QuickInstr::MultiplyDintBy { to, .. }
        | QuickInstr::DivideInt { to, .. }
        | QuickInstr::DivideDint { to, .. }
        | QuickInstr::DivideLint { to, .. }
        | QuickInstr::DivideBy { to, .. }
        | QuickInstr::Modulo { to, .. }
        | QuickInstr::ModuloBy { to, .. }
        | QuickInstr::And { to, .. }
        | QuickInstr::AndBy { to, .. }
        | QuickInstr::Or { to, .. }
        | QuickInstr::Xor { to, .. }
        | QuickInstr::XorBy { to, .. }
        | QuickInstr::ShiftRight { to, .. }
        | QuickInstr::Equal { to, .. }
        | QuickInstr::NotEqual { to, .. }
        | QuickInstr::Less { to, .. }
        | QuickInstr::AtMost { to, .. } => Some(to),
        _ => None,
    }
}

/// Whether the instruction at a place assigns a word from a depth on, and does nothing else.
#[tactic(auto, using(crate::proofs::Targeted::target_assigned))]
fn assigns_from(draft: &QuickDraft, depth: u16, place: usize) -> bool
    ensures { IsTrue result → (now : ℕ) → AssignsAt (frame_of draft.now now) depth place }
{
    let Ok(instr) = instr_at(draft, place) else {
        return false;
    };
    match target(instr) {
        Some(to) => depth <= to,
        None => false,
    }
}

/// Whether each instruction from a place on, and before another one, does so.
fn is_straight(draft: &QuickDraft, depth: u16, first: usize, behind: usize) -> bool
    ensures { IsTrue result → (now : ℕ) → IsStraight (frame_of draft.now now) depth first behind }
{
    let mut place = first;
    while place < behind {
        if !assigns_from(draft, depth, place) {
            return false;
        }
        place += 1;
    }
    first <= behind
}

/// Whether the code from here to the next landing is that of a choice, as it seems: there is no branch in it.
pub fn is_choice_next(draft: &QuickDraft, at: &Cursor) -> bool {
    match at.landings.last() {
        Some(landing) => at.place < landing.place && is_straight(draft, 0, at.place, landing.place),
        None => false,
    }
}

/// Finds the code that reads both expressions of a choice and assigns one of them.
#[cycle(check)]
pub fn check_choice(
    draft: &QuickDraft,
    library: &SlotLibrary,
    scope: &Scope,
    choice: &Choice<'_>,
    depth: u16,
    at: &mut Cursor,
) -> Result<(), Refusal>
    ensures { OnOk result (Always draft.now library.now scope.now (λ f s units. IsChosen f s units
        (tree.arm_then (slot_expr_view choice.now.condition.now) (tree.stmt_then
        (tree.assign (tree.place (anchor_view choice.now.variable) tree.no_subscripts)
        (slot_expr_view choice.now.yes.now)) tree.no_stmts) tree.no_arms)
        (tree.stmt_then (tree.assign (tree.place (anchor_view choice.now.variable) tree.no_subscripts)
        (slot_expr_view choice.now.no.now)) tree.no_stmts) depth (point_of at.old) (point_of at.new))) }
{
    landing(at)?;
    let target = target_of(draft, &scope.values, choice.variable)?;
    let tested = check_asked(draft, library, scope, choice.condition, depth, at)?;
    tick(at)?;
    let start = at.place;
    let mut asked = mark(at)?;
    let below = deeper(depth)?;
    let first = check_read(draft, library, scope, choice.yes, below, at)?;
    let middle = mark(at)?;
    asked.place = middle.place;
    go(at, asked);
    let deep = deeper(below)?;
    let second = check_read(draft, library, scope, choice.no, deep, at)?;
    if !is_kind(first.kind, target.kind) || !is_kind(second.kind, target.kind) {
        return Err(Refusal::Other);
    }
    if !is_straight(draft, below, start, middle.place)
        || !is_straight(draft, deep, middle.place, at.place)
        || middle.ahead != at.ahead
        || !notes_imply(&middle.noted, &at.noted)
    {
        return Err(Refusal::Other);
    }
    expect(
        draft,
        at,
        QuickInstr::Select {
            condition: tested,
            yes: first.word,
            no: second.word,
            to: target.word,
        },
    )?;
    assign(&scope.values, at, target.word)?;
    Ok(())
}

/// Finds the code that reads a condition: the word that is not 0 if it holds.
#[cycle(check)]
fn check_asked(
    draft: &QuickDraft,
    library: &SlotLibrary,
    scope: &Scope,
    condition: &SlotExpr,
    depth: u16,
    at: &mut Cursor,
) -> Result<u16, Refusal>
    ensures { IfOk result (λ k. Always draft.now library.now scope.now (λ f s units. IsAsked f s units
        (slot_expr_view condition.now) depth k (point_of at.old) (point_of at.new))) }
{
    if let Some(operands) = unequal_to_0(condition) {
        let left = check_read(draft, library, scope, &operands.left, depth, at)?;
        let Some(number) = number_for(&operands.right, left.kind) else {
            return Err(Refusal::Other);
        };
        if number != 0 {
            return Err(Refusal::Other);
        }
        return Ok(left.word);
    }
    let read = check_read(draft, library, scope, condition, depth, at)?;
    if !is_kind(read.kind, Kind::Bool) {
        return Err(Refusal::Other);
    }
    Ok(read.word)
}

/// The operands of a comparison with 0 that asks whether they are unequal.
pub fn unequal_to_0(condition: &SlotExpr) -> Option<&Operands>
    ensures { IfSome result (λ o. slot_expr_view condition.now ≡ tree.binary NotEqual
        (slot_expr_view o.now.left) (slot_expr_view o.now.right)) }
{
    let SlotExpr::Binary(BinaryOperator::NotEqual, operands) = condition else {
        return None;
    };
    if constant_of(&operands.right)?.word != 0 {
        return None;
    }
    Some(operands)
}
