//! Statements, from names to slots.

ghost use Rattle.std.specs.Prelude.{◌≡◌, None, Some, map, option_and_then, option_map, IfErr, IfOk};
ghost use Rattle.st_types.specs.ExpressionViews.{expr_view};
ghost use Rattle.st_types.specs.Statements.{arms_of, case_arms_of, stmts_of};
ghost use Rattle.st_types.specs.StatementViews.{arm_view, case_arm_view, stmt_view};
ghost use Rattle.st_meaning.specs.NameTypes.{Declared};
ghost use Rattle.slot_trees.specs.Chains.{arms_of as slot_arms_of, case_arms_of as slot_case_arms_of};
ghost use Rattle.slot_trees.specs.Chains.{stmts_of as slot_stmts_of};
ghost use Rattle.slot_trees.specs.ExpressionViews.{anchor_view, slot_expr_view};
ghost use Rattle.slot_trees.specs.StatementViews.{slot_arm_view, slot_case_arm_view, slot_stmt_view};
ghost use Rattle.slot_trees.specs.LinkedStatements.{control_of, linked_arms, linked_case_arms, linked_step};
ghost use Rattle.slot_trees.specs.LinkedStatements.{linked_stmt, linked_stmts};
ghost use Rattle.slot_trees.specs.Tables.{Table, symbol_of};
ghost use Rattle.st_link.specs.Arms.{linked_arm, linked_case_arm};
ghost use Rattle.st_link.specs.BodyTables.{ServesBody};

use crate::body_table::BodyTable;
use crate::copies::copied_labels;
use crate::expressions::{link, link_target};
use crate::invocations::link_invocation;
use crate::link_error::LinkError;
use slot_trees::{Anchor, SlotArm, SlotCaseArm, SlotExpr, SlotStmt};
use st_types::{Arm, CaseArm, Expr, Identifier, Stmt};
use std::alloc::Global;

/// The slot of a variable that is elementary and isn't an input: of a control variable, or of a function's input or result.
pub fn link_control(table: &BodyTable, name: &Identifier) -> Result<Anchor, LinkError>
    ensures linked { IfOk result (λ a. (text : Declared) (t : Table) → ServesBody table.now text t
        → option_and_then control_of (symbol_of t.symbols name.now.name) ≡ Some (anchor_view a)) }
    ensures none { IfErr result (λ e. e ≡ LinkError.NotThere → (text : Declared) (t : Table)
        → ServesBody table.now text t
        → option_and_then control_of (symbol_of t.symbols name.now.name) ≡ None) }
{
    let Some(symbol) = table.symbol(&name.name) else {
        return Err(LinkError::NotThere);
    };
    if symbol.is_input {
        return Err(LinkError::NotThere);
    }
    if !table.shapes.is_elementary(symbol.declared) {
        return Err(LinkError::NotThere);
    }
    Ok(symbol.anchor)
}

/// The expression after BY.
fn link_step(
    alloc: Global,
    table: &BodyTable,
    step: &Option<Expr>,
) -> Result<Option<SlotExpr>, LinkError>
    ensures linked { IfOk result (λ x. (text : Declared) (t : Table) → ServesBody table.now text t
        → linked_step t (option_map expr_view step.now) ≡ Some (option_map slot_expr_view x)) }
    ensures none { IfErr result (λ e. e ≡ LinkError.NotThere → (text : Declared) (t : Table)
        → ServesBody table.now text t → linked_step t (option_map expr_view step.now) ≡ None) }
{
    match step {
        Some(step) => Ok(Some(link(alloc, table, step)?)),
        None => Ok(None),
    }
}

/// The statement over slots.
#[cycle(link_statement)]
#[tactic(auto, using(st_types::proofs::Bridge::choose_view, st_types::proofs::Bridge::select_view))]
fn link_statement(alloc: Global, table: &BodyTable, statement: &Stmt) -> Result<SlotStmt, LinkError>
    ensures linked { IfOk result (λ x. (text : Declared) (t : Table) → ServesBody table.now text t
        → linked_stmt t (stmt_view statement.now) ≡ Some (slot_stmt_view x)) }
    ensures none { IfErr result (λ e. e ≡ LinkError.NotThere → (text : Declared) (t : Table)
        → ServesBody table.now text t → linked_stmt t (stmt_view statement.now) ≡ None) }
{
    match statement {
        Stmt::Empty => Ok(SlotStmt::empty()),
        Stmt::Assign(target, value) => {
            let target = link_target(alloc, table, target)?;
            let value = link(alloc, table, value)?;
            Ok(SlotStmt::assign(target, value))
        }
        Stmt::Invoke(instance, arguments) => link_invocation(alloc, table, instance, arguments),
        Stmt::If(arms, otherwise) => {
            let arms = link_arms(alloc, table, arms)?;
            let otherwise = link_statements(alloc, table, otherwise)?;
            Ok(SlotStmt::choose(arms, otherwise))
        }
        Stmt::Case(selector, arms, otherwise) => {
            let selector = link(alloc, table, selector)?;
            let arms = link_case_arms(alloc, table, arms)?;
            let otherwise = link_statements(alloc, table, otherwise)?;
            Ok(SlotStmt::select(selector, arms, otherwise))
        }
        Stmt::For {
            control,
            start,
            limit,
            step,
            body,
        } => {
            let control = link_control(table, control)?;
            let start = link(alloc, table, start)?;
            let limit = link(alloc, table, limit)?;
            let step = link_step(alloc, table, step)?;
            let body = link_statements(alloc, table, body)?;
            Ok(SlotStmt::count(control, start, limit, step, body))
        }
        Stmt::While(condition, body) => {
            let condition = link(alloc, table, condition)?;
            let body = link_statements(alloc, table, body)?;
            Ok(SlotStmt::repeat_while(condition, body))
        }
        Stmt::Repeat(body, condition) => {
            let condition = link(alloc, table, condition)?;
            let body = link_statements(alloc, table, body)?;
            Ok(SlotStmt::repeat_until(body, condition))
        }
        Stmt::Exit(_) => Ok(SlotStmt::exit()),
        Stmt::Return => Ok(SlotStmt::leave()),
    }
}

/// The statements over slots, in order.
#[cycle(link_statement)]
pub fn link_statements(
    alloc: Global,
    table: &BodyTable,
    statements: &[Stmt],
) -> Result<Vec<SlotStmt>, LinkError>
    ensures linked { IfOk result (λ xs. (text : Declared) (t : Table) → ServesBody table.now text t
        → linked_stmts t (stmts_of (map stmt_view statements.now))
        ≡ Some (slot_stmts_of (map slot_stmt_view xs.items))) }
    ensures none { IfErr result (λ e. e ≡ LinkError.NotThere → (text : Declared) (t : Table)
        → ServesBody table.now text t → linked_stmts t (stmts_of (map stmt_view statements.now)) ≡ None) }
{
    let mut linked = Vec::new(alloc);
    for statement in statements {
        linked.push(link_statement(alloc, table, statement)?)?;
    }
    Ok(linked)
}

#[cycle(link_statement)]
fn link_arm(alloc: Global, table: &BodyTable, arm: &Arm) -> Result<SlotArm, LinkError>
    ensures linked { IfOk result (λ x. (text : Declared) (t : Table) → ServesBody table.now text t
        → linked_arm t (arm_view arm.now) ≡ Some (slot_arm_view x)) }
    ensures none { IfErr result (λ e. e ≡ LinkError.NotThere → (text : Declared) (t : Table)
        → ServesBody table.now text t → linked_arm t (arm_view arm.now) ≡ None) }
{
    let condition = link(alloc, table, &arm.condition)?;
    let body = link_statements(alloc, table, &arm.body)?;
    Ok(SlotArm::new(condition, body))
}

#[cycle(link_statement)]
fn link_arms(alloc: Global, table: &BodyTable, arms: &[Arm]) -> Result<Vec<SlotArm>, LinkError>
    ensures linked { IfOk result (λ xs. (text : Declared) (t : Table) → ServesBody table.now text t
        → linked_arms t (arms_of (map arm_view arms.now)) ≡ Some (slot_arms_of (map slot_arm_view xs.items))) }
    ensures none { IfErr result (λ e. e ≡ LinkError.NotThere → (text : Declared) (t : Table)
        → ServesBody table.now text t → linked_arms t (arms_of (map arm_view arms.now)) ≡ None) }
{
    let mut linked = Vec::new(alloc);
    for arm in arms {
        linked.push(link_arm(alloc, table, arm)?)?;
    }
    Ok(linked)
}

#[cycle(link_statement)]
fn link_case_arm(alloc: Global, table: &BodyTable, arm: &CaseArm) -> Result<SlotCaseArm, LinkError>
    ensures linked { IfOk result (λ x. (text : Declared) (t : Table) → ServesBody table.now text t
        → linked_case_arm t (case_arm_view arm.now) ≡ Some (slot_case_arm_view x)) }
    ensures none { IfErr result (λ e. e ≡ LinkError.NotThere → (text : Declared) (t : Table)
        → ServesBody table.now text t → linked_case_arm t (case_arm_view arm.now) ≡ None) }
{
    let labels = copied_labels(alloc, &arm.labels)?;
    let body = link_statements(alloc, table, &arm.body)?;
    Ok(SlotCaseArm::new(labels, body))
}

#[cycle(link_statement)]
fn link_case_arms(
    alloc: Global,
    table: &BodyTable,
    arms: &[CaseArm],
) -> Result<Vec<SlotCaseArm>, LinkError>
    ensures linked { IfOk result (λ xs. (text : Declared) (t : Table) → ServesBody table.now text t
        → linked_case_arms t (case_arms_of (map case_arm_view arms.now))
        ≡ Some (slot_case_arms_of (map slot_case_arm_view xs.items))) }
    ensures none { IfErr result (λ e. e ≡ LinkError.NotThere → (text : Declared) (t : Table)
        → ServesBody table.now text t
        → linked_case_arms t (case_arms_of (map case_arm_view arms.now)) ≡ None) }
{
    let mut linked = Vec::new(alloc);
    for arm in arms {
        linked.push(link_case_arm(alloc, table, arm)?)?;
    }
    Ok(linked)
}
