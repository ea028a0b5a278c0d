//! Statements of a unit's body.

ghost use Rattle.std.specs.Prelude.{◌≡◌, IfOk, map, option_map};
ghost use Rattle.st_types.specs.ExpressionViews.{expr_view};
ghost use Rattle.st_types.specs.StatementViews.{stmt_view, arm_view, case_arm_view};
ghost use Rattle.st_meaning.specs.NameTypes.{variable_type};
ghost use Rattle.st_meaning.specs.Resolution.{resolved_expr};
ghost use Rattle.st_meaning.specs.ResolvedUnits.{kind_there, resolved_stmt};
ghost use Rattle.st_rules.specs.Environments.{Environment};
ghost use Rattle.symbols.specs.Serving.{Serves};
ghost use Rattle.st_resolved.specs.Arms.{resolved_arm, resolved_case_arm};

use crate::expressions::{resolve, resolved_expr};
use crate::invocations::{resolved_assignment, resolved_invocation};
use crate::kinds::kind_there;
use crate::labels::resolved_labels;
use crate::resolutions::{at_place, resolved_kind};
use st_types::{Arm, CaseArm, Expr, Kind, Name, Stmt};
use std::alloc::{AllocError, Global};
use symbols::UnitNames;

/// The type of a control variable.
fn kind_of_name(names: &UnitNames, name: &Name) -> Option<Kind>
    ensures { (env : Environment) → Serves names.now env
        → result ≡ kind_there env.text (variable_type env.unit name.now) }
{
    kind_there(names.tables, names.type_of_name(name))
}

/// The number after BY.
fn resolved_step(
    alloc: Global,
    names: &UnitNames,
    kind: Option<Kind>,
    step: &Option<Expr>,
) -> Result<Option<Expr>, AllocError>
    ensures { IfOk result (λ e. (env : Environment) → Serves names.now env → option_map expr_view e
        ≡ option_map (resolved_expr env.text env.unit kind) (option_map expr_view step.now)) }
{
    match step {
        Some(step) => Ok(Some(resolved_expr(alloc, names, kind, step)?)),
        None => Ok(None),
    }
}

/// A statement with those inside it.
#[cycle(resolved_stmt)]
#[tactic(auto, using(crate::proofs::ListLemmas::stmts_resolved, crate::proofs::ListLemmas::arms_resolved, crate::proofs::ListLemmas::case_arms_resolved))]
fn resolved_stmt(alloc: Global, names: &UnitNames, statement: &Stmt) -> Result<Stmt, AllocError>
    ensures { IfOk result (λ s. (env : Environment) → Serves names.now env
        → stmt_view s ≡ resolved_stmt env.text env.unit (stmt_view statement.now)) }
{
    match statement {
        Stmt::Empty => Ok(Stmt::empty()),
        Stmt::Assign(target, value) => resolved_assignment(alloc, names, target, value),
        Stmt::Invoke(instance, arguments) => {
            resolved_invocation(alloc, names, instance, arguments)
        }
        Stmt::If(arms, otherwise) => {
            let arms = resolved_arms(alloc, names, arms)?;
            let otherwise = resolved_stmts(alloc, names, otherwise)?;
            Ok(Stmt::choose(arms, otherwise))
        }
        Stmt::Case(selector, arms, otherwise) => {
            let selector = resolve(alloc, names, selector)?;
            let kind = resolved_kind(&selector);
            let selector = at_place(None, selector);
            let arms = resolved_case_arms(alloc, names, kind, arms)?;
            let otherwise = resolved_stmts(alloc, names, otherwise)?;
            Ok(Stmt::select(selector, arms, otherwise))
        }
        Stmt::For {
            control,
            start,
            limit,
            step,
            body,
        } => {
            let kind = kind_of_name(names, &control.name);
            let control = control.copied(alloc)?;
            let start = resolved_expr(alloc, names, kind, start)?;
            let limit = resolved_expr(alloc, names, kind, limit)?;
            let step = resolved_step(alloc, names, kind, step)?;
            let body = resolved_stmts(alloc, names, body)?;
            Ok(Stmt::count(control, start, limit, step, body))
        }
        Stmt::While(condition, body) => {
            let condition = resolved_expr(alloc, names, Some(Kind::Bool), condition)?;
            let body = resolved_stmts(alloc, names, body)?;
            Ok(Stmt::repeat_while(condition, body))
        }
        Stmt::Repeat(body, condition) => {
            let condition = resolved_expr(alloc, names, Some(Kind::Bool), condition)?;
            let body = resolved_stmts(alloc, names, body)?;
            Ok(Stmt::repeat_until(body, condition))
        }
        Stmt::Exit(place) => Ok(Stmt::exit(*place)),
        Stmt::Return => Ok(Stmt::leave()),
    }
}

/// The statements of a list.
#[cycle(resolved_stmt)]
pub fn resolved_stmts(
    alloc: Global,
    names: &UnitNames,
    statements: &[Stmt],
) -> Result<Vec<Stmt>, AllocError>
    ensures { IfOk result (λ list. (env : Environment) → Serves names.now env → map stmt_view list.items
        ≡ map (resolved_stmt env.text env.unit) (map stmt_view statements.now)) }
{
    let mut resolved = Vec::new(alloc);
    for statement in statements {
        resolved.push(resolved_stmt(alloc, names, statement)?)?;
    }
    Ok(resolved)
}

#[cycle(resolved_stmt)]
fn resolved_arms(alloc: Global, names: &UnitNames, arms: &[Arm]) -> Result<Vec<Arm>, AllocError>
    ensures { IfOk result (λ list. (env : Environment) → Serves names.now env → map arm_view list.items
        ≡ map (resolved_arm env.text env.unit) (map arm_view arms.now)) }
{
    let mut resolved = Vec::new(alloc);
    for arm in arms {
        let condition = resolved_expr(alloc, names, Some(Kind::Bool), &arm.condition)?;
        let body = resolved_stmts(alloc, names, &arm.body)?;
        resolved.push(Arm { condition, body })?;
    }
    Ok(resolved)
}

/// The arms of a CASE over a selector of a type.
#[cycle(resolved_stmt)]
fn resolved_case_arms(
    alloc: Global,
    names: &UnitNames,
    kind: Option<Kind>,
    arms: &[CaseArm],
) -> Result<Vec<CaseArm>, AllocError>
    ensures { IfOk result (λ list. (env : Environment) → Serves names.now env → map case_arm_view list.items
        ≡ map (resolved_case_arm env.text env.unit kind) (map case_arm_view arms.now)) }
{
    let mut resolved = Vec::new(alloc);
    for arm in arms {
        let labels = resolved_labels(alloc, names.tables, kind, &arm.labels)?;
        let body = resolved_stmts(alloc, names, &arm.body)?;
        resolved.push(CaseArm { labels, body })?;
    }
    Ok(resolved)
}
