//! The statements of a body with those inside them, as one list.

ghost use Rattle.std.specs.Prelude.{◌≡◌, ◌∷◌, ◌++◌, map, IfOk};
ghost use Rattle.st_types.specs.Statements.{arms_of, case_arms_of};
ghost use Rattle.st_types.specs.StatementViews.{stmt_view, stmts_view, arm_view, case_arm_view};
ghost use Rattle.st_decl.specs.Flattened.{all_below, all_in, all_in_arms, all_in_case_arms};

use st_types::{Arm, CaseArm, Stmt};
use std::alloc::{AllocError, Global};

/// Appends the statements of a body.
#[cycle(push_all)]
fn push_all<'a>(statements: &mut Vec<&'a Stmt>, body: &'a [Stmt]) -> Result<(), AllocError>
    ensures { IfOk result (λ done. map (λ s. stmt_view s.now) statements.new.items
        ≡ map (λ s. stmt_view s.now) statements.old.items ++ all_in (stmts_view body.now)) }
{
    for statement in body {
        statements.push(statement)?;
        push_below(statements, statement)?;
    }
    Ok(())
}

/// Appends the statements inside a statement.
#[cycle(push_all)]
fn push_below<'a>(statements: &mut Vec<&'a Stmt>, statement: &'a Stmt) -> Result<(), AllocError>
    ensures { IfOk result (λ done. map (λ s. stmt_view s.now) statements.new.items
        ≡ map (λ s. stmt_view s.now) statements.old.items ++ all_below (stmt_view statement.now)) }
{
    match statement {
        Stmt::If(arms, otherwise) => {
            push_arms(statements, arms)?;
            push_all(statements, otherwise)
        }
        Stmt::Case(_, arms, otherwise) => {
            push_case_arms(statements, arms)?;
            push_all(statements, otherwise)
        }
        Stmt::For {
            control: _,
            start: _,
            limit: _,
            step: _,
            body,
        } => push_all(statements, body),
        Stmt::While(_, body) => push_all(statements, body),
        Stmt::Repeat(body, _) => push_all(statements, body),
        _ => Ok(()),
    }
}

#[cycle(push_all)]
fn push_arms<'a>(statements: &mut Vec<&'a Stmt>, arms: &'a [Arm]) -> Result<(), AllocError>
    ensures { IfOk result (λ done. map (λ s. stmt_view s.now) statements.new.items
        ≡ map (λ s. stmt_view s.now) statements.old.items ++ all_in_arms (arms_of (map arm_view arms.now))) }
{
    for arm in arms {
        push_all(statements, &arm.body)?;
    }
    Ok(())
}

#[cycle(push_all)]
fn push_case_arms<'a>(statements: &mut Vec<&'a Stmt>, arms: &'a [CaseArm]) -> Result<(), AllocError>
    ensures { IfOk result (λ done. map (λ s. stmt_view s.now) statements.new.items
        ≡ map (λ s. stmt_view s.now) statements.old.items
        ++ all_in_case_arms (case_arms_of (map case_arm_view arms.now))) }
{
    for arm in arms {
        push_all(statements, &arm.body)?;
    }
    Ok(())
}

/// The statements of a body, each before those inside it.
pub fn all_in<'a>(alloc: Global, body: &'a [Stmt]) -> Result<Vec<&'a Stmt>, AllocError>
    ensures { IfOk result
        (λ statements. map (λ s. stmt_view s.now) statements.items ≡ all_in (stmts_view body.now)) }
{
    let mut statements = Vec::new(alloc);
    push_all(&mut statements, body)?;
    Ok(statements)
}
