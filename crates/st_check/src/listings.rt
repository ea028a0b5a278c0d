//! The statements of a body with those inside them, as one list.

ghost use Rattle.std.specs.Prelude.{◌≡◌, ◌++◌, map, IfOk, false};
ghost use Rattle.st_types.specs.Statements.{arms_of, case_arms_of};
ghost use Rattle.st_types.specs.StatementViews.{stmt_view, stmts_view, arm_view, case_arm_view};
ghost use Rattle.st_check.specs.Listings.{listed_view, listed_below, listed_in, listed_in_arms, listed_in_case_arms};

use st_types::{Arm, CaseArm, Stmt};
use std::alloc::{AllocError, Global};

/// A statement, and whether it is in a loop.
#[derive(Clone, Copy)]
pub struct Listed<'a> {
    pub in_loop: bool,
    pub statement: &'a Stmt,
}

/// Appends the statements of a body.
#[cycle(push_all)]
fn push_all<'a>(
    listed: &mut Vec<Listed<'a>>,
    in_loop: bool,
    body: &'a [Stmt],
) -> Result<(), AllocError>
    ensures { IfOk result (λ done. map listed_view listed.new.items
        ≡ map listed_view listed.old.items ++ listed_in in_loop (stmts_view body.now)) }
{
    for statement in body {
        listed.push(Listed { in_loop, statement })?;
        push_below(listed, in_loop, statement)?;
    }
    Ok(())
}

/// Appends the statements inside a statement.
#[cycle(push_all)]
fn push_below<'a>(
    listed: &mut Vec<Listed<'a>>,
    in_loop: bool,
    statement: &'a Stmt,
) -> Result<(), AllocError>
    ensures { IfOk result (λ done. map listed_view listed.new.items
        ≡ map listed_view listed.old.items ++ listed_below in_loop (stmt_view statement.now)) }
{
    match statement {
        Stmt::If(arms, otherwise) => {
            push_arms(listed, in_loop, arms)?;
            push_all(listed, in_loop, otherwise)
        }
        Stmt::Case(_, arms, otherwise) => {
            push_case_arms(listed, in_loop, arms)?;
            push_all(listed, in_loop, otherwise)
        }
        Stmt::For {
            control: _,
            start: _,
            limit: _,
            step: _,
            body,
        } => push_all(listed, true, body),
        Stmt::While(_, body) => push_all(listed, true, body),
        Stmt::Repeat(body, _) => push_all(listed, true, body),
        _ => Ok(()),
    }
}

#[cycle(push_all)]
fn push_arms<'a>(
    listed: &mut Vec<Listed<'a>>,
    in_loop: bool,
    arms: &'a [Arm],
) -> Result<(), AllocError>
    ensures { IfOk result (λ done. map listed_view listed.new.items
        ≡ map listed_view listed.old.items ++ listed_in_arms in_loop (arms_of (map arm_view arms.now))) }
{
    for arm in arms {
        push_all(listed, in_loop, &arm.body)?;
    }
    Ok(())
}

#[cycle(push_all)]
fn push_case_arms<'a>(
    listed: &mut Vec<Listed<'a>>,
    in_loop: bool,
    arms: &'a [CaseArm],
) -> Result<(), AllocError>
    ensures { IfOk result (λ done. map listed_view listed.new.items
        ≡ map listed_view listed.old.items
        ++ listed_in_case_arms in_loop (case_arms_of (map case_arm_view arms.now))) }
{
    for arm in arms {
        push_all(listed, in_loop, &arm.body)?;
    }
    Ok(())
}

/// The statements of a body, each before those inside it.
pub fn listed_in<'a>(alloc: Global, body: &'a [Stmt]) -> Result<Vec<Listed<'a>>, AllocError>
    ensures { IfOk result (λ listed. map listed_view listed.items ≡ listed_in false (stmts_view body.now)) }
{
    let mut listed = Vec::new(alloc);
    push_all(&mut listed, false, body)?;
    Ok(listed)
}
