//! The assignments of a body, as one list.

ghost use Rattle.std.specs.Prelude.{◌≡◌, ◌++◌, ◌∷◌, [], map, IfOk};
ghost use Rattle.st_types.specs.ExpressionViews.{variable_view};
ghost use Rattle.st_types.specs.Statements.{arms_of, case_arms_of};
ghost use Rattle.st_types.specs.StatementViews.{argument_view, stmt_view, stmts_view, arm_view, case_arm_view};
ghost use Rattle.st_meaning.specs.Scopes.{contains_name};
ghost use Rattle.st_check.specs.Assignments.{assigned_view, is_running, assigned_by_argument, assigned_by_arguments};
ghost use Rattle.st_check.specs.Assignments.{assigned_by, assigned_below, assigned_in, assigned_in_arms};
ghost use Rattle.st_check.specs.Assignments.{assigned_in_case_arms};

use st_meaning::lookup::is_named;
use st_types::{Argument, Arm, CaseArm, Identifier, Name, Stmt, Variable};
use std::alloc::{AllocError, Global};

/// A name that is assigned, and whether it is the control variable of a FOR that runs.
#[derive(Clone, Copy)]
pub enum Assigned<'a> {
    /// A variable that a statement assigns by its name.
    Target(bool, &'a Variable),
    /// The name by which a FOR counts.
    Control(bool, &'a Identifier),
}

/// Whether a FOR that runs counts by the name.
fn is_control(running: &[&Identifier], name: &Name) -> bool
    ensures { result ≡ contains_name (map (λ x. x.now.name) running.now) name.now }
{
    for control in running {
        if is_named(name, control) {
            return true;
        }
    }
    false
}

fn is_running(running: &[&Identifier], variable: &Variable) -> bool
    ensures { result ≡ is_running (map (λ x. x.now.name) running.now) (variable_view variable.now) }
{
    is_control(running, &variable.name.name)
}

/// The control variables of the FORs that run inside one more, the innermost first.
fn with_control<'a>(
    alloc: Global,
    control: &'a Identifier,
    running: &[&'a Identifier],
) -> Result<Vec<&'a Identifier>, AllocError>
    ensures { IfOk result (λ inner. map (λ x. x.now.name) inner.items
        ≡ control.now.name ∷ map (λ x. x.now.name) running.now) }
{
    let mut inner = Vec::new(alloc);
    inner.push(control)?;
    for outer in running {
        inner.push(*outer)?;
    }
    Ok(inner)
}

fn push_argument<'a>(
    assigned: &mut Vec<Assigned<'a>>,
    running: &[&'a Identifier],
    argument: &'a Argument,
) -> Result<(), AllocError>
    ensures { IfOk result (λ done. map assigned_view assigned.new.items ≡ map assigned_view assigned.old.items
        ++ assigned_by_argument (map (λ x. x.now.name) running.now) (argument_view argument.now)) }
{
    match argument {
        Argument::Input(_, _) => Ok(()),
        Argument::Output(_, variable) => {
            assigned.push(Assigned::Target(is_running(running, variable), variable))?;
            Ok(())
        }
    }
}

fn push_arguments<'a>(
    assigned: &mut Vec<Assigned<'a>>,
    running: &[&'a Identifier],
    arguments: &'a [Argument],
) -> Result<(), AllocError>
    ensures { IfOk result (λ done. map assigned_view assigned.new.items ≡ map assigned_view assigned.old.items
        ++ assigned_by_arguments (map (λ x. x.now.name) running.now) (map argument_view arguments.now)) }
{
    for argument in arguments {
        push_argument(assigned, running, argument)?;
    }
    Ok(())
}

/// Appends the assignments of a statement itself.
fn push_own<'a>(
    assigned: &mut Vec<Assigned<'a>>,
    running: &[&'a Identifier],
    statement: &'a Stmt,
) -> Result<(), AllocError>
    ensures { IfOk result (λ done. map assigned_view assigned.new.items ≡ map assigned_view assigned.old.items
        ++ assigned_by (map (λ x. x.now.name) running.now) (stmt_view statement.now)) }
{
    match statement {
        Stmt::Assign(variable, _) => {
            assigned.push(Assigned::Target(is_running(running, variable), variable))?;
            Ok(())
        }
        Stmt::Invoke(_, arguments) => push_arguments(assigned, running, arguments),
        Stmt::For {
            control,
            start: _,
            limit: _,
            step: _,
            body: _,
        } => {
            assigned.push(Assigned::Control(is_control(running, &control.name), control))?;
            Ok(())
        }
        _ => Ok(()),
    }
}

/// Appends the assignments in the statements of a body.
#[cycle(push_all)]
fn push_all<'a>(
    alloc: Global,
    assigned: &mut Vec<Assigned<'a>>,
    running: &[&'a Identifier],
    body: &'a [Stmt],
) -> Result<(), AllocError>
    ensures { IfOk result (λ done. map assigned_view assigned.new.items ≡ map assigned_view assigned.old.items
        ++ assigned_in (map (λ x. x.now.name) running.now) (stmts_view body.now)) }
{
    for statement in body {
        push_own(assigned, running, statement)?;
        push_below(alloc, assigned, running, statement)?;
    }
    Ok(())
}

/// Appends the assignments in the statements inside a statement.
#[cycle(push_all)]
fn push_below<'a>(
    alloc: Global,
    assigned: &mut Vec<Assigned<'a>>,
    running: &[&'a Identifier],
    statement: &'a Stmt,
) -> Result<(), AllocError>
    ensures { IfOk result (λ done. map assigned_view assigned.new.items ≡ map assigned_view assigned.old.items
        ++ assigned_below (map (λ x. x.now.name) running.now) (stmt_view statement.now)) }
{
    match statement {
        Stmt::If(arms, otherwise) => {
            push_arms(alloc, assigned, running, arms)?;
            push_all(alloc, assigned, running, otherwise)
        }
        Stmt::Case(_, arms, otherwise) => {
            push_case_arms(alloc, assigned, running, arms)?;
            push_all(alloc, assigned, running, otherwise)
        }
        Stmt::For {
            control,
            start: _,
            limit: _,
            step: _,
            body,
        } => {
            let inner = with_control(alloc, control, running)?;
            push_all(alloc, assigned, &inner, body)
        }
        Stmt::While(_, body) => push_all(alloc, assigned, running, body),
        Stmt::Repeat(body, _) => push_all(alloc, assigned, running, body),
        _ => Ok(()),
    }
}

#[cycle(push_all)]
fn push_arms<'a>(
    alloc: Global,
    assigned: &mut Vec<Assigned<'a>>,
    running: &[&'a Identifier],
    arms: &'a [Arm],
) -> Result<(), AllocError>
    ensures { IfOk result (λ done. map assigned_view assigned.new.items ≡ map assigned_view assigned.old.items
        ++ assigned_in_arms (map (λ x. x.now.name) running.now) (arms_of (map arm_view arms.now))) }
{
    for arm in arms {
        push_all(alloc, assigned, running, &arm.body)?;
    }
    Ok(())
}

#[cycle(push_all)]
fn push_case_arms<'a>(
    alloc: Global,
    assigned: &mut Vec<Assigned<'a>>,
    running: &[&'a Identifier],
    arms: &'a [CaseArm],
) -> Result<(), AllocError>
    ensures { IfOk result (λ done. map assigned_view assigned.new.items ≡ map assigned_view assigned.old.items
        ++ assigned_in_case_arms (map (λ x. x.now.name) running.now) (case_arms_of (map case_arm_view arms.now))) }
{
    for arm in arms {
        push_all(alloc, assigned, running, &arm.body)?;
    }
    Ok(())
}

/// All assignments in the statements of a body.
pub fn assigned_in<'a>(alloc: Global, body: &'a [Stmt]) -> Result<Vec<Assigned<'a>>, AllocError>
    ensures { IfOk result (λ assigned. map assigned_view assigned.items ≡ assigned_in [] (stmts_view body.now)) }
{
    let mut assigned = Vec::new(alloc);
    let running = Vec::new(alloc);
    push_all(alloc, &mut assigned, &running, body)?;
    Ok(assigned)
}
