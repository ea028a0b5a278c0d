//! The functions that a unit calls.

ghost use Rattle.std.specs.Prelude.{◌≡◌, ◌∷◌, ◌++◌, [], map, option_map, IfOk};
ghost use Rattle.std.specs.List.{flat_map};
ghost use Rattle.st_types.specs.Expressions.{exprs_of, selectors_of};
ghost use Rattle.st_types.specs.Statements.{arms_of};
ghost use Rattle.st_types.specs.ExpressionViews.{expr_view, variable_view, selector_view};
ghost use Rattle.st_types.specs.StatementViews.{argument_view, stmt_view, arm_view};
ghost use Rattle.st_types.specs.UnitViews.{unit_view};
ghost use Rattle.st_rules.specs.Containment.{calls_in, calls_in_all, calls_in_variable, calls_in_selectors};
ghost use Rattle.st_rules.specs.Containment.{calls_in_selector, calls_in_argument, calls_in_conditions};
ghost use Rattle.st_rules.specs.Containment.{calls_in_step, calls_in_statement, calls_of};

use crate::statements::all_in;
use st_types::{Argument, Arm, Expr, Identifier, Selector, Stmt, Unit, Variable};
use std::alloc::{AllocError, Global};

#[cycle(push_expr)]
fn push_expr<'a>(calls: &mut Vec<&'a Identifier>, expression: &'a Expr) -> Result<(), AllocError>
    ensures { IfOk result (λ done. map (λ x. x.now.name) calls.new.items
        ≡ map (λ x. x.now.name) calls.old.items ++ calls_in (expr_view expression.now)) }
{
    match expression {
        Expr::Literal(_) => Ok(()),
        Expr::Variable(variable) => push_variable(calls, variable),
        Expr::Call(function, arguments) => {
            calls.push(function)?;
            push_exprs(calls, arguments)
        }
        Expr::Parenthesis(_, inner) => push_expr(calls, inner),
        Expr::Unary(_, _, operand) => push_expr(calls, operand),
        Expr::Binary(_, left, right) => {
            push_expr(calls, left)?;
            push_expr(calls, right)
        }
    }
}

#[cycle(push_expr)]
fn push_exprs<'a>(
    calls: &mut Vec<&'a Identifier>,
    expressions: &'a [Expr],
) -> Result<(), AllocError>
    ensures { IfOk result (λ done. map (λ x. x.now.name) calls.new.items
        ≡ map (λ x. x.now.name) calls.old.items ++ calls_in_all (exprs_of (map expr_view expressions.now))) }
{
    for expression in expressions {
        push_expr(calls, expression)?;
    }
    Ok(())
}

#[cycle(push_expr)]
fn push_variable<'a>(
    calls: &mut Vec<&'a Identifier>,
    variable: &'a Variable,
) -> Result<(), AllocError>
    ensures { IfOk result (λ done. map (λ x. x.now.name) calls.new.items
        ≡ map (λ x. x.now.name) calls.old.items ++ calls_in_variable (variable_view variable.now)) }
{
    push_selectors(calls, &variable.selectors)
}

#[cycle(push_expr)]
fn push_selectors<'a>(
    calls: &mut Vec<&'a Identifier>,
    selectors: &'a [Selector],
) -> Result<(), AllocError>
    ensures { IfOk result (λ done. map (λ x. x.now.name) calls.new.items
        ≡ map (λ x. x.now.name) calls.old.items
        ++ calls_in_selectors (selectors_of (map selector_view selectors.now))) }
{
    for selector in selectors {
        push_selector(calls, selector)?;
    }
    Ok(())
}

#[cycle(push_expr)]
fn push_selector<'a>(
    calls: &mut Vec<&'a Identifier>,
    selector: &'a Selector,
) -> Result<(), AllocError>
    ensures { IfOk result (λ done. map (λ x. x.now.name) calls.new.items
        ≡ map (λ x. x.now.name) calls.old.items ++ calls_in_selector (selector_view selector.now)) }
{
    match selector {
        Selector::Member(_) => Ok(()),
        Selector::Subscript(index) => push_expr(calls, index),
    }
}

fn push_argument<'a>(
    calls: &mut Vec<&'a Identifier>,
    argument: &'a Argument,
) -> Result<(), AllocError>
    ensures { IfOk result (λ done. map (λ x. x.now.name) calls.new.items
        ≡ map (λ x. x.now.name) calls.old.items ++ calls_in_argument (argument_view argument.now)) }
{
    match argument {
        Argument::Input(_, value) => push_expr(calls, value),
        Argument::Output(_, variable) => push_variable(calls, variable),
    }
}

fn push_arguments<'a>(
    calls: &mut Vec<&'a Identifier>,
    arguments: &'a [Argument],
) -> Result<(), AllocError>
    ensures { IfOk result (λ done. map (λ x. x.now.name) calls.new.items
        ≡ map (λ x. x.now.name) calls.old.items
        ++ flat_map calls_in_argument (map argument_view arguments.now)) }
{
    for argument in arguments {
        push_argument(calls, argument)?;
    }
    Ok(())
}

fn push_conditions<'a>(calls: &mut Vec<&'a Identifier>, arms: &'a [Arm]) -> Result<(), AllocError>
    ensures { IfOk result (λ done. map (λ x. x.now.name) calls.new.items
        ≡ map (λ x. x.now.name) calls.old.items ++ calls_in_conditions (arms_of (map arm_view arms.now))) }
{
    for arm in arms {
        push_expr(calls, &arm.condition)?;
    }
    Ok(())
}

fn push_step<'a>(calls: &mut Vec<&'a Identifier>, step: &'a Option<Expr>) -> Result<(), AllocError>
    ensures { IfOk result (λ done. map (λ x. x.now.name) calls.new.items
        ≡ map (λ x. x.now.name) calls.old.items ++ calls_in_step (option_map expr_view step.now)) }
{
    match step {
        Some(step) => push_expr(calls, step),
        None => Ok(()),
    }
}

/// Appends the functions that the expressions of a statement call, not those of the statements inside it.
fn push_statement<'a>(
    calls: &mut Vec<&'a Identifier>,
    statement: &'a Stmt,
) -> Result<(), AllocError>
    ensures { IfOk result (λ done. map (λ x. x.now.name) calls.new.items
        ≡ map (λ x. x.now.name) calls.old.items ++ calls_in_statement (stmt_view statement.now)) }
{
    match statement {
        Stmt::Assign(target, value) => {
            push_variable(calls, target)?;
            push_expr(calls, value)
        }
        Stmt::Invoke(_, arguments) => push_arguments(calls, arguments),
        Stmt::If(arms, _) => push_conditions(calls, arms),
        Stmt::Case(selector, _, _) => push_expr(calls, selector),
        Stmt::For {
            control: _,
            start,
            limit,
            step,
            body: _,
        } => {
            push_expr(calls, start)?;
            push_expr(calls, limit)?;
            push_step(calls, step)
        }
        Stmt::While(condition, _) => push_expr(calls, condition),
        Stmt::Repeat(_, condition) => push_expr(calls, condition),
        _ => Ok(()),
    }
}

/// Appends the functions that a list of statements calls.
fn push_statements<'a>(
    calls: &mut Vec<&'a Identifier>,
    statements: &[&'a Stmt],
) -> Result<(), AllocError>
    ensures { IfOk result (λ done. map (λ x. x.now.name) calls.new.items
        ≡ map (λ x. x.now.name) calls.old.items
        ++ flat_map calls_in_statement (map (λ s. stmt_view s.now) statements.now)) }
{
    for statement in statements {
        push_statement(calls, statement)?;
    }
    Ok(())
}

/// The functions that a unit calls, standard ones too, by their names.
pub fn calls_of<'a>(alloc: Global, unit: &'a Unit) -> Result<Vec<&'a Identifier>, AllocError>
    ensures { IfOk result (λ calls. map (λ x. x.now.name) calls.items ≡ calls_of (unit_view unit.now)) }
{
    let statements = all_in(alloc, &unit.body)?;
    let mut calls = Vec::new(alloc);
    push_statements(&mut calls, &statements)?;
    Ok(calls)
}
