//! Expressions of a unit's body, resolved from their leaves up.

ghost use Rattle.std.specs.Prelude.{◌≡◌, IfOk, map};
ghost use Rattle.st_types.specs.Expressions.{read, exprs_of};
ghost use Rattle.st_types.specs.ExpressionViews.{expr_view, variable_view, selector_view};
ghost use Rattle.st_meaning.specs.Resolution.{resolved_expr, resolved_variable, resolved_selector};
ghost use Rattle.st_rules.specs.Environments.{Environment};
ghost use Rattle.symbols.specs.Serving.{Serves};
ghost use Rattle.st_resolved.specs.Resolutions.{Resolves, ResolvesAll};

use crate::alone::{resolved_alone, resolved_literal};
use crate::calls::called;
use crate::kinds::kind_of_variable;
use crate::operations::{negated, operation, parenthesized};
use crate::resolutions::{Resolution, at_place};
use st_types::{Expr, Kind, Selector, Variable};
use std::alloc::{AllocError, Global};
use symbols::UnitNames;

/// The resolution of an expression by itself.
#[cycle(resolve)]
pub fn resolve(
    alloc: Global,
    names: &UnitNames,
    expression: &Expr,
) -> Result<Resolution, AllocError>
    ensures { IfOk result (λ whole. (env : Environment) → Serves names.now env
        → Resolves env (expr_view expression.now) whole) }
{
    match expression {
        Expr::Literal(literal) => resolved_literal(alloc, names.tables, literal),
        Expr::Variable(variable) => resolved_read(alloc, names, variable),
        Expr::Call(function, arguments) => {
            let parts = resolve_all(alloc, names, arguments)?;
            called(alloc, names.tables, function, parts)
        }
        Expr::Parenthesis(place, inner) => {
            let inner = resolve(alloc, names, inner)?;
            parenthesized(alloc, *place, inner)
        }
        Expr::Unary(operator, place, operand) => {
            let operand = resolve(alloc, names, operand)?;
            negated(alloc, *operator, *place, operand)
        }
        Expr::Binary(operator, left, right) => {
            let left = resolve(alloc, names, left)?;
            let right = resolve(alloc, names, right)?;
            operation(alloc, *operator, left, right)
        }
    }
}

#[cycle(resolve)]
fn resolve_all(
    alloc: Global,
    names: &UnitNames,
    expressions: &[Expr],
) -> Result<Vec<Resolution>, AllocError>
    ensures { IfOk result (λ parts. (env : Environment) → Serves names.now env
        → ResolvesAll env (exprs_of (map expr_view expressions.now)) parts.items) }
{
    let mut parts = Vec::new(alloc);
    for expression in expressions {
        parts.push(resolve(alloc, names, expression)?)?;
    }
    Ok(parts)
}

/// The resolution of a variable or a value of an enumerated type.
#[cycle(resolve)]
fn resolved_read(
    alloc: Global,
    names: &UnitNames,
    variable: &Variable,
) -> Result<Resolution, AllocError>
    ensures { IfOk result (λ whole. (env : Environment) → Serves names.now env
        → Resolves env (read (variable_view variable.now)) whole) }
{
    if variable.selectors.is_empty() {
        return resolved_alone(alloc, names, &variable.name);
    }
    let kind = kind_of_variable(names, variable);
    let resolved = resolved_variable(alloc, names, variable)?;
    Ok(Resolution::Typed(kind, Expr::variable(resolved)))
}

/// A variable with its subscripts resolved.
#[cycle(resolve)]
#[tactic(auto, using(crate::proofs::ListLemmas::selectors_resolved))]
pub fn resolved_variable(
    alloc: Global,
    names: &UnitNames,
    variable: &Variable,
) -> Result<Variable, AllocError>
    ensures { IfOk result (λ v. (env : Environment) → Serves names.now env
        → variable_view v ≡ resolved_variable env.text env.unit (variable_view variable.now)) }
{
    let selectors = resolved_selectors(alloc, names, &variable.selectors)?;
    Ok(Variable::new(variable.name.copied(alloc)?, selectors))
}

#[cycle(resolve)]
fn resolved_selectors(
    alloc: Global,
    names: &UnitNames,
    selectors: &[Selector],
) -> Result<Vec<Selector>, AllocError>
    ensures { IfOk result (λ list. (env : Environment) → Serves names.now env
        → map selector_view list.items
        ≡ map (resolved_selector env.text env.unit) (map selector_view selectors.now)) }
{
    let mut resolved = Vec::new(alloc);
    for selector in selectors {
        resolved.push(resolved_selector(alloc, names, selector)?)?;
    }
    Ok(resolved)
}

#[cycle(resolve)]
fn resolved_selector(
    alloc: Global,
    names: &UnitNames,
    selector: &Selector,
) -> Result<Selector, AllocError>
    ensures { IfOk result (λ s. (env : Environment) → Serves names.now env
        → selector_view s ≡ resolved_selector env.text env.unit (selector_view selector.now)) }
{
    match selector {
        Selector::Member(member) => Ok(Selector::member(member.copied(alloc)?)),
        Selector::Subscript(index) => {
            let index = resolve(alloc, names, index)?;
            Ok(Selector::subscript(at_place(None, index)))
        }
    }
}

/// An expression at a place that offers a type.
pub fn resolved_expr(
    alloc: Global,
    names: &UnitNames,
    offered: Option<Kind>,
    expression: &Expr,
) -> Result<Expr, AllocError>
    ensures { IfOk result (λ e. (env : Environment) → Serves names.now env
        → expr_view e ≡ resolved_expr env.text env.unit offered (expr_view expression.now)) }
{
    let resolved = resolve(alloc, names, expression)?;
    Ok(at_place(offered, resolved))
}
