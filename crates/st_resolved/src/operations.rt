//! Operations, from the resolutions of their operands.

ghost use Rattle.std.specs.Prelude.{◌≡◌, ◌&&◌, if◌then◌else◌, Some, None, IfOk};
ghost use Rattle.st_types.specs.declared.kind.Kind.TheVariants.{Bool};
ghost use Rattle.st_types.specs.Expressions as tree;
ghost use Rattle.st_types.specs.Expressions.{parenthesis, unary, binary};
ghost use Rattle.st_meaning.specs.Operators.{or_kind};
ghost use Rattle.st_meaning.specs.Resolution.{is_joining, expected_of_both};
ghost use Rattle.st_rules.specs.Environments.{Environment};
ghost use Rattle.st_resolved.specs.Resolutions.{is_left, resolved_kind, Resolves};

use crate::resolutions::{Resolution, at_place, into_tree, is_left, resolved_kind};
use st_types::{BinaryOperator, Expr, Kind, UnaryOperator};
use st_typing::{is_joining, or_kind};
use std::alloc::{AllocError, Global};

/// Whether an operation has only untyped literals.
fn stays_untyped(operator: BinaryOperator, left: &Resolution, right: &Resolution) -> bool
    ensures { result ≡ (is_joining operator && is_left left.now && is_left right.now) }
{
    is_joining(operator) && is_left(left) && is_left(right)
}

/// The type offered to the operands of an operation that doesn't have only untyped literals.
fn offered_to_operands(left: &Resolution, right: &Resolution) -> Option<Kind>
    ensures { result
        ≡ expected_of_both None (resolved_kind left.now) (resolved_kind right.now) (is_left left.now) (is_left right.now) }
{
    match (is_left(left), is_left(right)) {
        (true, true) => None,
        (true, false) => resolved_kind(right),
        (false, _) => resolved_kind(left),
    }
}

/// The type of an operation.
fn kind_of_operation(
    operator: BinaryOperator,
    left: &Resolution,
    right: &Resolution,
) -> Option<Kind>
    ensures { result
        ≡ (if is_joining operator then or_kind (resolved_kind left.now) (resolved_kind right.now) else Some Bool) }
{
    if is_joining(operator) {
        or_kind(resolved_kind(left), resolved_kind(right))
    } else {
        Some(Kind::Bool)
    }
}

/// The resolution of an operation with two operands.
pub fn operation(
    alloc: Global,
    operator: BinaryOperator,
    left: Resolution,
    right: Resolution,
) -> Result<Resolution, AllocError>
    ensures { IfOk result (λ whole. (env : Environment) (l r : tree.Expr) → Resolves env l left
        → Resolves env r right → Resolves env (binary operator l r) whole) }
{
    if stays_untyped(operator, &left, &right) {
        let whole = Expr::binary(alloc, operator, into_tree(left), into_tree(right))?;
        return Ok(Resolution::Untyped(whole));
    }
    let kind = kind_of_operation(operator, &left, &right);
    let offered = offered_to_operands(&left, &right);
    let left = at_place(offered, left);
    let right = at_place(offered, right);
    Ok(Resolution::Typed(kind, Expr::binary(alloc, operator, left, right)?))
}

/// The resolution of an operator before its operand.
pub fn negated(
    alloc: Global,
    operator: UnaryOperator,
    place: usize,
    operand: Resolution,
) -> Result<Resolution, AllocError>
    ensures { IfOk result (λ whole. (env : Environment) (e : tree.Expr) → Resolves env e operand
        → Resolves env (unary operator place e) whole) }
{
    match operand {
        Resolution::Untyped(operand) => {
            Ok(Resolution::Untyped(Expr::unary(alloc, operator, place, operand)?))
        }
        Resolution::Typed(kind, operand) => {
            Ok(Resolution::Typed(kind, Expr::unary(alloc, operator, place, operand)?))
        }
    }
}

/// The resolution of an expression in parentheses.
pub fn parenthesized(
    alloc: Global,
    place: usize,
    inner: Resolution,
) -> Result<Resolution, AllocError>
    ensures { IfOk result (λ whole. (env : Environment) (e : tree.Expr) → Resolves env e inner
        → Resolves env (parenthesis place e) whole) }
{
    match inner {
        Resolution::Untyped(inner) => {
            Ok(Resolution::Untyped(Expr::parenthesis(alloc, place, inner)?))
        }
        Resolution::Typed(kind, inner) => {
            Ok(Resolution::Typed(kind, Expr::parenthesis(alloc, place, inner)?))
        }
    }
}
