//! The typings of operations, from those of their operands.

ghost use Rattle.std.specs.Prelude.{◌≡◌};
ghost use Rattle.st_types.specs.Expressions as tree;
ghost use Rattle.st_types.specs.Expressions.{binary};
ghost use Rattle.st_types.specs.ExpressionViews.{expr_view};
ghost use Rattle.st_rules.specs.Collecting.{Collects};
ghost use Rattle.st_rules.specs.Environments.{Environment};
ghost use Rattle.st_rules.specs.Typings.{typing_of};
ghost use Rattle.st_rules.specs.ExpressionRules.{wrong_expression};
ghost use Rattle.st_typing.specs.Answers.{if_untyped, wrong_operation, wrong_negation, wrong_by_place};

use crate::operands::{
    expected_of, is_untyped_typing, offered, stays_untyped, typing_of_operation, wrong_binary,
    wrong_typing, wrong_unary,
};
use crate::places::first_byte;
use crate::settling::settle;
use st_rules::{BrokenRules, Demand, Typing};
use st_types::{BinaryOperator, Expr, Kind, UnaryOperator};

/// Adds the faults in an operand that is offered a type, if it is untyped.
fn settle_untyped(
    offered: Option<Kind>,
    typing: Typing,
    expression: &Expr,
    broken: &mut BrokenRules,
)
    ensures { (env : Environment) → typing ≡ typing_of env (expr_view expression.now)
        → Collects (if_untyped env offered (expr_view expression.now)) broken.old broken.new }
{
    if !is_untyped_typing(typing) {
        return;
    }
    settle(offered, expression, broken);
}

/// The typing of an operation with two operands; adds the faults that are known with it: unless it stays untyped, those in
/// untyped operands, and that of the operator.
pub fn operation(
    operator: BinaryOperator,
    left: &Expr,
    left_typing: Typing,
    right: &Expr,
    right_typing: Typing,
    broken: &mut BrokenRules,
) -> Typing
    ensures typing { (env : Environment) → left_typing ≡ typing_of env (expr_view left.now)
        → right_typing ≡ typing_of env (expr_view right.now)
        → result ≡ typing_of env (binary operator (expr_view left.now) (expr_view right.now)) }
    ensures broken { (env : Environment) → left_typing ≡ typing_of env (expr_view left.now)
        → right_typing ≡ typing_of env (expr_view right.now)
        → Collects (wrong_operation env operator (expr_view left.now) (expr_view right.now)) broken.old broken.new }
{
    if stays_untyped(operator, left_typing, right_typing) {
        return Typing::Untyped;
    }
    let kind = offered(None, operator, left_typing, right_typing);
    settle_untyped(kind, left_typing, left, broken);
    settle_untyped(kind, right_typing, right, broken);
    let place = first_byte(left);
    wrong_binary(operator, place, left_typing, right_typing, kind, broken);
    typing_of_operation(operator, left_typing, right_typing)
}

/// Adds the fault of an operator before an operand that has a type.
pub fn negation(operator: UnaryOperator, place: usize, typing: Typing, broken: &mut BrokenRules)
    ensures { (env : Environment) (e : tree.Expr) → typing ≡ typing_of env e
        → Collects (wrong_negation env operator place e) broken.old broken.new }
{
    if is_untyped_typing(typing) {
        return;
    }
    wrong_unary(operator, place, typing, None, broken);
}

/// Adds the faults in an expression of a known typing at a place with a demand, but for those in parts that have a type.
pub fn wrong_at(demand: Demand, typing: Typing, expression: &Expr, broken: &mut BrokenRules)
    ensures { (env : Environment) → typing ≡ typing_of env (expr_view expression.now)
        → Collects (wrong_by_place env demand (expr_view expression.now)) broken.old broken.new }
{
    settle_untyped(expected_of(demand), typing, expression, broken);
    wrong_typing(demand, typing, first_byte(expression), broken);
}
