//! Expressions of untyped literals, which take the type that they are offered.

ghost use Rattle.std.specs.Prelude.{◌≡◌, true};
ghost use Rattle.st_types.specs.ExpressionViews.{expr_view};
ghost use Rattle.st_meaning.specs.Resolution.{is_untyped, is_untyped_literal};
ghost use Rattle.st_rules.specs.Environments.{Environment};
ghost use Rattle.st_rules.specs.Collecting.{Collects};
ghost use Rattle.st_rules.specs.ExpressionRules.{wrong_literal, wrong_within};

use crate::literals::wrong_number;
use crate::operands::{wrong_binary, wrong_unary};
use crate::places::first_byte;
use st_rules::{BrokenRules, Typing};
use st_types::{Expr, Kind, Literal};

fn settle_literal(offered: Option<Kind>, literal: &Literal, broken: &mut BrokenRules)
    ensures { (env : Environment) → is_untyped_literal literal.now ≡ true
        → Collects (wrong_literal env.text offered literal.now) broken.old broken.new }
{
    if let Literal::Number(number) = literal {
        wrong_number(offered, number, broken);
    }
}

/// Adds the faults in an untyped expression that is offered a type; none if it has a type.
pub fn settle(offered: Option<Kind>, expression: &Expr, broken: &mut BrokenRules)
    ensures { (env : Environment) → is_untyped (expr_view expression.now) ≡ true
        → Collects (wrong_within env offered (expr_view expression.now)) broken.old broken.new }
{
    match expression {
        Expr::Literal(literal) => settle_literal(offered, literal, broken),
        Expr::Variable(_) => {}
        Expr::Call(_, _) => {}
        Expr::Parenthesis(_, inner) => settle(offered, inner, broken),
        Expr::Unary(operator, place, operand) => {
            settle(offered, operand, broken);
            wrong_unary(*operator, *place, Typing::Untyped, offered, broken);
        }
        Expr::Binary(operator, left, right) => {
            settle(offered, left, broken);
            settle(offered, right, broken);
            wrong_binary(
                *operator,
                first_byte(left),
                Typing::Untyped,
                Typing::Untyped,
                offered,
                broken,
            );
        }
    }
}
