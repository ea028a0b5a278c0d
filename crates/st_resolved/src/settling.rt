//! Expressions of untyped literals, which take the type that they are offered.

ghost use Rattle.std.specs.Prelude.{◌≡◌, true};
ghost use Rattle.st_types.specs.ExpressionViews.{expr_view};
ghost use Rattle.st_meaning.specs.Resolution.{is_untyped, is_untyped_literal, taken_kind, taking_literal, resolved_expr};
ghost use Rattle.st_rules.specs.Environments.{Environment};

use crate::literals::taking_number;
use st_types::{Expr, Kind, Literal};
use st_typing::taken_kind;

fn settle_literal(offered: Option<Kind>, literal: &mut Literal)
    ensures { (env : Environment) → is_untyped_literal literal.old ≡ true
        → literal.new ≡ taking_literal env.text.types (taken_kind offered) literal.old }
{
    if let Literal::Number(number) = literal {
        *number = taking_number(taken_kind(offered), *number);
    }
}

/// Gives each literal of an untyped expression the type that is offered.
pub fn settle(offered: Option<Kind>, expression: &mut Expr)
    ensures { (env : Environment) → is_untyped (expr_view expression.old) ≡ true
        → expr_view expression.new ≡ resolved_expr env.text env.unit offered (expr_view expression.old) }
{
    match expression {
        Expr::Literal(literal) => settle_literal(offered, literal),
        Expr::Parenthesis(_, inner) => settle(offered, inner),
        Expr::Unary(_, _, operand) => settle(offered, operand),
        Expr::Binary(_, left, right) => {
            settle(offered, left);
            settle(offered, right);
        }
        Expr::Variable(_) | Expr::Call(_, _) => {}
    }
}
