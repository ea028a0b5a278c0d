//! The places at which expressions begin.

ghost use Rattle.std.specs.Prelude.{◌≡◌};
ghost use Rattle.st_types.specs.ExpressionViews.{expr_view};
ghost use Rattle.st_rules.specs.ExpressionRules.{place_of_literal, first_byte};

use st_types::{Expr, Literal};

/// The offset of the first byte of a literal.
pub fn place_of_literal(literal: &Literal) -> usize
    ensures { result ≡ place_of_literal literal.now }
{
    match literal {
        Literal::Number(number) => number.place,
        Literal::Truth(place, _) => *place,
        Literal::Duration(place, _) => *place,
        Literal::Enumerated(value) => value.place,
    }
}

/// The offset of the first byte of an expression.
pub fn first_byte(expression: &Expr) -> usize
    ensures { result ≡ first_byte (expr_view expression.now) }
{
    match expression {
        Expr::Literal(literal) => place_of_literal(literal),
        Expr::Variable(variable) => variable.name.place,
        Expr::Call(function, _) => function.place,
        Expr::Parenthesis(place, _) => *place,
        Expr::Unary(_, place, _) => *place,
        Expr::Binary(_, left, _) => first_byte(left),
    }
}
