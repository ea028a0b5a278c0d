//! Expressions.

ghost use Rattle.std.specs.Prelude.{◌≡◌, IfOk, map};
ghost use Rattle.st_types.specs.Expressions as tree;
ghost use Rattle.st_types.specs.Expressions.{exprs_of, selectors_of};
ghost use Rattle.st_types.specs.ExpressionViews.{expr_view, variable_view, selector_view};

use crate::identifier::Identifier;
use crate::literal::Literal;
use crate::operator::{BinaryOperator, UnaryOperator};
use crate::tree::Tree;
use std::alloc::{AllocError, Global};

/// An expression: a literal, a variable, a call of a function, or an operator over expressions.
#[cycle(expression)]
pub enum Expr {
    Literal(Literal),
    Variable(Variable),
    /// A call of a function with its arguments.
    Call(Identifier, Vec<Expr>),
    /// An expression in parentheses, with the place of the first one.
    Parenthesis(usize, Box<Expr>),
    /// An operator at a place, before its operand.
    Unary(UnaryOperator, usize, Box<Expr>),
    Binary(BinaryOperator, Box<Expr>, Box<Expr>),
}

impl Drop for Expr {
    #[cycle(dropped_expression)]
    fn drop(self) {
        match self {
            Self::Literal(_)
            | Self::Variable(_)
            | Self::Call(_, _)
            | Self::Parenthesis(_, _)
            | Self::Unary(_, _, _)
            | Self::Binary(_, _, _) => {}
        }
    }
}

/// A variable: a name, and its selectors, from the left.
#[cycle(expression)]
pub struct Variable {
    pub name: Identifier,
    pub selectors: Vec<Selector>,
}

impl Drop for Variable {
    #[cycle(dropped_expression)]
    fn drop(self) {
        let Self {
            name: _,
            selectors: _,
        } = self;
    }
}

/// A part of a variable.
#[cycle(expression)]
pub enum Selector {
    /// A field of a structure, or an output of a block instance.
    Member(Identifier),
    /// An element of an array.
    Subscript(Expr),
}

impl Drop for Selector {
    #[cycle(dropped_expression)]
    fn drop(self) {
        match self {
            Self::Member(_) | Self::Subscript(_) => {}
        }
    }
}

impl Expr {
    pub fn literal(literal: Literal) -> Expr
        ensures { expr_view result ≡ tree.literal literal }
    {
        Expr::Literal(literal)
    }

    pub fn variable(variable: Variable) -> Expr
        ensures { expr_view result ≡ tree.read (variable_view variable) }
    {
        Expr::Variable(variable)
    }

    pub fn call(function: Identifier, arguments: Vec<Expr>) -> Expr
        ensures { expr_view result ≡ tree.call function (exprs_of (map expr_view arguments.items)) }
    {
        Expr::Call(function, arguments)
    }

    pub fn parenthesis(alloc: Global, place: usize, inner: Expr) -> Result<Expr, AllocError>
        ensures { IfOk result (λ e. expr_view e ≡ tree.parenthesis place (expr_view inner)) }
    {
        Ok(Expr::Parenthesis(place, Box::new(alloc, inner)?))
    }

    pub fn unary(
        alloc: Global,
        operator: UnaryOperator,
        place: usize,
        operand: Expr,
    ) -> Result<Expr, AllocError>
        ensures { IfOk result (λ e. expr_view e ≡ tree.unary operator place (expr_view operand)) }
    {
        Ok(Expr::Unary(operator, place, Box::new(alloc, operand)?))
    }

    pub fn binary(
        alloc: Global,
        operator: BinaryOperator,
        left: Expr,
        right: Expr,
    ) -> Result<Expr, AllocError>
        ensures { IfOk result (λ e. expr_view e ≡ tree.binary operator (expr_view left) (expr_view right)) }
    {
        Ok(Expr::Binary(operator, Box::new(alloc, left)?, Box::new(alloc, right)?))
    }
}

impl Variable {
    pub fn new(name: Identifier, selectors: Vec<Selector>) -> Variable
        ensures { variable_view result ≡ tree.variable name (selectors_of (map selector_view selectors.items)) }
    {
        Variable { name, selectors }
    }
}

impl Selector {
    pub fn member(member: Identifier) -> Selector
        ensures { selector_view result ≡ tree.member member }
    {
        Selector::Member(member)
    }

    pub fn subscript(subscript: Expr) -> Selector
        ensures { selector_view result ≡ tree.subscript (expr_view subscript) }
    {
        Selector::Subscript(subscript)
    }
}

impl Tree for Expr {
    ghost use Rattle.st_types.specs.Expressions as tree;
    ghost use Rattle.st_types.specs.ExpressionViews.{expr_view};

    ghost Mirror = { tree.Expr };

    ghost view = { expr_view };
}

impl Tree for Variable {
    ghost use Rattle.st_types.specs.Expressions as tree;
    ghost use Rattle.st_types.specs.ExpressionViews.{variable_view};

    ghost Mirror = { tree.Variable };

    ghost view = { variable_view };
}

impl Tree for Selector {
    ghost use Rattle.st_types.specs.Expressions as tree;
    ghost use Rattle.st_types.specs.ExpressionViews.{selector_view};

    ghost Mirror = { tree.Selector };

    ghost view = { selector_view };
}
