//! Expressions and variables.

ghost use Rattle.std.specs.Prelude.{◌≡◌, ◌≤◌, ◌<◌, ◌+◌, nat_lt, map};
ghost use Rattle.st_types.specs.declared.limits.TheConstants.{MAX_DEPTH};
ghost use Rattle.st_types.specs.ExpressionViews.{expr_view, variable_view, selector_view};
ghost use Rattle.st_types.specs.Depths.{depth_of};
ghost use Rattle.st_parse.specs.Tokens.{next, is_mark, is_name};
ghost use Rattle.st_parse.specs.Parsers as parsers;
ghost use Rattle.st_parse.specs.Parsers.{Reads, each, several};
ghost use Rattle.st_lex.specs.declared.mark.Mark.TheVariants as marks;
ghost use Rattle.st_parse.specs.ExpressionReading as reading;

use crate::fault::{ReadError, Refusal};
use crate::tokens::{
    begins, begins_name, begins_number, binds, goes_on, is_keyword, is_mark, keyword, leads,
    literal, mark, name, negative_at, operator, refused, sunk, whole,
};
use st_lex::{Keyword, Mark, Token, TokenKind};
use st_types::{Expr, Identifier, Literal, Selector, UnaryOperator, Variable};
use std::alloc::Global;

/// How strongly a sign or NOT binds.
const SIGN: usize = 8;

/// The level of an expression without an operator outside parentheses.
const OPERAND: usize = 9;

/// An expression and the tokens after it.
type Found<'a> = Result<(Expr, &'a [Token]), ReadError>;

fn starts_operand(kind: &TokenKind) -> bool
    ensures { result ≡ reading.starts_operand kind.now }
{
    match kind {
        TokenKind::Number(_) | TokenKind::Truth(_) | TokenKind::Duration(_) => true,
        TokenKind::Enumerated(_, _) | TokenKind::Name(_) => true,
        _ => is_mark(Mark::Open, kind),
    }
}

fn starts_expr(least: usize, tokens: &[Token]) -> bool
    ensures { result ≡ next (reading.starts_expr least) tokens.now }
{
    match tokens {
        [t, ..] => {
            starts_operand(&t.kind)
                || (least <= SIGN
                    && (is_mark(Mark::Minus, &t.kind) || is_keyword(Keyword::Not, &t.kind)))
        }
        [] => false,
    }
}

fn starts_selector(tokens: &[Token]) -> bool
    ensures { result ≡ next reading.starts_selector tokens.now }
{
    match tokens {
        [t, ..] => is_mark(Mark::Dot, &t.kind) || is_mark(Mark::OpenBracket, &t.kind),
        [] => false,
    }
}

fn is_deeper(expression: &Expr, below: usize) -> bool
    requires { below < MAX_DEPTH }
    ensures { result ≡ nat_lt below (depth_of (expr_view expression.now)) }
{
    expression.depth() > below
}

/// `parenthesis = "(", expr, ")" .`
#[cycle(expr)]
#[tactic(auto, unfolding(crate::specs::ExpressionReading::parenthesis_at))]
fn parenthesis(alloc: Global, below: usize, tokens: &[Token]) -> Found<'_>
    requires { below < MAX_DEPTH }
    ensures { Reads expr_view result (reading.parenthesis_at (reading.expr_at below) tokens.now) }
{
    let (place, rest) = mark(Mark::Open, tokens)?;
    let (inner, rest) = expr(alloc, below, 1, rest)?;
    let (_, rest) = mark(Mark::Close, rest)?;
    Ok((Expr::parenthesis(alloc, place, inner)?, rest))
}

/// `selector = ".", name | "[", expr, "]" .`
#[cycle(expr)]
#[tactic(auto, unfolding(crate::specs::ExpressionReading::selector_at, crate::specs::ExpressionReading::member_at, crate::specs::ExpressionReading::subscript_at))]
fn selector(
    alloc: Global,
    below: usize,
    tokens: &[Token],
) -> Result<(Selector, &[Token]), ReadError>
    requires { below < MAX_DEPTH }
    ensures { Reads selector_view result (reading.selector_at (reading.expr_at below) tokens.now) }
{
    if begins(Mark::Dot, tokens) {
        let (_, rest) = mark(Mark::Dot, tokens)?;
        let (found, rest) = name(alloc, rest)?;
        return Ok((Selector::member(found), rest));
    }
    let (_, rest) = mark(Mark::OpenBracket, tokens)?;
    let (found, rest) = expr(alloc, below, 1, rest)?;
    let (_, rest) = mark(Mark::CloseBracket, rest)?;
    Ok((Selector::subscript(found), rest))
}

/// `selectors = { selector } .`
#[cycle(expr)]
fn selectors<'a>(
    alloc: Global,
    below: usize,
    mut tokens: &'a [Token],
) -> Result<(Vec<Selector>, &'a [Token]), ReadError>
    requires { below < MAX_DEPTH }
    ensures { Reads (each selector_view) result (reading.selectors_at (reading.expr_at below) tokens.entry.now) }
{
    let mut found = Vec::new(alloc);
    for _turn in 0..tokens.len() {
        if !starts_selector(tokens) {
            return Ok((found, tokens));
        }
        let (next, rest) = selector(alloc, below, tokens)?;
        found.push(next)?;
        tokens = rest;
    }
    Ok((found, tokens))
}

/// `variable_of = selectors .`
/// The selection of a variable of this name, of subscripts one level down.
#[cycle(expr)]
#[tactic(auto, unfolding(crate::specs::ExpressionReading::variable_of))]
pub fn variable_of<'a>(
    alloc: Global,
    below: usize,
    name: Identifier,
    tokens: &'a [Token],
) -> Result<(Variable, &'a [Token]), ReadError>
    requires { below < MAX_DEPTH }
    ensures { Reads variable_view result (reading.variable_of (reading.expr_at below) name tokens.now) }
{
    let (found, rest) = selectors(alloc, below, tokens)?;
    Ok((Variable::new(name, found), rest))
}

/// `next_argument = ",", expr .`
#[cycle(expr)]
#[tactic(auto, unfolding(crate::specs::Parsers::after_comma))]
fn after_comma(alloc: Global, below: usize, tokens: &[Token]) -> Found<'_>
    requires { below < MAX_DEPTH }
    ensures { Reads expr_view result (parsers.after_comma (reading.expr_at below 1) tokens.now) }
{
    let (_, rest) = mark(Mark::Comma, tokens)?;
    expr(alloc, below, 1, rest)
}

/// `more_arguments = { next_argument } .`
#[cycle(expr)]
fn more_arguments<'a>(
    alloc: Global,
    below: usize,
    mut found: Vec<Expr>,
    mut tokens: &'a [Token],
) -> Result<(Vec<Expr>, &'a [Token]), ReadError>
    requires { below < MAX_DEPTH }
    ensures { Reads (each expr_view) result (several (is_mark marks.Comma)
        (parsers.after_comma (reading.expr_at below 1)) (map expr_view found.items) tokens.entry.now) }
{
    for _turn in 0..tokens.len() {
        if !begins(Mark::Comma, tokens) {
            return Ok((found, tokens));
        }
        let (next, rest) = after_comma(alloc, below, tokens)?;
        found.push(next)?;
        tokens = rest;
    }
    Ok((found, tokens))
}

/// `arguments = [ expr, more_arguments ] .`
#[cycle(expr)]
#[tactic(auto, unfolding(crate::specs::ExpressionReading::arguments_at, crate::specs::Parsers::listed))]
fn arguments(
    alloc: Global,
    below: usize,
    tokens: &[Token],
) -> Result<(Vec<Expr>, &[Token]), ReadError>
    requires { below < MAX_DEPTH }
    ensures { Reads (each expr_view) result (reading.arguments_at (reading.expr_at below) tokens.now) }
{
    let mut found = Vec::new(alloc);
    if begins(Mark::Close, tokens) {
        return Ok((found, tokens));
    }
    let (first, rest) = expr(alloc, below, 1, tokens)?;
    found.push(first)?;
    more_arguments(alloc, below, found, rest)
}

/// `call_of = "(", arguments, ")" .`
#[cycle(expr)]
#[tactic(auto, unfolding(crate::specs::ExpressionReading::call_of))]
fn call_of<'a>(alloc: Global, below: usize, function: Identifier, tokens: &'a [Token]) -> Found<'a>
    requires { below < MAX_DEPTH }
    ensures { Reads expr_view result (reading.call_of (reading.expr_at below) function tokens.now) }
{
    let (_, rest) = mark(Mark::Open, tokens)?;
    let (found, rest) = arguments(alloc, below, rest)?;
    let (_, rest) = mark(Mark::Close, rest)?;
    Ok((Expr::call(function, found), rest))
}

/// `named = name, ( call_of | variable_of ) .`
#[cycle(expr)]
#[tactic(auto, unfolding(crate::specs::ExpressionReading::named_at, crate::specs::ExpressionReading::read_of))]
fn named(alloc: Global, below: usize, tokens: &[Token]) -> Found<'_>
    requires { below < MAX_DEPTH }
    ensures { Reads expr_view result (reading.named_at (reading.expr_at below) tokens.now) }
{
    let (found, rest) = name(alloc, tokens)?;
    if begins(Mark::Open, rest) {
        return call_of(alloc, below, found, rest);
    }
    let (variable, rest) = variable_of(alloc, below, found, rest)?;
    Ok((Expr::variable(variable), rest))
}

/// `operand = literal | named | parenthesis .`
#[cycle(expr)]
#[tactic(auto, unfolding(crate::specs::ExpressionReading::operand_at, crate::specs::ExpressionReading::literal_at))]
fn operand(alloc: Global, below: usize, tokens: &[Token]) -> Found<'_>
    requires { below < MAX_DEPTH }
    ensures { Reads expr_view result (reading.operand_at (reading.expr_at below) tokens.now) }
{
    let [t, ..] = tokens else {
        return Err(refused(tokens));
    };
    match &t.kind {
        TokenKind::Number(_)
        | TokenKind::Truth(_)
        | TokenKind::Duration(_)
        | TokenKind::Enumerated(_, _) => {
            let (found, rest) = literal(alloc, tokens)?;
            Ok((Expr::literal(found), rest))
        }
        TokenKind::Name(_) => named(alloc, below, tokens),
        TokenKind::Mark(Mark::Open) => parenthesis(alloc, below, tokens),
        _ => Err(refused(tokens)),
    }
}

/// `minus = "-", ( whole | expr(9) ) .`
#[cycle(expr)]
#[tactic(auto, unfolding(crate::specs::ExpressionReading::minus_at, crate::specs::ExpressionReading::negative_of, crate::specs::ExpressionReading::negated_of))]
fn minus(alloc: Global, below: usize, tokens: &[Token]) -> Found<'_>
    requires { below < MAX_DEPTH }
    ensures { Reads expr_view result (reading.minus_at (reading.expr_at below) tokens.now) }
{
    let (place, rest) = mark(Mark::Minus, tokens)?;
    if begins_number(rest) {
        let (number, rest) = whole(rest)?;
        return Ok((
            Expr::literal(Literal::Number(negative_at(place, number))),
            rest,
        ));
    }
    let (inner, rest) = expr(alloc, below, OPERAND, rest)?;
    Ok((
        Expr::unary(alloc, UnaryOperator::Negate, place, inner)?,
        rest,
    ))
}

/// `inverted = "NOT", expr(9) .`
#[cycle(expr)]
#[tactic(auto, unfolding(crate::specs::ExpressionReading::not_at))]
fn inverted(alloc: Global, below: usize, tokens: &[Token]) -> Found<'_>
    requires { below < MAX_DEPTH }
    ensures { Reads expr_view result (reading.not_at (reading.expr_at below) tokens.now) }
{
    let (place, rest) = keyword(Keyword::Not, tokens)?;
    let (operand, rest) = expr(alloc, below, OPERAND, rest)?;
    Ok((
        Expr::unary(alloc, UnaryOperator::Not, place, operand)?,
        rest,
    ))
}

/// `unary = minus | inverted | operand .`
#[cycle(expr)]
#[tactic(auto, unfolding(crate::specs::ExpressionReading::unary_at))]
fn unary(alloc: Global, below: usize, tokens: &[Token]) -> Found<'_>
    requires { below < MAX_DEPTH }
    ensures { Reads expr_view result (reading.unary_at (reading.expr_at below) tokens.now) }
{
    if begins(Mark::Minus, tokens) {
        return minus(alloc, below, tokens);
    }
    if leads(Keyword::Not, tokens) {
        return inverted(alloc, below, tokens);
    }
    operand(alloc, below, tokens)
}

/// `operation(k) = operator(k), expr(k + 1) .`
#[cycle(expr)]
#[tactic(auto, unfolding(crate::specs::ExpressionReading::operation_of))]
fn operation<'a>(alloc: Global, below: usize, left: Expr, tokens: &'a [Token]) -> Found<'a>
    requires { below < MAX_DEPTH }
    ensures { Reads expr_view result (reading.operation_of (reading.expr_at below) (expr_view left) tokens.now) }
{
    let (op, rest) = operator(tokens)?;
    let (right, rest) = expr(alloc, below, binds(op) + 1, rest)?;
    Ok((Expr::binary(alloc, op, left, right)?, rest))
}

/// `operations(k) = { operation(k) | .. | operation(7) } .`
#[cycle(expr)]
fn operations<'a>(
    alloc: Global,
    below: usize,
    least: usize,
    mut left: Expr,
    mut tokens: &'a [Token],
) -> Found<'a>
    requires { below < MAX_DEPTH }
    ensures { Reads expr_view result
        (reading.operations_of (reading.expr_at below) below least (expr_view left) tokens.entry.now) }
{
    for _turn in 0..tokens.len() {
        if !goes_on(least, tokens) {
            return Ok((left, tokens));
        }
        if is_deeper(&left, below) {
            return Err(ReadError::Refused(Refusal::Deep));
        }
        let (next, rest) = operation(alloc, below, left, tokens)?;
        left = next;
        tokens = rest;
    }
    Ok((left, tokens))
}

/// `operators(k) = unary, operations(k) .`
#[cycle(expr)]
#[tactic(auto, unfolding(crate::specs::ExpressionReading::operators_at))]
fn operators(alloc: Global, below: usize, least: usize, tokens: &[Token]) -> Found<'_>
    requires { below < MAX_DEPTH }
    ensures { Reads expr_view result (reading.operators_at (reading.expr_at below) below least tokens.now) }
{
    let (first, rest) = unary(alloc, below, tokens)?;
    operations(alloc, below, least, first, rest)
}

/// `expr = expr(1) .`
/// `expr(k) = operators(k) .`
/// `expr(9) = operand .`
/// An expression of at most a depth, of operators that bind at least as strongly as this.
#[cycle(expr)]
#[tactic(auto, unfolding(crate::specs::ExpressionReading::expr_at))]
pub fn expr(alloc: Global, depth: usize, least: usize, tokens: &[Token]) -> Found<'_>
    requires { depth ≤ MAX_DEPTH }
    ensures { Reads expr_view result (reading.expr_at depth least tokens.now) }
{
    if depth == 0 {
        return Err(sunk(starts_expr(least, tokens), tokens));
    }
    if least > SIGN {
        return operand(alloc, depth - 1, tokens);
    }
    operators(alloc, depth - 1, least, tokens)
}

/// `variable = name, variable_of .`
/// A variable of at most a depth.
#[tactic(auto, unfolding(crate::specs::ExpressionReading::variable_at))]
pub fn variable(
    alloc: Global,
    depth: usize,
    tokens: &[Token],
) -> Result<(Variable, &[Token]), ReadError>
    requires { depth ≤ MAX_DEPTH }
    ensures { Reads variable_view result (reading.variable_at depth tokens.now) }
{
    if depth == 0 {
        return Err(sunk(begins_name(tokens), tokens));
    }
    let (found, rest) = name(alloc, tokens)?;
    variable_of(alloc, depth - 1, found, rest)
}
