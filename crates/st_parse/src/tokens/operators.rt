//! Operators between operands.

ghost use Rattle.std.specs.Prelude.{◌≡◌, ◌≤◌};
ghost use Rattle.st_parse.specs.Tokens.{next};
ghost use Rattle.st_parse.specs.Parsers.{Reads, as_is, one};
ghost use Rattle.st_parse.specs.Operators as specs;

use crate::fault::ReadError;
use crate::tokens::refused;
use st_lex::{Keyword, Mark, Token, TokenKind};
use st_types::BinaryOperator;

fn operator_in(kind: &TokenKind) -> Option<BinaryOperator>
    ensures { result ≡ specs.operator_in kind.now }
{
    match kind {
        TokenKind::Keyword(Keyword::Or) => Some(BinaryOperator::Or),
        TokenKind::Keyword(Keyword::Xor) => Some(BinaryOperator::Xor),
        TokenKind::Keyword(Keyword::And) => Some(BinaryOperator::And),
        TokenKind::Keyword(Keyword::Mod) => Some(BinaryOperator::Modulo),
        TokenKind::Mark(Mark::Equal) => Some(BinaryOperator::Equal),
        TokenKind::Mark(Mark::NotEqual) => Some(BinaryOperator::NotEqual),
        TokenKind::Mark(Mark::Less) => Some(BinaryOperator::Less),
        TokenKind::Mark(Mark::Greater) => Some(BinaryOperator::Greater),
        TokenKind::Mark(Mark::LessOrEqual) => Some(BinaryOperator::LessOrEqual),
        TokenKind::Mark(Mark::GreaterOrEqual) => Some(BinaryOperator::GreaterOrEqual),
        TokenKind::Mark(Mark::Plus) => Some(BinaryOperator::Add),
        TokenKind::Mark(Mark::Minus) => Some(BinaryOperator::Subtract),
        TokenKind::Mark(Mark::Star) => Some(BinaryOperator::Multiply),
        TokenKind::Mark(Mark::Slash) => Some(BinaryOperator::Divide),
        _ => None,
    }
}

/// How strongly an operator binds.
pub fn binds(operator: BinaryOperator) -> usize
    ensures { result ≡ specs.binds_of operator }
{
    match operator {
        BinaryOperator::Or => 1,
        BinaryOperator::Xor => 2,
        BinaryOperator::And => 3,
        BinaryOperator::Equal | BinaryOperator::NotEqual => 4,
        BinaryOperator::Less
        | BinaryOperator::Greater
        | BinaryOperator::LessOrEqual
        | BinaryOperator::GreaterOrEqual => 5,
        BinaryOperator::Add | BinaryOperator::Subtract => 6,
        BinaryOperator::Multiply | BinaryOperator::Divide | BinaryOperator::Modulo => 7,
    }
}

/// Whether an operator comes next that binds at least as strongly as this.
pub fn goes_on(least: usize, tokens: &[Token]) -> bool
    ensures { result ≡ next (specs.goes_on least) tokens.now }
{
    match tokens {
        [t, ..] => match operator_in(&t.kind) {
            Some(operator) => least <= binds(operator),
            None => false,
        },
        [] => false,
    }
}

/// `operator(1) = "OR" .`
/// `operator(2) = "XOR" .`
/// `operator(3) = "AND" .`
/// `operator(4) = "=" | "<>" .`
/// `operator(5) = "<" | ">" | "<=" | ">=" .`
/// `operator(6) = "+" | "-" .`
/// `operator(7) = "*" | "/" | "MOD" .`
/// An operator, and the tokens after it.
pub fn operator(tokens: &[Token]) -> Result<(BinaryOperator, &[Token]), ReadError>
    ensures { Reads as_is result (one specs.operator tokens.now) }
{
    let [t, rest @ ..] = tokens else {
        return Err(refused(tokens));
    };
    match operator_in(&t.kind) {
        Some(operator) => Ok((operator, rest)),
        None => Err(refused(tokens)),
    }
}
