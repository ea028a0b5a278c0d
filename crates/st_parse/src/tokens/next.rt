//! The kind of the next token.

ghost use Rattle.std.specs.Prelude.{◌≡◌, length, if◌then◌else◌};
ghost use Rattle.st_parse.specs.Tokens as specs;
ghost use Rattle.st_parse.specs.declared.fault.ReadError.TheVariants.{Refused};
ghost use Rattle.st_parse.specs.declared.fault.Refusal.TheVariants.{Unexpected, Deep};

use crate::fault::{ReadError, Refusal};
use st_lex::{Keyword, Mark, Token, TokenKind};

#[tactic(auto, unfolding(crate::specs::Tokens::same_mark))]
fn same_mark(a: Mark, b: Mark) -> bool
    ensures { result ≡ specs.same_mark a b }
{
    a == b
}

#[tactic(auto, unfolding(crate::specs::Tokens::same_keyword))]
fn same_keyword(a: Keyword, b: Keyword) -> bool
    ensures { result ≡ specs.same_keyword a b }
{
    a == b
}

pub fn is_mark(mark: Mark, kind: &TokenKind) -> bool
    ensures { result ≡ specs.is_mark mark kind.now }
{
    match kind {
        TokenKind::Mark(found) => same_mark(*found, mark),
        _ => false,
    }
}

pub fn is_keyword(keyword: Keyword, kind: &TokenKind) -> bool
    ensures { result ≡ specs.is_keyword keyword kind.now }
{
    match kind {
        TokenKind::Keyword(found) => same_keyword(*found, keyword),
        _ => false,
    }
}

/// Whether a mark comes next.
pub fn begins(mark: Mark, tokens: &[Token]) -> bool
    ensures { result ≡ specs.next (specs.is_mark mark) tokens.now }
{
    match tokens {
        [t, ..] => is_mark(mark, &t.kind),
        [] => false,
    }
}

/// Whether a keyword comes next.
pub fn leads(keyword: Keyword, tokens: &[Token]) -> bool
    ensures { result ≡ specs.next (specs.is_keyword keyword) tokens.now }
{
    match tokens {
        [t, ..] => is_keyword(keyword, &t.kind),
        [] => false,
    }
}

/// Whether a whole number comes next.
pub fn begins_number(tokens: &[Token]) -> bool
    ensures { result ≡ specs.next specs.is_number tokens.now }
{
    match tokens {
        [t, ..] => matches!(&t.kind, TokenKind::Number(_)),
        [] => false,
    }
}

/// Whether a name comes next.
pub fn begins_name(tokens: &[Token]) -> bool
    ensures { result ≡ specs.next specs.is_name tokens.now }
{
    match tokens {
        [t, ..] => matches!(&t.kind, TokenKind::Name(_)),
        [] => false,
    }
}

/// Whether a token may be a value of an enumerated type.
pub fn is_value(kind: &TokenKind) -> bool
    ensures { result ≡ specs.is_value kind.now }
{
    matches!(kind, TokenKind::Name(_) | TokenKind::Enumerated(_, _))
}

/// Whether a token that may be a value of an enumerated type comes next.
pub fn begins_value(tokens: &[Token]) -> bool
    ensures { result ≡ specs.next specs.is_value tokens.now }
{
    match tokens {
        [t, ..] => is_value(&t.kind),
        [] => false,
    }
}

/// The next token is unexpected.
pub fn refused(tokens: &[Token]) -> ReadError
    ensures { result ≡ Refused (Unexpected (length tokens.now)) }
{
    ReadError::Refused(Refusal::Unexpected(tokens.len()))
}

/// If no depth is left: too deep, if anything begins at all.
pub fn sunk(begins: bool, tokens: &[Token]) -> ReadError
    ensures { result ≡ Refused (if begins then Deep else Unexpected (length tokens.now)) }
{
    if begins {
        ReadError::Refused(Refusal::Deep)
    } else {
        refused(tokens)
    }
}
