//! Single tokens: marks, keywords, names and literals.

ghost use Rattle.std.specs.Prelude.{◌≡◌};
ghost use Rattle.st_parse.specs.Tokens as specs;
ghost use Rattle.st_parse.specs.Parsers.{Reads, as_is, one};

use crate::fault::ReadError;
use crate::tokens::{is_keyword, is_mark, refused};
use st_lex::{Keyword, Mark, Token, TokenKind, WholeNumber};
use st_types::{EnumeratedValue, Identifier, Literal, Number};
use std::alloc::Global;

/// `mark(m) = m .`
/// A mark, at its place, and the tokens after it.
pub fn mark(mark: Mark, tokens: &[Token]) -> Result<(usize, &[Token]), ReadError>
    ensures { Reads as_is result (one (specs.mark mark) tokens.now) }
{
    match tokens {
        [t, rest @ ..] if is_mark(mark, &t.kind) => Ok((t.start, rest)),
        _ => Err(refused(tokens)),
    }
}

/// `keyword(w) = w .`
/// A keyword, at its place, and the tokens after it.
pub fn keyword(keyword: Keyword, tokens: &[Token]) -> Result<(usize, &[Token]), ReadError>
    ensures { Reads as_is result (one (specs.keyword keyword) tokens.now) }
{
    match tokens {
        [t, rest @ ..] if is_keyword(keyword, &t.kind) => Ok((t.start, rest)),
        _ => Err(refused(tokens)),
    }
}

/// `name = Name .`
/// A name, and the tokens after it.
pub fn name(alloc: Global, tokens: &[Token]) -> Result<(Identifier, &[Token]), ReadError>
    ensures { Reads as_is result (one specs.name tokens.now) }
{
    let [t, rest @ ..] = tokens else {
        return Err(refused(tokens));
    };
    match &t.kind {
        TokenKind::Name(found) => Ok((
            Identifier {
                name: found.copied(alloc)?,
                place: t.start,
            },
            rest,
        )),
        _ => Err(refused(tokens)),
    }
}

fn unsigned(place: usize, number: WholeNumber) -> Number
    ensures { result ≡ specs.unsigned place number }
{
    Number {
        place,
        is_negative: false,
        magnitude: number.magnitude,
        written: number.written,
        is_decimal: number.is_decimal,
        taken: None,
    }
}

/// The same with a `-` at a place directly before it.
pub fn negative_at(place: usize, number: Number) -> Number
    ensures { result ≡ specs.negative_at place number }
{
    Number {
        place,
        is_negative: true,
        magnitude: number.magnitude,
        written: number.written,
        is_decimal: number.is_decimal,
        taken: None,
    }
}

/// `whole = Number .`
/// A whole number or bit string without a sign, and the tokens after it.
pub fn whole(tokens: &[Token]) -> Result<(Number, &[Token]), ReadError>
    ensures { Reads as_is result (one specs.whole tokens.now) }
{
    let [t, rest @ ..] = tokens else {
        return Err(refused(tokens));
    };
    match &t.kind {
        TokenKind::Number(found) => Ok((unsigned(t.start, *found), rest)),
        _ => Err(refused(tokens)),
    }
}

/// `value = Name | Enumerated .`
/// A value of an enumerated type, with its type or alone, and the tokens after it.
pub fn value(alloc: Global, tokens: &[Token]) -> Result<(EnumeratedValue, &[Token]), ReadError>
    ensures { Reads as_is result (one specs.value tokens.now) }
{
    let [t, rest @ ..] = tokens else {
        return Err(refused(tokens));
    };
    match &t.kind {
        TokenKind::Name(name) => {
            let value = EnumeratedValue {
                place: t.start,
                type_name: None,
                name: name.copied(alloc)?,
            };
            Ok((value, rest))
        }
        TokenKind::Enumerated(type_name, name) => {
            let value = EnumeratedValue {
                place: t.start,
                type_name: Some(type_name.copied(alloc)?),
                name: name.copied(alloc)?,
            };
            Ok((value, rest))
        }
        _ => Err(refused(tokens)),
    }
}

/// `literal = Number | Truth | Duration | Enumerated .`
/// A literal without a sign, and the tokens after it.
pub fn literal(alloc: Global, tokens: &[Token]) -> Result<(Literal, &[Token]), ReadError>
    ensures { Reads as_is result (one specs.literal tokens.now) }
{
    let [t, rest @ ..] = tokens else {
        return Err(refused(tokens));
    };
    match &t.kind {
        TokenKind::Number(found) => Ok((Literal::Number(unsigned(t.start, *found)), rest)),
        TokenKind::Truth(truth) => Ok((Literal::Truth(t.start, *truth), rest)),
        TokenKind::Duration(duration) => Ok((Literal::Duration(t.start, *duration), rest)),
        TokenKind::Enumerated(_, _) => {
            let (found, rest) = value(alloc, tokens)?;
            Ok((Literal::Enumerated(found), rest))
        }
        _ => Err(refused(tokens)),
    }
}

/// `constant = literal | Name .`
/// A literal without a sign or the name of a value of an enumerated type, and the tokens after it.
pub fn constant(alloc: Global, tokens: &[Token]) -> Result<(Literal, &[Token]), ReadError>
    ensures { Reads as_is result (one specs.constant tokens.now) }
{
    let [t, ..] = tokens else {
        return Err(refused(tokens));
    };
    match &t.kind {
        TokenKind::Name(_) => {
            let (found, rest) = value(alloc, tokens)?;
            Ok((Literal::Enumerated(found), rest))
        }
        _ => literal(alloc, tokens),
    }
}
