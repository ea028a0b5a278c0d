//! The place of a refusal.

ghost use Rattle.std.specs.Prelude.{◌≡◌};
ghost use Rattle.st_parse.specs.Places as places;

use crate::fault::{ParseError, ReadError, Refusal};
use st_lex::Token;

fn end_of(mut tokens: &[Token]) -> usize
    ensures { result ≡ places.end_of 0 tokens.entry.now }
{
    let mut end = 0;
    while let [t, rest @ ..] = tokens {
        end = t.end;
        tokens = rest;
    }
    end
}

fn place_left(tokens: &[Token], left: usize) -> usize
    ensures { result ≡ places.place_left tokens.now left }
{
    let rest = &tokens[tokens.len().saturating_sub(left)..];
    match rest {
        [t, ..] => t.start,
        [] => end_of(tokens),
    }
}

/// Why a text of these tokens has no tree: a refusal as the text's reader sees it.
///
/// P1 has the place of the unexpected token's first byte, or of the end of the last token if the tokens end too early.
pub fn parse_error(tokens: &[Token], error: ReadError) -> ParseError
    ensures { result ≡ places.parse_error tokens.now error }
{
    match error {
        ReadError::Memory => ParseError::Memory,
        ReadError::Refused(Refusal::Deep) => ParseError::Deep,
        ReadError::Refused(Refusal::Unexpected(left)) => {
            ParseError::Unexpected(place_left(tokens, left))
        }
    }
}
