//! A place among the tokens of a text.

use crate::part::{part, shown};
use st_lex::{Mark, Token, TokenKind};

/// A text with its tokens, split at a place.
#[derive(Clone, Copy)]
pub struct Spot<'a> {
    pub text: &'a [u8],
    /// The offset of the place.
    pub place: usize,
    /// The tokens that begin before the place.
    pub before: &'a [Token],
    /// The tokens from the place on.
    pub behind: &'a [Token],
}

impl<'a> Spot<'a> {
    pub fn new(text: &'a [u8], tokens: &'a [Token], place: usize) -> Spot<'a> {
        let count = tokens.iter().take_while(|t| t.start < place).count();
        let (before, behind) = tokens.split_at(count.min(tokens.len()));
        Spot {
            text,
            place,
            before,
            behind,
        }
    }

    /// The token at the place as the text spells it, a number with its sign; nothing if there is none.
    pub fn spelled(&self) -> &'a str {
        match self.behind {
            [
                Token {
                    kind: TokenKind::Mark(Mark::Minus),
                    start,
                    end: _,
                },
                Token {
                    kind: TokenKind::Number(_),
                    start: _,
                    end,
                },
                ..
            ] => shown(part(self.text, *start, *end)),
            [token, ..] => shown(part(self.text, token.start, token.end)),
            [] => "",
        }
    }

    /// The token before the place.
    pub fn last(&self) -> Option<&'a TokenKind> {
        match self.before {
            [.., token] => Some(&token.kind),
            [] => None,
        }
    }

    /// The token at the place.
    pub fn here(&self) -> Option<&'a TokenKind> {
        match self.behind {
            [token, ..] => Some(&token.kind),
            [] => None,
        }
    }

    /// The token after the one at the place.
    pub fn next(&self) -> Option<&'a TokenKind> {
        match self.behind {
            [_, token, ..] => Some(&token.kind),
            _ => None,
        }
    }

    /// Whether the token before the place is on an earlier line.
    pub fn begins_line(&self) -> bool {
        match self.before {
            [.., token] => part(self.text, token.end, self.place).contains(&b'\n'),
            [] => true,
        }
    }
}

/// Whether a token is this mark.
pub fn is_mark(kind: Option<&TokenKind>, mark: Mark) -> bool {
    match kind {
        Some(TokenKind::Mark(other)) => *other == mark,
        _ => false,
    }
}
