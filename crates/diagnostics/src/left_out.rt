//! Hints on what the profile leaves out, by the tokens at a place and before it.

use crate::foreign_words::NO_REAL;
use crate::open::is_end;
use crate::spot::{Spot, is_mark};
use st_lex::{Keyword, Mark, Token, TokenKind};

pub const NO_BIT: &str = "a bit has no name: read it with a mask, as in `(w AND 16#8) <> 0`";

const LOCATED: &str = "a global has an address, as in `flow AT %IW0 : INT`; use its name elsewhere";

const NAMED_TYPE: &str = "declare this type in TYPE, and write its name here";

const SURPLUS: &str = "leave the `;` out";

/// The token before the innermost parenthesis that the tokens leave open.
fn before_parenthesis(tokens: &[Token]) -> Option<&TokenKind> {
    let mut closed: usize = 0;
    let mut is_open = false;
    for token in tokens.iter().rev() {
        if is_open {
            return Some(&token.kind);
        }
        match &token.kind {
            TokenKind::Mark(Mark::Semicolon) => return None,
            TokenKind::Mark(Mark::Close) => closed = closed.saturating_add(1),
            TokenKind::Mark(Mark::Open) => {
                is_open = closed == 0;
                closed = closed.saturating_sub(1);
            }
            _ => {}
        }
    }
    None
}

/// Whether a name comes before the place, and a comma or a parenthesis that opens before it.
fn follows_listed_name(spot: &Spot) -> bool {
    match spot.before {
        [.., mark, name] => {
            let begins = is_mark(Some(&mark.kind), Mark::Open)
                || is_mark(Some(&mark.kind), Mark::Comma);
            begins && matches!(&name.kind, TokenKind::Name(_))
        }
        _ => false,
    }
}

/// A hint on a mark after a name in parentheses.
fn help_in_parentheses(spot: &Spot, mark: Mark) -> Option<&'static str> {
    match (before_parenthesis(spot.before)?, mark) {
        (TokenKind::Name(_), Mark::Assign | Mark::Arrow) => {
            Some("a function takes its arguments without names; a block is called in a statement")
        }
        (TokenKind::Name(_), Mark::Comma | Mark::Close) => {
            Some("an input of a block has a name, as in `IN := b`")
        }
        (TokenKind::Mark(Mark::Colon), Mark::Assign) => {
            Some("the values of an enumerated type have no numbers")
        }
        (_, Mark::Assign) => Some("`=` compares, `:=` assigns"),
        _ => None,
    }
}

/// Whether a range comes before the place.
fn follows_range(spot: &Spot) -> bool {
    match spot.before {
        [.., mark, _] => is_mark(Some(&mark.kind), Mark::Range),
        _ => false,
    }
}

/// A hint on a mark that may not be there.
fn help_of_mark(spot: &Spot, mark: Mark) -> Option<&'static str> {
    match (spot.last(), mark) {
        (Some(TokenKind::Number(_)), Mark::Dot) => Some(NO_REAL),
        (Some(TokenKind::Address(_)), Mark::Dot) => Some("an address has one number, as in `%IX3`"),
        (Some(TokenKind::Mark(Mark::Semicolon)), Mark::Semicolon) => Some(SURPLUS),
        (Some(TokenKind::Keyword(last)), Mark::Semicolon) if is_end(*last) => Some(SURPLUS),
        (Some(TokenKind::Mark(Mark::Colon)), Mark::Open) => Some(NAMED_TYPE),
        (Some(TokenKind::Elementary(_)), Mark::Open) => {
            Some("there are no subranges: bound a value with LIMIT")
        }
        (_, Mark::Comma) if follows_range(spot) => {
            Some("an array has one dimension: declare an array of rows")
        }
        _ if follows_listed_name(spot) => help_in_parentheses(spot, mark),
        (_, Mark::Arrow) => Some("`>=` compares, `=>` copies an output of a block"),
        _ => None,
    }
}

/// A hint on what the profile leaves out, by the token at the place.
pub fn help_of_left_out(spot: &Spot) -> Option<&'static str> {
    match (spot.last(), spot.here()) {
        (Some(TokenKind::Keyword(Keyword::At)), _) => Some(LOCATED),
        (_, Some(TokenKind::Mark(mark))) => help_of_mark(spot, *mark),
        (Some(TokenKind::Mark(Mark::Dot)), Some(TokenKind::Number(_))) => Some(NO_BIT),
        (_, Some(TokenKind::Address(_) | TokenKind::Keyword(Keyword::At))) => Some(LOCATED),
        (Some(TokenKind::Keyword(Keyword::Of)), Some(TokenKind::Keyword(Keyword::Array)))
        | (Some(TokenKind::Mark(Mark::Colon)), Some(TokenKind::Keyword(Keyword::Struct))) => {
            Some(NAMED_TYPE)
        }
        (Some(TokenKind::Mark(Mark::Colon)), Some(TokenKind::Elementary(_))) => {
            Some("a TYPE is an array, a structure or an enumerated type")
        }
        _ => None,
    }
}
