//! The spelling of the text at a place and around it.

use crate::part::{part as part_of, shown};
use crate::spot::{Spot, is_mark};
use st_lex::{Keyword, Mark, TokenKind};
use st_types::Name;

/// The name at the place.
pub fn name_at<'a>(spot: &Spot<'a>) -> Option<&'a Name> {
    match spot.here() {
        Some(TokenKind::Name(name)) => Some(name),
        _ => None,
    }
}

/// Whether a number without a type is at the place, perhaps after a sign.
pub fn is_number_alone(spot: &Spot) -> bool {
    let number = if is_mark(spot.here(), Mark::Minus) {
        spot.next()
    } else {
        spot.here()
    };
    match number {
        Some(TokenKind::Number(number)) => number.written.is_none(),
        _ => false,
    }
}

/// The text from an offset up to the place, without the token before the place.
pub fn spelled_from<'a>(spot: &Spot<'a>, start: usize) -> &'a str {
    match spot.before {
        [.., last, _] => shown(part_of(spot.text, start, last.end)),
        _ => "",
    }
}

/// Whether the place is among declarations, and not in a body.
pub fn is_declaring(spot: &Spot) -> bool {
    for token in spot.before.iter().rev() {
        match &token.kind {
            TokenKind::Keyword(
                Keyword::Var
                | Keyword::VarInput
                | Keyword::VarOutput
                | Keyword::VarExternal
                | Keyword::VarGlobal
                | Keyword::Type,
            ) => return true,
            TokenKind::Keyword(Keyword::EndVar | Keyword::EndType) => return false,
            _ => {}
        }
    }
    false
}

/// Whether the place is in a unit.
pub fn is_in_unit(spot: &Spot) -> bool {
    for token in spot.before.iter().rev() {
        match &token.kind {
            TokenKind::Keyword(Keyword::Function | Keyword::FunctionBlock | Keyword::Program) => {
                return true;
            }
            TokenKind::Keyword(
                Keyword::EndFunction
                | Keyword::EndFunctionBlock
                | Keyword::EndProgram
                | Keyword::VarGlobal
                | Keyword::Type,
            ) => return false,
            _ => {}
        }
    }
    false
}

/// Whether a statement begins at the place, which is in a body. The body of a unit without variables begins after the name
/// of the unit, or after the type of its result.
pub fn begins_statement(spot: &Spot) -> bool {
    match spot.last() {
        Some(TokenKind::Mark(mark)) => matches!(mark, Mark::Semicolon | Mark::Colon),
        Some(TokenKind::Keyword(keyword)) => matches!(
            keyword,
            Keyword::Then | Keyword::Do | Keyword::Else | Keyword::Repeat | Keyword::EndVar
        ),
        Some(TokenKind::Name(_) | TokenKind::Elementary(_)) => true,
        _ => false,
    }
}

/// Whether the name at the place, which is in a body, is a label of a CASE. A comma in a body is between labels, or else in
/// parentheses or brackets.
pub fn is_label(spot: &Spot) -> bool {
    if !is_mark(spot.next(), Mark::Colon) && !is_mark(spot.next(), Mark::Comma) {
        return false;
    }
    for token in spot.before.iter().rev() {
        match &token.kind {
            TokenKind::Mark(Mark::Open | Mark::OpenBracket) => return false,
            TokenKind::Mark(Mark::Semicolon) | TokenKind::Keyword(Keyword::Of) => return true,
            _ => {}
        }
    }
    false
}
