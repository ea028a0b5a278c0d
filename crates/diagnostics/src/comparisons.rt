//! Comparisons that give a BOOL where one is expected.

use crate::site::Site;
use crate::spot::Spot;
use crate::spots::name_at;
use st_lex::{Keyword, Mark, TokenKind};
use st_types::{Kind, Sort};
use std::alloc::AllocError;

/// The zero of a type.
fn zero_of(kind: Kind) -> Option<&'static str> {
    match kind.row().sort {
        Sort::Signed | Sort::Unsigned | Sort::Bits => Some("0"),
        Sort::Duration => Some("T#0s"),
        Sort::Truth | Sort::Place => None,
    }
}

/// Whether an expression may end before the token.
fn ends_expression(kind: &TokenKind) -> bool {
    match kind {
        TokenKind::Keyword(keyword) => {
            matches!(keyword, Keyword::Then | Keyword::Do | Keyword::EndRepeat)
        }
        TokenKind::Mark(mark) => matches!(mark, Mark::Semicolon | Mark::Comma | Mark::Close),
        _ => false,
    }
}

/// Whether the expression at the place is a name alone.
fn is_name_alone(spot: &Spot) -> bool {
    match spot.next() {
        Some(next) => name_at(spot).is_some() && ends_expression(next),
        None => false,
    }
}

/// A hint to compare the expression at the place, which has this type, with zero.
pub fn with_zero(site: &Site, kind: Kind) -> Result<Option<String>, AllocError> {
    let alloc = site.text.alloc;
    let Some(zero) = zero_of(kind) else {
        return Ok(None);
    };
    if is_name_alone(&site.spot) {
        let name = site.spot.spelled();
        return Ok(Some(format!(in alloc; "compare it: `{name} <> {zero}`")?));
    }
    Ok(Some(format!(in alloc; "compare it with `<> {zero}`")?))
}
