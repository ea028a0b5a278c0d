//! Findings on texts that are not of the grammar (P1, P2).

use crate::finding::Finding;
use crate::foreign_marks::foreign_mark;
use crate::foreign_words::{foreign_keyword, foreign_statement};
use crate::left_out::help_of_left_out;
use crate::open::{innermost_open, missing_word};
use crate::operator_calls::operator_call;
use crate::rooms::{help_of_head, help_of_room};
use crate::spot::{Spot, is_mark};
use st_lex::{Keyword, Mark, TokenKind};
use st_types::limits::MAX_DEPTH;
use std::alloc::{AllocError, Global};

/// Whether an expression, a declaration or a statement may end with the token, so that a semicolon may come after it.
fn may_end(kind: &TokenKind) -> bool {
    match kind {
        TokenKind::Keyword(keyword) => matches!(
            keyword,
            Keyword::Exit
                | Keyword::Return
                | Keyword::EndIf
                | Keyword::EndCase
                | Keyword::EndFor
                | Keyword::EndWhile
                | Keyword::EndRepeat
                | Keyword::EndStruct
        ),
        TokenKind::Mark(mark) => matches!(mark, Mark::Close | Mark::CloseBracket),
        _ => true,
    }
}

/// Whether a statement or an END begins with the word.
fn begins_anew(keyword: Keyword) -> bool {
    matches!(
        keyword,
        Keyword::If
            | Keyword::Elsif
            | Keyword::Else
            | Keyword::EndIf
            | Keyword::Case
            | Keyword::EndCase
            | Keyword::For
            | Keyword::EndFor
            | Keyword::While
            | Keyword::EndWhile
            | Keyword::Repeat
            | Keyword::Until
            | Keyword::EndRepeat
            | Keyword::Exit
            | Keyword::Return
            | Keyword::EndType
            | Keyword::EndStruct
            | Keyword::EndFunction
            | Keyword::EndFunctionBlock
            | Keyword::EndProgram
            | Keyword::EndVar
            | Keyword::EndConfiguration
            | Keyword::EndResource
            | Keyword::Task
            | Keyword::Program
    )
}

/// Whether a semicolon may be missing before the place.
fn lacks_semicolon(spot: &Spot) -> bool {
    let Some(last) = spot.last() else {
        return false;
    };
    match spot.here() {
        Some(TokenKind::Keyword(keyword)) => may_end(last) && begins_anew(*keyword),
        Some(TokenKind::Name(_)) => may_end(last) && spot.begins_line(),
        _ => false,
    }
}

/// Whether something new may begin at the place: the part before it may end there.
fn may_begin_anew(spot: &Spot) -> bool {
    let Some(last) = spot.last() else {
        return false;
    };
    match spot.here() {
        Some(TokenKind::Keyword(keyword)) => may_end(last) && begins_anew(*keyword),
        Some(TokenKind::Mark(_)) => false,
        Some(_) => may_end(last),
        None => false,
    }
}

/// Whether a word is in the place of a name: a mark of a declaration or an assignment comes after it.
fn is_in_place_of_name(spot: &Spot) -> bool {
    is_mark(spot.next(), Mark::Colon)
        || is_mark(spot.next(), Mark::Assign)
        || is_mark(spot.next(), Mark::Comma)
}

/// Whether an operand is before the place.
fn follows_operand(spot: &Spot) -> bool {
    match spot.last() {
        Some(TokenKind::Keyword(_)) => false,
        Some(kind) => may_end(kind),
        None => false,
    }
}

/// A hint, as far as single tokens allow.
fn help_of_token(spot: &Spot) -> Option<&'static str> {
    match spot.here() {
        Some(TokenKind::Keyword(_)) if is_in_place_of_name(spot) => {
            Some("this word is reserved: it can't be a name")
        }
        Some(TokenKind::Keyword(keyword)) => foreign_keyword(*keyword),
        Some(TokenKind::Elementary(_)) if is_in_place_of_name(spot) => {
            Some("this word is reserved: it can't be a name")
        }
        Some(TokenKind::Mark(Mark::Equal)) if follows_operand(spot) => {
            Some("`:=` assigns, `=` compares")
        }
        Some(TokenKind::Mark(Mark::Assign)) if missing_word(spot.before).is_some() => {
            Some("`=` compares, `:=` assigns")
        }
        _ => None,
    }
}

/// A hint if a word is missing before the place: THEN, DO, OF or END_REPEAT, a semicolon, or the END of an open part.
fn help_of_missing(alloc: Global, spot: &Spot) -> Result<Option<String>, AllocError> {
    match missing_word(spot.before) {
        Some(word) if is_mark(spot.here(), Mark::Semicolon) => {
            return Ok(Some(format!(in alloc; "write `{word}` here, without `;`")?));
        }
        Some(word) if may_begin_anew(spot) => {
            return Ok(Some(format!(in alloc; "`{word}` may be missing before it")?));
        }
        _ => {}
    }
    if lacks_semicolon(spot) {
        return Ok(Some(String::from_str(alloc, "a `;` may be missing before it")?));
    }
    match spot.here() {
        Some(TokenKind::Keyword(keyword)) => help_of_open(alloc, spot, *keyword),
        _ => Ok(None),
    }
}

/// A hint at a word that ends or begins something else than the open part.
fn help_of_open(
    alloc: Global,
    spot: &Spot,
    keyword: Keyword,
) -> Result<Option<String>, AllocError> {
    if !is_mark(spot.last(), Mark::Semicolon) || !begins_anew(keyword) {
        return Ok(None);
    }
    match innermost_open(alloc, spot.before)? {
        Some(end) => Ok(Some(format!(in alloc; "`{end}` may be missing before it")?)),
        None => Ok(None),
    }
}

/// What to write for the mark at the place, if the profile doesn't have it.
fn foreign_mark_at(spot: &Spot) -> Option<&'static str> {
    match spot.here() {
        Some(TokenKind::Mark(_) | TokenKind::Keyword(Keyword::And)) => {
            foreign_mark(spot.text, spot.place)
        }
        _ => None,
    }
}

/// What to write for the word before the place, if the profile doesn't have it.
fn foreign_word_before(spot: &Spot) -> Option<&'static str> {
    match (spot.last(), spot.here()) {
        (
            Some(TokenKind::Name(name)),
            Some(TokenKind::Name(_) | TokenKind::Keyword(_) | TokenKind::Mark(Mark::Semicolon)),
        ) => foreign_statement(name.as_slice()),
        _ => None,
    }
}

/// A hint of one of these kinds, the first that there is.
fn help_of_place(spot: &Spot) -> Option<&'static str> {
    let helps = [
        foreign_mark_at(spot),
        foreign_word_before(spot),
        help_of_head(spot),
        help_of_token(spot),
        help_of_left_out(spot),
    ];
    helps.iter().find_map(|help| *help)
}

/// A hint on the token at the place.
fn help_of(alloc: Global, spot: &Spot) -> Result<Option<String>, AllocError> {
    if let Some(help) = help_of_place(spot) {
        return Ok(Some(String::from_str(alloc, help)?));
    }
    if let Some(help) = operator_call(alloc, spot)? {
        return Ok(Some(help));
    }
    match help_of_room(alloc, spot)? {
        Some(help) => Ok(Some(help)),
        None => help_of_missing(alloc, spot),
    }
}

fn token_reason(alloc: Global, spot: &Spot) -> Result<Finding, AllocError> {
    let spelled = spot.spelled();
    let finding = Finding::new(format!(in alloc; "`{spelled}` isn't allowed here")?);
    match help_of(alloc, spot)? {
        Some(help) => Ok(finding.helped(help)),
        None => Ok(finding),
    }
}

fn end_reason(alloc: Global, spot: &Spot) -> Result<Finding, AllocError> {
    let finding = Finding::plain(alloc, "the source ends too early")?;
    match innermost_open(alloc, spot.before)? {
        Some(end) => {
            let help = format!(in alloc; "`{end}` is missing")?;
            Ok(finding.helped(help))
        }
        None => Ok(finding),
    }
}

/// The finding on a token with which no text goes on, or on the end of a text that goes on.
pub fn grammar_reason(alloc: Global, spot: &Spot) -> Result<Finding, AllocError> {
    match spot.behind {
        [] => end_reason(alloc, spot),
        _ => token_reason(alloc, spot),
    }
}

/// The finding on a part that is too deep.
pub fn depth_reason(alloc: Global) -> Result<Finding, AllocError> {
    let sentence = format!(in alloc;
        "an expression, a statement or an initial value is over {MAX_DEPTH} deep"
    )?;
    Finding::new(sentence).with_help(alloc, "move a part of it into a variable or a function")
}
