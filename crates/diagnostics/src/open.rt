//! The parts that are open at a place: they have begun and not ended.

use st_lex::{Keyword, Mark, Token, TokenKind};
use std::alloc::{AllocError, Global};

/// The word that ends the part that a word begins, as it is spelled.
pub fn end_of(keyword: Keyword) -> Option<&'static str> {
    match keyword {
        Keyword::If => Some("END_IF"),
        Keyword::Case => Some("END_CASE"),
        Keyword::For => Some("END_FOR"),
        Keyword::While => Some("END_WHILE"),
        Keyword::Repeat => Some("END_REPEAT"),
        Keyword::Type => Some("END_TYPE"),
        Keyword::Struct => Some("END_STRUCT"),
        Keyword::Function => Some("END_FUNCTION"),
        Keyword::FunctionBlock => Some("END_FUNCTION_BLOCK"),
        Keyword::Program => Some("END_PROGRAM"),
        Keyword::Configuration => Some("END_CONFIGURATION"),
        Keyword::Resource => Some("END_RESOURCE"),
        Keyword::Var
        | Keyword::VarInput
        | Keyword::VarOutput
        | Keyword::VarExternal
        | Keyword::VarGlobal => Some("END_VAR"),
        _ => None,
    }
}

/// Whether the word ends a part.
pub fn is_end(keyword: Keyword) -> bool {
    matches!(
        keyword,
        Keyword::EndIf
            | Keyword::EndCase
            | Keyword::EndFor
            | Keyword::EndWhile
            | Keyword::EndRepeat
            | Keyword::EndType
            | Keyword::EndStruct
            | Keyword::EndFunction
            | Keyword::EndFunctionBlock
            | Keyword::EndProgram
            | Keyword::EndConfiguration
            | Keyword::EndResource
            | Keyword::EndVar
    )
}

/// Takes a word into account. PROGRAM in a resource begins nothing that has an end.
fn meet(open: &mut Vec<Keyword>, keyword: Keyword) -> Result<(), AllocError> {
    if is_end(keyword) {
        open.pop();
        return Ok(());
    }
    if keyword == Keyword::Program && !open.is_empty() {
        return Ok(());
    }
    if end_of(keyword).is_some() {
        open.push(keyword)?;
    }
    Ok(())
}

/// The word that begins the innermost part that the tokens leave open.
pub fn innermost_begun(alloc: Global, tokens: &[Token]) -> Result<Option<Keyword>, AllocError> {
    let mut open = Vec::new(alloc);
    for token in tokens {
        if let TokenKind::Keyword(keyword) = &token.kind {
            meet(&mut open, *keyword)?;
        }
    }
    Ok(open.last().copied())
}

/// The word that ends the innermost part that the tokens leave open.
pub fn innermost_open(alloc: Global, tokens: &[Token]) -> Result<Option<&'static str>, AllocError> {
    match innermost_begun(alloc, tokens)? {
        Some(begun) => Ok(end_of(begun)),
        None => Ok(None),
    }
}

/// A search backwards from a place in a condition.
#[derive(Clone, Copy)]
struct Backwards {
    /// How many parentheses close whose opening hasn't come.
    closed: usize,
    has_to: bool,
}

/// The word that has to come after a word that begins a part.
fn closing_word(keyword: Keyword, has_to: bool) -> Option<&'static str> {
    match keyword {
        Keyword::If | Keyword::Elsif => Some("THEN"),
        Keyword::While => Some("DO"),
        Keyword::For => Some(if has_to { "DO" } else { "TO" }),
        Keyword::Case => Some("OF"),
        Keyword::Until => Some("END_REPEAT"),
        _ => None,
    }
}

/// Whether the search goes on before a token: it ends at a semicolon, and at a parenthesis that isn't closed.
fn goes_on(back: &mut Backwards, kind: &TokenKind) -> bool {
    match kind {
        TokenKind::Mark(Mark::Semicolon) => false,
        TokenKind::Mark(Mark::Close) => {
            back.closed = back.closed.saturating_add(1);
            true
        }
        TokenKind::Mark(Mark::Open) => {
            let is_closed = back.closed > 0;
            back.closed = back.closed.saturating_sub(1);
            is_closed
        }
        TokenKind::Keyword(Keyword::To) => {
            back.has_to = true;
            true
        }
        TokenKind::Keyword(keyword) => {
            matches!(
                keyword,
                Keyword::By
                    | Keyword::And
                    | Keyword::Or
                    | Keyword::Xor
                    | Keyword::Not
                    | Keyword::Mod
            )
        }
        _ => true,
    }
}

/// The THEN, DO, TO, OF or END_REPEAT that hasn't come yet after an IF, WHILE, FOR, CASE or UNTIL.
pub fn missing_word(tokens: &[Token]) -> Option<&'static str> {
    let mut back = Backwards {
        closed: 0,
        has_to: false,
    };
    for token in tokens.iter().rev() {
        if let TokenKind::Keyword(keyword) = &token.kind {
            if let Some(word) = closing_word(*keyword, back.has_to) {
                return Some(word);
            }
        }
        if !goes_on(&mut back, &token.kind) {
            return None;
        }
    }
    None
}
