//! Hints on sections, tasks and programs that aren't in the part of a text to which they belong.

use crate::open::{end_of, innermost_begun};
use crate::spot::Spot;
use st_lex::{Keyword, Mark, Token, TokenKind};
use std::alloc::{AllocError, Global};

const SOURCE: &str = "a source has TYPE, FUNCTION, FUNCTION_BLOCK, PROGRAM and CONFIGURATION";

const RESOURCE: &str = "TASK and PROGRAM belong in a RESOURCE: `RESOURCE R ON CPU .. END_RESOURCE`";

const TASK: &str = "write a task as `TASK T (INTERVAL := T#10ms, PRIORITY := 0);`";

fn is_section(keyword: Keyword) -> bool {
    matches!(
        keyword,
        Keyword::Var
            | Keyword::VarInput
            | Keyword::VarOutput
            | Keyword::VarExternal
            | Keyword::VarGlobal
    )
}

/// Whether the part that the word begins has no sections, so that its end is missing before one.
fn has_to_end(begun: Keyword) -> bool {
    is_section(begun) || matches!(begun, Keyword::Type | Keyword::Struct)
}

/// A hint on a section of variables that may not begin in the part that a word has begun.
fn help_of_section(begun: Keyword, section: Keyword) -> &'static str {
    match (begun, section) {
        (Keyword::Program, Keyword::VarInput | Keyword::VarOutput) => {
            "a program's inputs and outputs are globals, which it names in VAR_EXTERNAL"
        }
        (Keyword::Function, Keyword::VarOutput | Keyword::VarExternal) => {
            "a function has VAR_INPUT and VAR alone, and gives its result under its name"
        }
        (Keyword::Configuration, Keyword::VarGlobal) => "VAR_GLOBAL comes before the RESOURCE",
        (Keyword::Configuration, _) => "a CONFIGURATION has VAR_GLOBAL alone",
        (Keyword::Resource, _) | (_, Keyword::VarGlobal) => {
            "declare globals in VAR_GLOBAL of the CONFIGURATION, before its RESOURCE"
        }
        _ => "variables come before the first statement, which may be a `;`",
    }
}

/// A hint on another word that may not come in the part that a word has begun.
fn help_of_word(spot: &Spot, begun: Keyword, keyword: Keyword) -> Option<&'static str> {
    match (begun, spot.last(), keyword) {
        (
            Keyword::Configuration,
            Some(TokenKind::Keyword(Keyword::EndResource)),
            Keyword::Program,
        ) => Some("`END_CONFIGURATION` may be missing before it"),
        (Keyword::Configuration, _, Keyword::Task | Keyword::Program | Keyword::EndConfiguration) =>
            Some(RESOURCE),
        (Keyword::Resource, Some(TokenKind::Mark(Mark::Semicolon)), Keyword::Task) => {
            Some("TASKs come before the PROGRAMs")
        }
        (Keyword::Resource, Some(TokenKind::Mark(Mark::Semicolon)), Keyword::EndResource) => {
            Some("a RESOURCE has a PROGRAM, as in `PROGRAM P WITH T : Main;`")
        }
        _ => None,
    }
}

/// A hint on a word in the part that another one has begun.
fn help_in_part(alloc: Global, spot: &Spot, begun: Keyword) -> Result<Option<String>, AllocError> {
    let Some(TokenKind::Keyword(keyword)) = spot.here() else {
        return Ok(None);
    };
    let help = match end_of(begun) {
        Some(end) if is_section(*keyword) && has_to_end(begun) => {
            return Ok(Some(format!(in alloc; "`{end}` may be missing before it")?));
        }
        _ if is_section(*keyword) => Some(help_of_section(begun, *keyword)),
        _ => help_of_word(spot, begun, *keyword),
    };
    match help {
        Some(help) => Ok(Some(String::from_str(alloc, help)?)),
        None => Ok(None),
    }
}

/// A hint on the token at the place, by the innermost part that is open there.
pub fn help_of_room(alloc: Global, spot: &Spot) -> Result<Option<String>, AllocError> {
    match innermost_begun(alloc, spot.before)? {
        Some(begun) => help_in_part(alloc, spot, begun),
        None => Ok(Some(String::from_str(alloc, SOURCE)?)),
    }
}

/// Whether the tokens end in the parentheses of a TASK.
fn is_in_task(tokens: &[Token]) -> bool {
    let mut is_open = false;
    for token in tokens.iter().rev() {
        match &token.kind {
            TokenKind::Keyword(Keyword::Task) => return is_open,
            TokenKind::Keyword(Keyword::Interval | Keyword::Priority | Keyword::Single) => {}
            TokenKind::Keyword(_) | TokenKind::Mark(Mark::Semicolon | Mark::Close) => return false,
            TokenKind::Mark(Mark::Open) => is_open = true,
            _ => {}
        }
    }
    false
}

/// Whether the tokens end with this word and a name.
fn ends_with_name_of(tokens: &[Token], keyword: Keyword) -> bool {
    match tokens {
        [.., word, name] => {
            let is_word = match &word.kind {
                TokenKind::Keyword(found) => *found == keyword,
                _ => false,
            };
            is_word && matches!(&name.kind, TokenKind::Name(_))
        }
        _ => false,
    }
}

/// A hint on the head of a task, a resource or a function.
pub fn help_of_head(spot: &Spot) -> Option<&'static str> {
    if is_in_task(spot.before) {
        Some(TASK)
    } else if ends_with_name_of(spot.before, Keyword::Resource) {
        Some("write ON and a name after it, as in `RESOURCE R ON CPU`")
    } else if ends_with_name_of(spot.before, Keyword::Function) {
        Some("write the type of its result, as in `FUNCTION F : INT`")
    } else {
        None
    }
}
