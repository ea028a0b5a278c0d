//! Findings on faults of words (L1 to L4).

use crate::finding::Finding;
use crate::left_out::NO_BIT;
use crate::numerals::{numeral, sign_after};
use crate::part::{part, shown, word_in_front};
use crate::wrong_bytes::byte_reason;
use st_lex::{LexFault, lex};
use st_types::limits::MAX_NAME_LENGTH;
use std::alloc::{AllocError, Global};

/// A hint that is the same for all words of a form.
fn help_of_form(word: &[u8]) -> Option<&'static str> {
    match word {
        [b'%', b'X' | b'x', ..] => Some(NO_BIT),
        [b'%', ..] => Some("an address is %IX, %QX, %IW or %QW and a number, as in %IX0"),
        [b'T' | b't', b'#', ..] => Some("write a duration as T#1h30m or T#1s500ms"),
        _ if word.contains(&b'#') => None,
        _ if word.iter().any(|b| b.is_ascii_alphabetic()) => {
            Some("a name begins with a letter or an underscore")
        }
        _ => None,
    }
}

/// A hint on the word in front, which isn't a literal.
fn help_of_literal(
    alloc: Global,
    word: &[u8],
    behind: &[u8],
) -> Result<Option<String>, AllocError> {
    if let Some(help) = numeral(alloc, word)? {
        return Ok(Some(help));
    }
    match help_of_form(word) {
        Some(help) => Ok(Some(String::from_str(alloc, help)?)),
        None => sign_after(alloc, word, behind),
    }
}

fn has_digits_alone(word: &[u8]) -> bool {
    word.iter().all(|b| b.is_ascii_digit())
}

/// The finding on the word in front of a text, which isn't a literal.
fn literal_reason(alloc: Global, text: &[u8]) -> Result<Finding, AllocError> {
    let word = word_in_front(text);
    let spelled = shown(word);
    if has_digits_alone(word) {
        let greatest = u64::MAX;
        return Ok(Finding::new(format!(in alloc;
            "{spelled} is over {greatest}, the largest number"
        )?));
    }
    let finding = Finding::new(format!(in alloc; "`{spelled}` isn't a literal")?);
    match help_of_literal(alloc, word, part(text, word.len(), text.len()))? {
        Some(help) => Ok(finding.helped(help)),
        None => Ok(finding),
    }
}

/// The finding on a word that isn't a name.
fn name_reason(alloc: Global, word: &[u8]) -> Result<Finding, AllocError> {
    let spelled = shown(word);
    let sentence = if word.len() > MAX_NAME_LENGTH {
        let length = word.len();
        format!(in alloc;
            "this name has {length} characters; at most {MAX_NAME_LENGTH} are allowed"
        )?
    } else if word.ends_with(b"_") {
        format!(in alloc; "`{spelled}` isn't a name: it ends with an underscore")?
    } else {
        format!(in alloc; "`{spelled}` isn't a name: it has two underscores in a row")?
    };
    Ok(Finding::new(sentence))
}

/// The finding on a comment that is left open, or that begins inside another: then the text before it has no tokens.
fn comment_reason(alloc: Global, before: &[u8]) -> Result<Finding, AllocError> {
    match lex(alloc, before) {
        Ok(_) => Finding::plain(alloc, "this comment isn't closed")?.with_help(
            alloc,
            "a comment ends with `*)`",
        ),
        Err(_) => Finding::plain(alloc, "a comment begins inside another one")?.with_help(
            alloc,
            "close the outer comment with `*)` before it",
        ),
    }
}

/// The finding on the first fault in the words of a text, at its place.
pub fn words_reason(
    alloc: Global,
    text: &[u8],
    fault: LexFault,
    place: usize,
) -> Result<Finding, AllocError> {
    let behind = part(text, place, text.len());
    match fault {
        LexFault::Byte => byte_reason(alloc, text, place),
        LexFault::Literal => literal_reason(alloc, behind),
        LexFault::Identifier => name_reason(alloc, word_in_front(behind)),
        LexFault::Comment => comment_reason(alloc, part(text, 0, place)),
    }
}
